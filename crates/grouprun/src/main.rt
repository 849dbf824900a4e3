// Prints the run of a table on a press that votes in every cycle.
#![tactic(auto)]

ghost use Rattle.std.specs.Prelude.{false};
ghost use Rattle.print_program.specs.Run.{Does};

use print_options::Program;
use print_program::Run;

// The whole, in mode 0.
fn run(rt: HostRuntime) -> Option<Run>
    ensures { Does false result }
{
    print_program::do_asked(rt, Program::Group)
}

fn main(rt: HostRuntime) {
    run(rt);
}
