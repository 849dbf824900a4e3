// Prints the run of a table on a quiet press, in which votes rest while nothing happens.
#![tactic(auto)]

ghost use Rattle.std.specs.Prelude.{true};
ghost use Rattle.print_program.specs.Run.{Does};

use print_options::Program;
use print_program::Run;

// The whole, in mode 1.
fn run(rt: HostRuntime) -> Option<Run>
    ensures { Does true result }
{
    print_program::do_asked(rt, Program::Quiet)
}

fn main(rt: HostRuntime) {
    run(rt);
}
