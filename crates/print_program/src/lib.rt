// A program over tables: reads one from standard input and prints its run, in the program's mode (read, call, write, and tell what failed); or answers its arguments.
#![tactic(auto)]

ghost use Rattle.std.specs.Prelude.{◌≡◌, ◌+◌, ◌*◌, ◌≤◌, ◌<◌, IfOk, length, take};
ghost use Rattle.print_options.specs.Options.{is_quiet};
ghost use Rattle.print_program.specs.Run.{Ready, Goes, has_ended, Ended, Prints, Does};

use cluster_states::States;
use print_answers::Failed;
use print_options::{Asked, Program};
use print_stream::Taken;
use std::env::{Env, FillError};
use std::io;
use std::io::{IsTerminal, Read, Write};

// A run between two reads: what the last call left, how many reads there were, and whether the last read or the last write failed. Two flags, since
// both may have failed, and no other field hangs on either.
#[derive(Clone, Copy)]
pub struct Run {
    pub last: Taken,
    pub reads: u64,
    pub unread: bool,
    pub lost: bool,
}

// Reads behind the bytes kept, which stay.
fn read_on(rt: HostRuntime, input: &mut [u8], kept: usize) -> io::Result<usize>
    requires { kept < length input.old }
    ensures kept { take kept input.new ≡ take kept input.old }
    ensures within { IfOk result (λ more. kept + more ≤ length input.new) }
{
    rt.stdin().read(&mut input[kept..])
}

// One read, the call on what it brought, and the write of what that gave.
fn next(rt: HostRuntime, input: &mut [u8], out: &mut [u8], r: Run, states: &mut States) -> Run
    requires ready { Ready input.old out.old r.last }
    requires reads_bound { r.reads < 18446744073709551615 }
    ensures reads_value { result.reads ≡ r.reads + 1 }
    ensures goes { Goes r states.old input.old result states.new input.new out.new }
{
    let reads = r.reads + 1;
    let before = r.last;
    let session = before.session.unwrap();
    let kept = before.kept;
    let at = before.at;
    let Ok(more) = read_on(rt, input, kept) else {
        return Run {
            last: before,
            reads,
            unread: true,
            lost: rt.stdout().write_all(&out[..at]).is_err(),
        };
    };
    let taken = print_stream::take(session, input, kept + more, more == 0, out, at, states);
    let lost = rt.stdout().write_all(&out[..taken.at]).is_err();
    Run {
        last: Taken {
            session: taken.session,
            kept: taken.kept,
            at: 0,
        },
        reads,
        unread: false,
        lost,
    }
}

// Whether nothing is left to be done. Reads are counted, so that the loop ends.
fn has_ended(r: Run) -> bool
    ensures { result ≡ has_ended r }
{
    r.last.session.is_none() || (r.unread || (r.lost || r.reads == u64::MAX))
}

// The whole print in a mode, in as many reads as it takes.
fn print(rt: HostRuntime, quiet: bool, input: &mut [u8], out: &mut [u8], states: &mut States) -> Run
    requires { (2331 ≤ length input.old) × (39 + (3 * length input.old + 128) ≤ length out.old) }
    ensures { Ended quiet result states.new input.new }
{
    let mut run = Run {
        last: print_stream::begin(quiet, out),
        reads: 0,
        unread: false,
        lost: false,
    };
    while !has_ended(run) {
        run = next(rt, input, out, run, states);
    }
    run
}

// Says on standard error what failed: a program has no exit status.
fn tell(rt: HostRuntime, p: Program, f: Failed) {
    let mut text = [0u8; 64];
    let end = print_answers::put_failure(&mut text, 0, p, f);
    let _ = rt.stderr().write_all(&text[..end]);
}

// The run of a table that comes on standard input.
fn print_table(rt: HostRuntime, p: Program) -> Run
    ensures { Prints (is_quiet p) result }
{
    let mut input = [0u8; 32768];
    let mut out = [0u8; 131072];
    let mut states = cluster_states::begin(0, 0);
    let quiet = print_options::is_quiet(p);
    let run = print(rt, quiet, &mut input, &mut out, &mut states);
    if run.unread {
        tell(rt, p, Failed::Read);
    }
    if run.lost {
        tell(rt, p, Failed::Write);
    }
    run
}

// How many arguments there are, the program's name among them.
fn count_arguments(rt: HostRuntime) -> usize {
    for i in 0..usize::MAX {
        if let Err(FillError::NotPresent) = rt.arg(i, &mut []) {
            return i;
        }
    }
    usize::MAX
}

// What the arguments ask for. One that is longer than its room comes as empty, which asks for the same.
fn read_arguments(rt: HostRuntime) -> Asked {
    let mut first = print_options::argument_room();
    let length = rt.arg(1, &mut first).unwrap_or(0);
    print_options::asked_by(count_arguments(rt), &first[..length])
}

// Writes the answer, and says whether all of it was written.
fn answer(rt: HostRuntime, p: Program, asked: Asked) -> bool {
    let mut text = [0u8; 1024];
    let end = print_answers::put_answer(&mut text, 0, p, asked);
    if print_options::goes_aside(asked) {
        rt.stderr().write_all(&text[..end]).is_ok()
    } else {
        rt.stdout().write_all(&text[..end]).is_ok()
    }
}

// The whole of a program: what its arguments ask for. Answers the run that it printed, none where it answered them.
pub fn do_asked(rt: HostRuntime, p: Program) -> Option<Run>
    ensures { Does (is_quiet p) result }
{
    let asked = read_arguments(rt);
    if asked == Asked::Run {
        if rt.stdin().is_terminal() {
            answer(rt, p, asked);
        }
        Some(print_table(rt, p))
    } else {
        if !answer(rt, p, asked) {
            tell(rt, p, Failed::Write);
        }
        None
    }
}
