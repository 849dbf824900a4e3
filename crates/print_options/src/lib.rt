// The programs and their modes, what their arguments ask for, and where the answers go.
#![tactic(auto)]

ghost use Rattle.std.specs.Prelude.{◌≡◌, replicate};
ghost use Rattle.print_options.specs.Options.{is_quiet, asked_by_one, asked_by, argument_room, goes_aside};

// The programs: grouprun, for presses that vote in every cycle, and quietrun, for quiet ones.
#[derive(Clone, Copy)]
pub enum Program {
    Group,
    Quiet,
}

// What is asked for: the run of a table, the help, the version, or nothing that there is.
#[derive(Clone, Copy)]
pub enum Asked {
    Run,
    Help,
    Version,
    Wrong,
}

// Whether the press of a program's tables is quiet.
pub fn is_quiet(p: Program) -> bool
    ensures { result ≡ is_quiet p }
{
    match p {
        Program::Group => false,
        Program::Quiet => true,
    }
}

// Room for an argument, in which every option fits.
pub fn argument_room() -> [u8; 16]
    ensures { result ≡ replicate argument_room 0 }
{
    [0; 16]
}

// What is asked for by one argument.
fn asked_by_one(first: &[u8]) -> Asked
    ensures { result ≡ asked_by_one first.now }
{
    if first == b"--help".as_slice() {
        Asked::Help
    } else if first == b"--version".as_slice() {
        Asked::Version
    } else {
        Asked::Wrong
    }
}

// What is asked for by so many arguments, the program's name among them, the one after the name being `first`.
pub fn asked_by(count: usize, first: &[u8]) -> Asked
    ensures { result ≡ asked_by count first.now }
{
    match count {
        0 | 1 => Asked::Run,
        2 => asked_by_one(first),
        _ => Asked::Wrong,
    }
}

// Whether the answer goes to standard error, and not to standard output.
pub fn goes_aside(a: Asked) -> bool
    ensures { result ≡ goes_aside a }
{
    match a {
        Asked::Run => true,
        Asked::Help => false,
        Asked::Version => false,
        Asked::Wrong => true,
    }
}
