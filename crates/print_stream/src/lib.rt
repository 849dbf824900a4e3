// The printed run as a stream: what is read of a table goes in, in chunks of any size, and what is to be written comes out.
#![tactic(auto)]

ghost use Rattle.std.specs.Prelude.{◌≡◌, cond, None, ◌+◌, ◌*◌, ◌≤◌, length};
ghost use Rattle.print_stream.specs.Stream.{Begins, goes_on, Takes};

use cluster_states::States;
use print_pieces::Session;

// What a call leaves: the session, none once it is over; how many bytes it keeps in the front of the window; and where the text to be written ends.
#[derive(Clone, Copy)]
pub struct Taken {
    pub session: Option<Session>,
    pub kept: usize,
    pub at: usize,
}

// Begins a print in a mode, with the header line.
pub fn begin(quiet: bool, out: &mut [u8]) -> Taken
    requires { 39 ≤ length out.old }
    ensures { Begins quiet out.old out.new result }
{
    let header = print_lines::put_header(out, 0);
    Taken {
        session: Some(Session::Fresh(quiet)),
        kept: 0,
        at: header,
    }
}

// The session, where it can take a record: that is whole in what is seen, or the file has ended.
fn going(session: Option<Session>, ended: bool, left: &[u8]) -> Option<Session>
    ensures { result ≡ cond (goes_on session ended left.now) session None }
{
    let z = session?;
    if ended || z.is_whole(left) {
        session
    } else {
        None
    }
}

// Takes every whole record of the first `have` bytes of the window, and the end of the file where it has ended, and appends what they give at `at`. The
// bytes that are not taken are moved to the front. The whole window stands beside `have`, and the buffer beside `at`, since `Took` says each byte of both.
// Free: what the cluster as it stands does not show of session and states, and the states, and what is kept, once it is over.
pub fn take(
    z: Session,
    window: &mut [u8],
    have: usize,
    ended: bool,
    out: &mut [u8],
    at: usize,
    states: &mut States,
) -> Taken
    requires { (have ≤ length window.old) × (at + (3 * have + 128) ≤ length out.old) }
    ensures { Takes z states.old window.old have ended out.old at window.new out.new result states.new }
{
    let mut session = Some(z);
    let mut used: usize = 0;
    let mut end = at;
    while let Some(before) = going(session, ended, &window[used..have]) {
        let piece = before.turn(&window[used..have], out, end, states);
        session = piece.session;
        used += piece.taken;
        end = piece.at;
    }
    let kept = print_window::keep(window, used, have);
    Taken {
        session,
        kept,
        at: end,
    }
}
