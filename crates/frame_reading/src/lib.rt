// Heartbeat and vote frames, read, and the two-channel rule.
#![tactic(auto)]

ghost use Rattle.std.specs.Prelude.{◌≡◌, ◌+◌, ◌≤◌, ◌<◌, length};
ghost use Rattle.parts.specs.Parts.{at_front};
ghost use Rattle.frames.specs.Written.{formed_vote};
ghost use Rattle.frames.specs.Read.{drive_of, heartbeat_of, read_heartbeat, same_payload, receive_heartbeat, vote_content, read_vote, receive_vote};

use frame_due::Due;
use frames::{Channel, Counted, Fault, Heartbeat, Kind};
use rules::Vote;
use state::Group;

// A heartbeat by its first word. The mode is looked at last: most heartbeats have no bit set.
fn heartbeat_of(quiet: bool, a: u8, b: u8) -> Result<Heartbeat, Fault>
    ensures { result ≡ heartbeat_of quiet a b }
{
    match (a, b) {
        (0, 0) => Ok(Heartbeat::Alive),
        (128, 0) => Ok(Heartbeat::Join),
        (64, 0) if quiet => Ok(Heartbeat::Request),
        _ => Err(Fault::Content),
    }
}

// The heartbeat of node q in a cycle, from the copy on a channel.
pub fn read_heartbeat(
    quiet: bool,
    q: u32,
    cycle: u32,
    channel: u32,
    s: &[u8],
) -> Result<Heartbeat, Fault>
    requires { q < 64 }
    ensures { result ≡ read_heartbeat quiet q cycle channel s.now }
{
    let due = Due {
        kind: Kind::Heartbeat,
        number: q + 1,
        cycle,
    };
    frame_checks::look(due, channel, s)?;
    heartbeat_of(quiet, s[5], s[6])
}

// Whether v is a vote that node q of n may cast.
pub fn formed_vote(n: usize, q: usize, v: Vote) -> bool
    requires n_bound { n ≤ 64 }
    requires q_bound { q < 64 }
    ensures { result ≡ formed_vote n q v }
{
    let g = v.group;
    sets::contains(g.set, q)
        && sets::contains(v.view, q)
        && sets::subset(g.set, g.base)
        && sets::below(n, g.base) == g.base
        && sets::below(n, v.view) == v.view
}

fn vote_content(n: usize, q: u32, s: &[u8]) -> Result<Vote, Fault>
    requires n_bound { n ≤ 64 }
    requires q_bound { q < 64 }
    requires in_bounds { 33 ≤ length s.now }
    ensures { result ≡ vote_content n q s.now }
{
    let v = Vote {
        group: Group {
            number: bigendian::read::<4>(s, 5) as u32,
            set: bigendian::read::<8>(s, 9),
            base: bigendian::read::<8>(s, 17),
        },
        view: bigendian::read::<8>(s, 25),
    };
    if formed_vote(n, q as usize, v) {
        Ok(v)
    } else {
        Err(Fault::Content)
    }
}

// The vote of node q of n in a cycle, from the copy on a channel.
pub fn read_vote(n: usize, q: u32, cycle: u32, channel: u32, s: &[u8]) -> Result<Vote, Fault>
    requires n_bound { n ≤ 64 }
    requires q_lt_n { q < n }
    ensures { result ≡ read_vote n q cycle channel s.now }
{
    let due = Due {
        kind: Kind::Vote,
        number: q + 65,
        cycle,
    };
    frame_checks::look(due, channel, s)?;
    vote_content(n, q, s)
}

fn same_payload(a: &[u8], b: &[u8]) -> bool
    requires in_bounds { 8 ≤ length a.now }
    requires in_bounds_2 { 8 ≤ length b.now }
    ensures { result ≡ same_payload a.now b.now }
{
    let end = a.len() - 3;
    let other = b.len() - 3;
    &a[5..end] == &b[5..other]
}

// The heartbeat of node q in a cycle, from both copies: one good copy counts; two count if their payloads are equal.
pub fn receive_heartbeat(quiet: bool, q: u32, cycle: u32, a: &[u8], b: &[u8]) -> Option<Counted>
    requires { q < 64 }
    ensures { result ≡ receive_heartbeat quiet q cycle a.now b.now }
{
    let on_a = read_heartbeat(quiet, q, cycle, 0, a);
    let on_b = read_heartbeat(quiet, q, cycle, 1, b);
    match (on_a, on_b) {
        (Ok(heartbeat), Ok(_)) => {
            if same_payload(a, b) {
                Some(Counted {
                    heartbeat,
                    channel: Channel::A,
                })
            } else {
                None
            }
        }
        (Ok(heartbeat), Err(_)) => Some(Counted {
            heartbeat,
            channel: Channel::A,
        }),
        (Err(_), Ok(heartbeat)) => Some(Counted {
            heartbeat,
            channel: Channel::B,
        }),
        (Err(_), Err(_)) => None,
    }
}

// The drive bytes of a heartbeat, at the front of a buffer; how many they are.
pub fn put_drive(s: &[u8], buffer: &mut [u8]) -> u32
    requires in_bounds { 10 ≤ length s.now }
    requires s_len_bound { length s.now ≤ 262 }
    requires buffer_len { length buffer.old ≡ 252 }
    ensures value { result ≡ length (drive_of s.now) }
    ensures buffer_after { buffer.new ≡ at_front (drive_of s.now) buffer.old }
{
    let end = s.len() - 3;
    parts::copy(&s[7..end], buffer) as u32
}

// The vote of a node in a cycle, from what was read in both copies.
pub fn receive_vote(a: Result<Vote, Fault>, b: Result<Vote, Fault>) -> Option<Vote>
    ensures { result ≡ receive_vote a b }
{
    match (a, b) {
        (Ok(v), Ok(w)) => { if v == w { Some(v) } else { None } }
        (Ok(v), Err(_)) => Some(v),
        (Err(_), Ok(w)) => Some(w),
        (Err(_), Err(_)) => None,
    }
}
