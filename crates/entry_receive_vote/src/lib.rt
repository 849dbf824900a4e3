// Votes that arrive: read from one channel, or received on both into the vote buffer. Numbers come in as the C interface has them.
#![tactic(auto)]

ghost use Rattle.std.specs.Prelude.{◌≡◌};
ghost use Rattle.refusal.specs.Codes.{status_of};
ghost use Rattle.entry_receive_vote.specs.Arrivals.{read_vote_status, read_vote_left, receive_vote_status, receive_vote_left, receive_vote_arrived};

use entry_write_vote::check_call;
use refusal::Refusal;

// One copy of a node's vote: its 28 bytes.
pub fn read(
    n: u32,
    node: u32,
    cycle: u32,
    channel: u32,
    frame: &[u8],
    vote: &mut [u8],
) -> Result<(), Refusal>
    ensures value { status_of result ≡ read_vote_status n node cycle channel frame.now vote.old }
    ensures vote_after { vote.new ≡ read_vote_left n node cycle channel frame.now vote.old }
{
    check_call(n, node, cycle, channel, vote.len(), 28)?;
    let v = frame_reading::read_vote(n as usize, node, cycle, channel, frame)?;
    parts::copy(&frame_writing::vote_payload(v), vote);
    Ok(())
}

// Both copies of a node's vote: into its slot of the vote buffer, and its bit of the mask.
pub fn receive(
    n: u32,
    node: u32,
    cycle: u32,
    a: &[u8],
    b: &[u8],
    votes: &mut [u8],
    arrived: &mut u64,
) -> Result<(), Refusal>
    ensures value { status_of result ≡ receive_vote_status n node cycle votes.old }
    ensures votes_after { votes.new ≡ receive_vote_left n node cycle a.now b.now votes.old }
    ensures arrived_after { arrived.new ≡ receive_vote_arrived n node cycle a.now b.now votes.old arrived.old }
{
    check_call(n, node, cycle, 0, votes.len(), 1792)?;
    let nodes = n as usize;
    let one = frame_reading::read_vote(nodes, node, cycle, 0, a);
    let other = frame_reading::read_vote(nodes, node, cycle, 1, b);
    let sender = sets::single(node as usize);
    match frame_reading::receive_vote(one, other) {
        None => *arrived = sets::difference(*arrived, sender),
        Some(v) => {
            parts::put(votes, 28 * node as usize, &frame_writing::vote_payload(v));
            *arrived = sets::union(sender, *arrived);
        }
    }
    Ok(())
}
