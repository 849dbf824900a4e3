// Vote frames, written from numbers, and what is refused of a call that names a slot.
#![tactic(auto)]

ghost use Rattle.std.specs.Prelude.{◌≡◌, not, ◌||◌, [], ◌∷◌, eqb};
ghost use Rattle.refusal.specs.Refusal.{when, first};
ghost use Rattle.refusal.specs.Codes.{status_of};
ghost use Rattle.entry_lent.specs.Refusals.{wrong_count, wrong_node, wrong_cycle, wrong_channel};
ghost use Rattle.entry_write_vote.specs.Votes.{write_vote_status, write_vote_left};

use entry_lent::{check_count, check_length, check_slot};
use frames::Slot;
use refusal::Refusal;
use rules::Vote;

// Refusals 1 to 3 of a call that names a node, a cycle and a channel and lends a buffer of so many bytes where `due` are.
#[tactic(auto, unfolding(refusal::specs::Refusal::first))]
pub fn check_call(
    n: u32,
    node: u32,
    cycle: u32,
    channel: u32,
    len: usize,
    due: usize,
) -> Result<(), Refusal>
    ensures { status_of result ≡ first (when (wrong_count n) 1 ∷ when (wrong_node n node || wrong_cycle cycle || wrong_channel channel) 2 ∷ when (not (eqb len due)) 3 ∷ []) }
{
    check_count(n)?;
    check_slot(n, node, cycle, channel)?;
    check_length(len, due)
}

#[tactic(auto, unfolding(refusal::specs::Refusal::first, crate::specs::Votes::write_vote_status))]
fn check(
    n: u32,
    node: u32,
    vote: Vote,
    cycle: u32,
    channel: u32,
    frame: &[u8],
) -> Result<(), Refusal>
    ensures { status_of result ≡ write_vote_status n node vote cycle channel frame.now }
{
    check_call(n, node, cycle, channel, frame.len(), 36)?;
    if !frame_reading::formed_vote(n as usize, node as usize, vote) {
        return Err(Refusal::Content);
    }
    Ok(())
}

// A vote from numbers, into 36 bytes.
pub fn write(
    n: u32,
    node: u32,
    vote: Vote,
    cycle: u32,
    channel: u32,
    frame: &mut [u8],
) -> Result<(), Refusal>
    ensures value { status_of result ≡ write_vote_status n node vote cycle channel frame.old }
    ensures frame_after { frame.new ≡ write_vote_left n node vote cycle channel frame.old }
{
    check(n, node, vote, cycle, channel, frame)?;
    let slot = Slot {
        node,
        cycle,
        channel,
    };
    parts::copy(&frame_writing::write_vote(slot, vote), frame);
    Ok(())
}
