// Refusals 8 and 9 of a frame that is read, by its header h, the five bytes as one number. Its fields begin at bit 39 (reserved), 38 (preamble), 37 (null frame), 36 (sync),
// 35 (startup), 24 (frame number), 17 (length), 6 (header check) and 0 (cycle count).
#![tactic(auto)]

ghost use Rattle.std.specs.Prelude.{◌≡◌, ◌&&◌, List, ℕ};
ghost use Rattle.bigendian.specs.BigEndian.{number_at};
ghost use Rattle.frames.specs.Read.{is_due};
ghost use Rattle.frames.specs.Looked.{words_due, indicators_of, due_fault, looked};

use frames::{Fault, Kind};

// The frame that is due in a slot: its kind, its frame number and the cycle count.
#[derive(Clone, Copy, Debug, PartialEq, Eq)]
pub struct Due {
    pub kind: Kind,
    pub number: u32,
    pub cycle: u32,
}

// The length of a frame whose header is h: of a heartbeat one word at least, of a vote 14.
fn words_due(kind: Kind, h: u64) -> bool
    ensures { (s : List ℕ) → number_at s 0 5 ≡ h → result ≡ words_due kind s }
{
    let words = h / 131072 % 128;
    match kind {
        Kind::Heartbeat => words != 0,
        Kind::Vote => words == 14,
    }
}

// The indicators of a frame whose header is h: of a heartbeat startup only with sync, of a vote both 0.
fn indicators(kind: Kind, h: u64) -> bool
    ensures { (s : List ℕ) → number_at s 0 5 ≡ h → result ≡ indicators_of kind s }
{
    let sync = h / 68719476736 % 2;
    let startup = h / 34359738368 % 2;
    match kind {
        Kind::Heartbeat => startup <= sync,
        Kind::Vote => sync == 0 && startup == 0,
    }
}

// Whether a frame whose header is h is the one due.
fn is_due(due: Due, h: u64) -> bool
    ensures { (s : List ℕ) → number_at s 0 5 ≡ h → result ≡ (is_due due.number due.cycle s && words_due due.kind s && indicators_of due.kind s) }
{
    if h / 549755813888 % 2 != 0 {
        return false;
    }
    if h / 274877906944 % 2 != 0 {
        return false;
    }
    if h / 16777216 % 2048 != u64::from(due.number) {
        return false;
    }
    if h % 64 != u64::from(due.cycle) {
        return false;
    }
    words_due(due.kind, h) && indicators(due.kind, h)
}

// Refusals 8 and 9 of a frame whose header is h.
pub fn null_or_due(due: Due, h: u64) -> Result<(), Fault>
    ensures { (s : List ℕ) → number_at s 0 5 ≡ h → result ≡ looked (due_fault due.number due.cycle (words_due due.kind s) (indicators_of due.kind s) s) }
{
    let sent = h / 137438953472 % 2 != 0;
    let is_due = is_due(due, h);
    if !sent {
        return Err(Fault::NullFrame);
    }
    if !is_due {
        return Err(Fault::NotDue);
    }
    Ok(())
}
