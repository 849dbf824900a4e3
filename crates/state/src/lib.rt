// The state of a node, and its 24-byte image.
#![tactic(auto)]

ghost use Rattle.std.specs.Prelude.{◌≡◌, ltb, cond, Ok, Err};
ghost use Rattle.refusal.specs.declared.Refusal.TheVariants.{Image};
ghost use Rattle.state.specs.State.{next_number};

use refusal::Refusal;

// Why a node is out: stopped or never started; it halted for want of a quorum; a quorum voted for another view than its own.
#[derive(Clone, Copy, Debug, PartialEq, Eq)]
pub enum Reason {
    Stopped,
    NoQuorum,
    Outvoted,
}

// Its byte in an image.
impl From<Reason> for u8 {
    ghost use Rattle.state.specs.State.{reason_code};

    ghost from_gives = { λ r n. n ≡ reason_code r };

    fn from(r: Reason) -> u8 {
        match r {
            Reason::Stopped => 0,
            Reason::NoQuorum => 1,
            Reason::Outvoted => 2,
        }
    }
}

impl TryFrom<u8> for Reason {
    type Error = Refusal;

    ghost use Rattle.state.specs.Image.{reason_of};

    ghost try_from_gives = { λ code r. r ≡ cond (ltb code 3) (Ok (reason_of code)) (Err Image) };

    fn try_from(code: u8) -> Result<Reason, Refusal> {
        match code {
            0 => Ok(Reason::Stopped),
            1 => Ok(Reason::NoQuorum),
            2 => Ok(Reason::Outvoted),
            _ => Err(Refusal::Image),
        }
    }
}

// The group that a member holds: its number G, the set M of its members, and the base B of its quorums (the present and the previous group).
#[derive(Clone, Copy, Debug, Default, PartialEq, Eq)]
pub struct Group {
    pub number: u32,
    pub set: u64,
    pub base: u64,
}

// A member holds its group, and whether it requests in the next cycle: a bit of its heartbeat that wakes the votes of a quiet press.
#[derive(Clone, Copy, Debug, PartialEq, Eq)]
pub enum State {
    Out(Reason),
    Joining,
    Member(Group, bool),
}

// A node: its state, its number, and how many nodes the cluster has.
#[derive(Clone, Copy, Debug, PartialEq, Eq)]
pub struct Node {
    pub state: State,
    pub id: u8,
    pub nodes: u8,
}

// The group number after g.
pub fn next_number(g: u32) -> u32
    ensures { result ≡ next_number g }
{
    std::num::wrapping_add_u32(g, 1)
}
