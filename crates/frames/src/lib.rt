// Heartbeat and vote frames: how they are laid out and read, as definitions with their laws, and what reading one can find.
#![tactic(auto)]

ghost use Rattle.std.specs.Prelude.{◌≡◌, ◌<◌};

use refusal::Refusal;

// The two kinds of frame.
#[derive(Clone, Copy, Debug, PartialEq, Eq)]
pub enum Kind {
    Heartbeat,
    Vote,
}

// Why a frame is refused, in the order looked at.
#[derive(Clone, Copy, Debug, PartialEq, Eq)]
pub enum Fault {
    Length,
    HeaderCheck,
    FrameCheck,
    NullFrame,
    NotDue,
    Content,
}

// So that `?` gives the refusal that a call of the product answers.
impl From<Fault> for Refusal {
    ghost use Rattle.frames.specs.Refused.{refusal_of};

    ghost from_gives = { λ f r. r ≡ refusal_of f };

    fn from(f: Fault) -> Refusal {
        match f {
            Fault::Length => Refusal::FrameLength,
            Fault::HeaderCheck => Refusal::HeaderCheck,
            Fault::FrameCheck => Refusal::FrameCheck,
            Fault::NullFrame => Refusal::NullFrame,
            Fault::NotDue => Refusal::NotDue,
            Fault::Content => Refusal::Content,
        }
    }
}

// What a heartbeat says: a member's, a joining node's, or that of a member that requests.
#[derive(Clone, Copy, Debug, PartialEq, Eq)]
pub enum Heartbeat {
    Alive,
    Join,
    Request,
}

// On which channel the copy came that counts. To a reader or a writer a channel is a number: the C interface gives it, and `read_heartbeat`, `read_vote` and
// `write_vote` promise their answers for every number, as `channel_start` is defined.
#[derive(Clone, Copy, Debug, PartialEq, Eq)]
pub enum Channel {
    A,
    B,
}

// What the two copies of a heartbeat that is not missed give, and whose drive bytes count.
#[derive(Clone, Copy, Debug, PartialEq, Eq)]
pub struct Counted {
    pub heartbeat: Heartbeat,
    pub channel: Channel,
}

// Where a frame is written: its node, cycle and channel.
#[derive(Clone, Copy, Debug, PartialEq, Eq)]
pub struct Slot {
    pub node: u32,
    pub cycle: u32,
    pub channel: u32,
    ghost node_bound: { node < 64 },
    ghost cycle_bound: { cycle < 64 },
}

// The bits of a heartbeat that its sender chooses: join and request in its first word, sync and startup in its header.
#[derive(Clone, Copy, Debug, PartialEq, Eq)]
pub struct Bits {
    pub join: bool,
    pub request: bool,
    pub sync: bool,
    pub startup: bool,
}
