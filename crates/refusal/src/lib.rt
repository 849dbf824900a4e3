// The refusals of the product, and how those of a call are stated.
#![tactic(auto)]

ghost use Rattle.std.specs.Prelude.{◌≡◌};
ghost use Rattle.refusal.specs.Codes.{code_of, status_of};

// Why a call is refused, in the order of the refusals' numbers, 1 to 14: the number of nodes; another number; the length of a lent buffer; a state image or a
// block; of a frame its length, its checks, a null frame, one that is not due, its content; of a table a record cut short, one that is none, a limit; an address.
#[derive(Clone, Copy, Debug, PartialEq, Eq)]
pub enum Refusal {
    NodeCount,
    Number,
    Length,
    Image,
    FrameLength,
    HeaderCheck,
    FrameCheck,
    NullFrame,
    NotDue,
    Content,
    CutRecord,
    Record,
    Limit,
    Address,
}

impl From<Refusal> for u32 {
    ghost from_gives = { λ r n. n ≡ code_of r };

    fn from(r: Refusal) -> u32 {
        match r {
            Refusal::NodeCount => 1,
            Refusal::Number => 2,
            Refusal::Length => 3,
            Refusal::Image => 4,
            Refusal::FrameLength => 5,
            Refusal::HeaderCheck => 6,
            Refusal::FrameCheck => 7,
            Refusal::NullFrame => 8,
            Refusal::NotDue => 9,
            Refusal::Content => 10,
            Refusal::CutRecord => 11,
            Refusal::Record => 12,
            Refusal::Limit => 13,
            Refusal::Address => 14,
        }
    }
}

// What a C host is answered: the refusal's number, or 0.
pub fn status(r: Result<(), Refusal>) -> u32
    ensures { result ≡ status_of r }
{
    match r {
        Ok(()) => 0,
        Err(refusal) => u32::from(refusal),
    }
}
