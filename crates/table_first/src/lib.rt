// The first record of a table file, and what it shares with the others.
#![tactic(auto)]

ghost use Rattle.std.specs.Prelude.{◌≡◌, not, ◌||◌, [], ◌∷◌, ◌≤◌, eqb, ltb, length, is_some, unwrap_or, IsOk, IfOk};
ghost use Rattle.refusal.specs.Refusal.{when, first};
ghost use Rattle.refusal.specs.Codes.{status_of};
ghost use Rattle.table.specs.Records.{marked, is_kind, beyond, count_at, founding_at, wrong_row, start_refusal};

use refusal::Refusal;
use table::Start;

// The first two bytes of every record.
pub const MARK: [u8; 2] = *b"GM";

// Whether s begins with the mark; fewer than two bytes do not.
#[tactic(auto, unfolding(table::specs::Records::marked))]
pub fn has_mark(s: &[u8]) -> bool
    ensures { result ≡ marked s.now }
{
    s.starts_with(&MARK)
}

// Refuses what begins with no record of this kind: fewer than three bytes, or another mark or kind.
#[tactic(auto, unfolding(refusal::specs::Refusal::first))]
pub fn check_kind(kind: u8, s: &[u8]) -> Result<(), Refusal>
    ensures { status_of result ≡ first (when (ltb (length s.now) 3) 11 ∷ when (not (is_kind kind s.now)) 12 ∷ []) }
{
    if s.len() < 3 {
        return Err(Refusal::CutRecord);
    }
    if !has_mark(s) || s[2] != kind {
        return Err(Refusal::Record);
    }
    Ok(())
}

// Whether m has a bit at n or above.
pub fn is_beyond(n: usize, m: u64) -> bool
    requires { n ≤ 64 }
    ensures { result ≡ beyond n m }
{
    sets::below(n, m) != m
}

// Refuses a number of nodes other than 2 to 64, then a run's row of another number of entries, and then a founding set that is empty or has a bit at N or above.
#[tactic(auto, unfolding(refusal::specs::Refusal::first))]
fn check_limits(row: Option<usize>, start: Start) -> Result<(), Refusal>
    ensures refused { status_of result ≡ first (when (ltb start.nodes 2 || ltb 64 start.nodes) 1 ∷ when (wrong_row (is_some row) (unwrap_or row 0) start.nodes) 3 ∷ when (eqb start.founding 0 || beyond start.nodes start.founding) 13 ∷ []) }
    ensures count { IsOk result → start.nodes ≤ 64 }
{
    let nodes = usize::from(start.nodes);
    if nodes < 2 || nodes > 64 {
        return Err(Refusal::NodeCount);
    }
    if row.is_some_and(|entries| entries != nodes) {
        return Err(Refusal::Length);
    }
    if start.founding == 0 || is_beyond(nodes, start.founding) {
        return Err(Refusal::Limit);
    }
    Ok(())
}

// Refuses a table by its first record, or reads that; `row` is the number of entries of a run's row, and the program is lent none.
#[tactic(auto, unfolding(table::specs::Records::start_refusal, refusal::specs::Refusal::first))]
pub fn check_start(row: Option<usize>, s: &[u8]) -> Result<Start, Refusal>
    ensures refused { status_of result ≡ start_refusal (is_some row) (unwrap_or row 0) s.now }
    ensures read { IfOk result (λ t. (12 ≤ length s.now) × (t.nodes ≤ 64) × (t.nodes ≡ count_at s.now) × (t.founding ≡ founding_at s.now)) }
{
    check_kind(table::START, s)?;
    let start = Start::read(s).ok_or(Refusal::CutRecord)?;
    check_limits(row, start)?;
    Ok(start)
}
