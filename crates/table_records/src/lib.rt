// The cycles of a table file, record by record, and whole tables.
#![tactic(auto)]

ghost use Rattle.std.specs.Prelude.{◌≡◌, ◌≤◌, length, is_some, unwrap_or, IfOk};
ghost use Rattle.refusal.specs.Codes.{status_of};
ghost use Rattle.table.specs.Records.{count_at, founding_at, cycle_refusal};
ghost use Rattle.table.specs.Table.{cycles_in, table_of};

use refusal::Refusal;
use table::{CycleRecord, Start};

// Refuses the record that s begins with, as cycle k of n nodes, or reads it. Whether all its bytes are there comes before its limits, whatever its count.
#[tactic(auto, unfolding(table::specs::Records::cycle_refusal, refusal::specs::Refusal::first))]
pub fn check_cycle<'a>(n: usize, k: u64, s: &'a [u8]) -> Result<CycleRecord<'a>, Refusal>
    requires { n ≤ 64 }
    ensures refused { status_of result ≡ cycle_refusal n k s.now }
    ensures read { IfOk result (λ r. r.bytes.now ≡ s.now) }
{
    table_first::check_kind(table::CYCLE, s)?;
    let cycle = CycleRecord::read(s).ok_or(Refusal::CutRecord)?;
    if table_limits::is_wrong_cycle(n, k, cycle) {
        return Err(Refusal::Limit);
    }
    Ok(cycle)
}

// The first refusal among the records of cycles, from cycle 1 on. A `for` over the numbers would have to break where the bytes end.
fn check_cycles(n: usize, s: &[u8]) -> Result<(), Refusal>
    requires { n ≤ 64 }
    ensures { status_of result ≡ (cycles_in (length s.now) n 1 s.now).refusal }
{
    let mut rest = s;
    let mut k = 1;
    while !rest.is_empty() {
        let cycle = check_cycle(n, k, rest)?;
        rest = &rest[cycle.length()..];
        k += 1;
    }
    Ok(())
}

// Refuses a table by the first of its records that is refused, or reads its first; `row` is the number of entries of a run's row, and the program is lent none.
pub fn check_table(row: Option<usize>, s: &[u8]) -> Result<Start, Refusal>
    ensures refused { status_of result ≡ (table_of (is_some row) (unwrap_or row 0) s.now).cycles.refusal }
    ensures read { IfOk result (λ t. (12 ≤ length s.now) × (t.nodes ≤ 64) × (t.nodes ≡ count_at s.now) × (t.founding ≡ founding_at s.now)) }
{
    let start = table_first::check_start(row, s)?;
    check_cycles(usize::from(start.nodes), &s[Start::LENGTH..])?;
    Ok(start)
}
