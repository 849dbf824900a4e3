// The limits of a record of kind 2: its masks, its entries and its place in the table.
#![tactic(auto)]

ghost use Rattle.std.specs.Prelude.{◌≡◌, not, ◌&&◌, ◌||◌, ◌-◌, ◌/◌, ◌%◌, ◌≤◌, ◌<◌, eqb, ltb};
ghost use Rattle.sets.specs.Sets.{has, every};
ghost use Rattle.table.specs.Records.{beyond};
ghost use Rattle.table.specs.Records.{entries_at, place_at, good_entry, masks_beyond, wrong_cycle};

use table::CycleRecord;

// An entry's first byte: bit 6 zero, and a receiver below n.
fn place_fits(n: usize, first: u8) -> bool
    ensures { result ≡ (eqb (first / 64 % 2) 0 && ltb (first % 64) n) }
{
    first / 64 % 2 == 0 && usize::from(first % 64) < n
}

// An entry's mask: not empty, no bit at n or above, and not its own receiver.
fn mask_fits(n: usize, receiver: usize, missed: u64) -> bool
    requires { (n ≤ 64) × (receiver < 64) }
    ensures { result ≡ (not (eqb missed 0) && not (beyond n missed) && not (has receiver missed)) }
{
    missed != 0 && !table_first::is_beyond(n, missed) && !sets::contains(missed, receiver)
}

// Entry i stands after the one before it.
fn ascends(cycle: CycleRecord, i: usize) -> bool
    requires { i < entries_at cycle.bytes.now }
    ensures { result ≡ (eqb i 0 || ltb (place_at cycle.entry.bytes.now (i - 1)) (place_at cycle.entry.bytes.now i)) }
{
    i == 0 || cycle.entry(i - 1).first < cycle.entry(i).first
}

// Whether entry i keeps every limit.
#[tactic(auto, unfolding(table::specs::Records::good_entry))]
fn entry_fits(n: usize, cycle: CycleRecord, i: usize) -> bool
    requires { (n ≤ 64) × (i < entries_at cycle.bytes.now) }
    ensures { result ≡ good_entry n cycle.entry.bytes.now i }
{
    let entry = cycle.entry(i);
    place_fits(n, entry.first) && mask_fits(n, entry.receiver(), entry.missed) && ascends(cycle, i)
}

// Whether every entry keeps every limit.
fn entries_fit(n: usize, cycle: CycleRecord) -> bool
    requires { n ≤ 64 }
    ensures { result ≡ every (entries_at cycle.entry.bytes.now) (good_entry n cycle.entry.bytes.now) }
{
    (0..usize::from(cycle.entries())).all(|i| entry_fits(n, cycle, i))
}

// Whether one of the four masks has a bit at n or above.
#[tactic(auto, unfolding(table::specs::Records::masks_beyond, table::specs::Records::faults_at))]
fn masks_beyond(n: usize, cycle: CycleRecord) -> bool
    requires { n ≤ 64 }
    ensures { result ≡ masks_beyond n cycle.entry.bytes.now }
{
    let marks = cycle.marks();
    table_first::is_beyond(n, marks.stop)
        || table_first::is_beyond(n, marks.start)
        || table_first::is_beyond(n, marks.heartbeat_lost)
        || table_first::is_beyond(n, marks.vote_lost)
}

// What 13 stands for in a record of a cycle. That n is at most 64 stays a clause here and below: n is a `Config`'s, and theorems speak of one of any number.
#[tactic(auto, unfolding(table::specs::Records::wrong_cycle))]
pub fn is_wrong_cycle(n: usize, k: u64, cycle: CycleRecord) -> bool
    requires { n ≤ 64 }
    ensures { result ≡ wrong_cycle n k cycle.entry.bytes.now }
{
    k > 4294967295 || masks_beyond(n, cycle) || cycle.entries() > 128 || !entries_fit(n, cycle)
}
