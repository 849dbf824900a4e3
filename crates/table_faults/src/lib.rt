// The faults of a cycle, from its record.
#![tactic(auto)]

ghost use Rattle.std.specs.Prelude.{◌≡◌, cond, ◌/◌, ◌%◌, eqb, set, replicate};
ghost use Rattle.table.specs.Records.{faults_at};

use rules::Faults;
use table::{CycleRecord, Entry};

// The two high bits of an entry's first byte: of one that names a heartbeat, and of one that names a vote.
const HEARTBEAT: u8 = 0;

const VOTE: u8 = 2;

// Stores an entry's mask at its receiver if its two high bits are `phase`; so one with bit 6 set is stored nowhere.
fn note(missed: &mut [u64; 64], phase: u8, entry: Entry)
    ensures { missed.new ≡ cond (eqb (entry.first / 64) phase) (set missed.old (entry.first % 64) entry.missed) missed.old }
{
    if entry.first / 64 == phase {
        missed[entry.receiver()] = entry.missed;
    }
}

// What each node misses in a cycle, from its record, in one pass over the entries, into arrays of zeros.
pub fn cycle_missed(cycle: CycleRecord, heartbeats: &mut [u64; 64], votes: &mut [u64; 64])
    requires { (heartbeats.old ≡ replicate 64 0) × (votes.old ≡ replicate 64 0) }
    ensures heartbeats_after { heartbeats.new ≡ (faults_at cycle.entry.bytes.now).heartbeat_missed }
    ensures votes_after { votes.new ≡ (faults_at cycle.entry.bytes.now).vote_missed }
{
    for i in 0..usize::from(cycle.entries()) {
        let entry = cycle.entry(i);
        note(heartbeats, HEARTBEAT, entry);
        note(votes, VOTE, entry);
    }
}

// The faults of a cycle, from its record. Field by field: `Faults` has the four masks itself, as the definitions over it name them (`rules/specs/Faults.antt`).
pub fn cycle_faults(cycle: CycleRecord) -> Faults
    ensures { result ≡ faults_at cycle.entry.bytes.now }
{
    let mut heartbeat_missed = [0u64; 64];
    let mut vote_missed = [0u64; 64];
    cycle_missed(cycle, &mut heartbeat_missed, &mut vote_missed);
    let marks = cycle.marks();
    Faults {
        stop: marks.stop,
        start: marks.start,
        heartbeat_lost: marks.heartbeat_lost,
        vote_lost: marks.vote_lost,
        heartbeat_missed,
        vote_missed,
    }
}
