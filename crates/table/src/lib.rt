// Table files: what a table is and how it is refused, as definitions with their laws; and its two kinds of record, as they are read.
#![tactic(auto)]

ghost use Rattle.std.specs.Prelude.{◌≡◌, ◌+◌, ◌*◌, ◌%◌, ◌≤◌, ◌<◌, ◌↔◌, IsSome, IfSome, length};
ghost use Rattle.table.specs.Records.{count_at, founding_at, entries_at, cycle_length, place_at, missed_at, marks_at};

use rules::Marks;

// The kind bytes of the two records. Constants, and no enum: each reader asks for one kind alone, and no code tells kinds apart.
pub const START: u8 = 1;

pub const CYCLE: u8 = 2;

// The first record of a table: N and the founding set.
#[derive(Clone, Copy)]
pub struct Start {
    pub nodes: u8,
    pub founding: u64,
}

impl Start {
    // Its bytes, whatever N and the founding set are.
    pub const LENGTH: usize = 12;

    // Reads the record that the bytes begin with; none where they are not all there.
    pub fn read(bytes: &[u8]) -> Option<Start>
        ensures there { IsSome result ↔ (12 ≤ length bytes.now) }
        ensures read { IfSome result (λ t. (t.nodes ≡ count_at bytes.now) × (t.founding ≡ founding_at bytes.now)) }
    {
        if bytes.len() < Start::LENGTH {
            return None;
        }
        Some(Start {
            nodes: bytes[3],
            founding: bigendian::read::<8>(bytes, 4),
        })
    }
}

// An entry of a cycle's record: its first byte, of phase and receiver, and the senders missed.
#[derive(Clone, Copy)]
pub struct Entry {
    pub first: u8,
    pub missed: u64,
}

impl Entry {
    // The node that misses them.
    pub fn receiver(self) -> usize
        ensures value { result ≡ self.first % 64 }
        ensures upper_bound { result < 64 }
    {
        usize::from(self.first % 64)
    }
}

// The length of the record of a cycle that the bytes begin with, by its count even above 128.
pub fn cycle_length(bytes: &[u8]) -> usize
    requires { 36 ≤ length bytes.now }
    ensures { result ≡ cycle_length bytes.now }
{
    36 + 9 * usize::from(bytes[35])
}

// The record of a cycle, which the bytes begin with: 36 of them and 9 for each entry that it counts are there.
#[derive(Clone, Copy)]
pub struct CycleRecord<'a> {
    pub bytes: &'a [u8],
    ghost whole: { cycle_length bytes.now ≤ length bytes.now },
}

impl<'a> CycleRecord<'a> {
    // Reads the record that the bytes begin with; none where they are not all there.
    pub fn read(bytes: &'a [u8]) -> Option<CycleRecord<'a>>
        ensures there { IsSome result ↔ (cycle_length bytes.now ≤ length bytes.now) }
        ensures read { IfSome result (λ r. r.bytes.now ≡ bytes.now) }
    {
        if bytes.len() < 36 || bytes.len() < cycle_length(bytes) {
            return None;
        }
        Some(CycleRecord { bytes })
    }

    // The count of its entries.
    pub fn entries(self) -> u8
        ensures { result ≡ entries_at self.entry.bytes.now }
    {
        self.bytes[35]
    }

    // How many of the bytes it takes.
    pub fn length(self) -> usize
        ensures { result ≡ cycle_length self.entry.bytes.now }
    {
        cycle_length(self.bytes)
    }

    // The entry in place i.
    pub fn entry(self, i: usize) -> Entry
        requires { i < entries_at self.bytes.now }
        ensures { (result.first ≡ place_at self.entry.bytes.now i) × (result.missed ≡ missed_at self.entry.bytes.now i) }
    {
        Entry {
            first: self.bytes[36 + 9 * i],
            missed: bigendian::read::<8>(self.bytes, 37 + 9 * i),
        }
    }

    // Its four masks.
    #[tactic(auto, unfolding(crate::specs::Records::faults_at))]
    pub fn marks(self) -> Marks
        ensures { result ≡ marks_at self.entry.bytes.now }
    {
        Marks {
            stop: bigendian::read::<8>(self.bytes, 3),
            start: bigendian::read::<8>(self.bytes, 11),
            heartbeat_lost: bigendian::read::<8>(self.bytes, 19),
            vote_lost: bigendian::read::<8>(self.bytes, 27),
        }
    }
}
