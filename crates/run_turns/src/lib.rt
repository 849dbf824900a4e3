// A run's turns: the records of a table's cycles one after another, what a run keeps from record to record, and the row that it comes to.
#![tactic(auto)]

ghost use Rattle.run_turns.specs.Turns.{GivesRecord, bytes_left};

use table::CycleRecord;

// The records of a table's cycles, one after another, as long as all bytes of the next are left.
#[derive(Drop)]
pub struct Records<'a> {
    pub rest: &'a [u8],
}

impl<'a> Iterator for Records<'a> {
    type Item = CycleRecord<'a>;

    ghost next_gives = { GivesRecord };

    ghost remaining = { bytes_left };

    fn next(&mut self) -> Option<CycleRecord<'a>> {
        let record = CycleRecord::read(self.rest)?;
        self.rest = &self.rest[record.length()..];
        Some(record)
    }
}
