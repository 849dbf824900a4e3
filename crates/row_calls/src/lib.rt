// The calls on a row: what each answers and leaves, as definitions, and what a list of them promises.
#![tactic(auto)]

// What a call is to do: one cycle on the row as it is lent, or a table's run from the beginning, plain or through frames.
#[derive(Clone, Copy)]
pub enum Task {
    Cycle,
    Run,
    FramedRun,
}
