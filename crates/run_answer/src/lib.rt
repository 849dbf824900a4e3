// Calls on a row, worked out on values: what each answers, and the states that it leaves.
#![tactic(auto)]

ghost use Rattle.std.specs.Prelude.{◌≡◌, true, List, ℕ, ◌≤◌, Option, Some, ltb, length, IfOk};
ghost use Rattle.refusal.specs.Codes.{status_of};
ghost use Rattle.state.specs.declared.Node.{Node};
ghost use Rattle.rules.specs.OneCycle.{quiet_in, in_mode};
ghost use Rattle.table.specs.Records.{cycle_length};
ghost use Rattle.table.specs.Table.{table_of};
ghost use Rattle.row.specs.Gathered.{ordered};
ghost use Rattle.row_calls.specs.Calls.{row_status, cycle_status, cycle_left, ran_to, framed_entries, frames_left, call_status, call_left, call_frames};
ghost use Rattle.run_answer.specs.Answered.{count_byte, GatheredFrom, Leaves, BeginsTable, ran_status};

use cluster_states::States;
use refusal::Refusal;
use row_calls::Task;
use rules::Config;
use table::{CycleRecord, Start};

// The bytes of the frames of a cycle: on two channels, heartbeats and votes, 64 slots of 36.
pub const FRAMES: usize = 9216;

// What a call leaves that is not refused: N, and the states of its row.
#[derive(Clone, Copy)]
pub struct Left {
    pub nodes: u8,
    pub states: States,
}

// A cluster before a cycle: its nodes and their mode, and their states.
#[derive(Clone, Copy)]
struct Cluster {
    config: Config,
    states: States,
}

// N as the entries of a row hold it; 0, which no entry holds, for a number that no cluster has. A cast: `u8::try_from` would still need the test of the limit.
#[tactic(auto, unfolding(crate::specs::Answered::count_byte))]
pub fn count_byte(n: u32) -> u8
    ensures { result ≡ count_byte n }
{
    if n <= 64 { n as u8 } else { 0 }
}

// Whether a buffer is longer than the record in it.
fn is_longer(s: &[u8]) -> bool
    ensures { result ≡ ltb (cycle_length s.now) (length s.now) }
{
    CycleRecord::read(s).is_some_and(|cycle| cycle.length() < s.len())
}

// Refusals 1 to 4 of a single cycle, or the cluster of its row: in a press that votes in every cycle nobody is asking.
#[tactic(auto, unfolding(row_calls::specs::Calls::row_status, refusal::specs::Refusal::first))]
fn check_row(
    n: u32,
    mode: u32,
    len: usize,
    gathered: Option<States>,
    s: &[u8],
) -> Result<Cluster, Refusal>
    ensures refused { status_of result ≡ row_status n mode len (ordered (quiet_in mode) gathered) s.now }
    ensures row { IfOk result (λ row. (row.config ≡ in_mode mode n) × (row.config.nodes ≡ n) × (n ≤ 64) × (gathered ≡ Some row.states)) }
{
    if n < 2 || n > 64 {
        return Err(Refusal::NodeCount);
    }
    let quiet = rule_steps::check_mode(mode)?;
    let nodes = n as usize;
    if len != nodes || is_longer(s) {
        return Err(Refusal::Length);
    }
    let states = gathered.ok_or(Refusal::Image)?;
    if !quiet && states.roles.asking != 0 {
        return Err(Refusal::Image);
    }
    Ok(Cluster {
        config: Config { nodes, quiet },
        states,
    })
}

// A single cycle on the row as it is lent.
fn cycle_answer(
    n: u32,
    mode: u32,
    len: usize,
    gathered: Option<States>,
    s: &[u8],
) -> Result<Left, Refusal>
    ensures answered { (nodes : List Node) → GatheredFrom n gathered len nodes → status_of result ≡ cycle_status n mode nodes s.now }
    ensures left { (nodes : List Node) → GatheredFrom n gathered len nodes → IfOk result (λ l. Leaves l.nodes l.states len (cycle_left n mode nodes s.now)) }
{
    let row = check_row(n, mode, len, gathered, s)?;
    let cycle = table_records::check_cycle(row.config.nodes, 1, s)?;
    Ok(Left {
        nodes: row.config.nodes as u8,
        states: cluster_cycle::cycle(row.config, row.states, table_faults::cycle_faults(cycle)),
    })
}

// The beginning of a run on a row of so many entries. The whole table is looked at before anything is set.
fn begin(mode: u32, entries: usize, s: &[u8]) -> Result<Cluster, Refusal>
    ensures refused { status_of result ≡ ran_status mode entries s.now }
    ensures begun { IfOk result (λ b. BeginsTable mode s.now b.config b.states) }
{
    let quiet = rule_steps::check_mode(mode)?;
    let start = table_records::check_table(Some(entries), s)?;
    let nodes = usize::from(start.nodes);
    Ok(Cluster {
        config: Config { nodes, quiet },
        states: cluster_states::begin(nodes, start.founding),
    })
}

// A table's run, from the beginning, on the fault table alone.
fn run_answer(mode: u32, len: usize, s: &[u8]) -> Result<Left, Refusal>
    ensures answered { status_of result ≡ ran_status mode len s.now }
    ensures left { IfOk result (λ l. Leaves l.nodes l.states len (ran_to mode (table_of true len s.now))) }
{
    let begun = begin(mode, len, s)?;
    Ok(Left {
        nodes: begun.config.nodes as u8,
        states: run_plain::run_plain(begun.config, begun.states, &s[Start::LENGTH..]),
    })
}

// The entries of a row that a run through frames takes: none where the buffer lent for them has another length than theirs, so that no row fits.
fn lent_entries(room: usize, len: usize) -> usize
    ensures { result ≡ framed_entries room len }
{
    if room == FRAMES { len } else { 0 }
}

// The same through frames.
fn framed_answer(mode: u32, len: usize, s: &[u8], frames: &mut [u8]) -> Result<Left, Refusal>
    ensures answered { status_of result ≡ ran_status mode (framed_entries (length frames.old) len) s.now }
    ensures left { IfOk result (λ l. Leaves l.nodes l.states len (ran_to mode (table_of true len s.now))) }
    ensures shown { frames.new ≡ frames_left mode len s.now frames.old }
{
    let begun = begin(mode, lent_entries(frames.len(), len), s)?;
    Ok(Left {
        nodes: begun.config.nodes as u8,
        states: run_framed::run_framed(begun.config, begun.states, &s[Start::LENGTH..], frames),
    })
}

// What a call answers on what was gathered of a row of so many entries. `frames` shows those of the last cycle of a run through frames afterwards.
// By the task, which C's calls and the definitions of what a call answers name (`call_status`): no caller has a step of its own to hand in.
// Free: what the row left does not show, and the status and what is left where `gathered` is of no such row.
pub fn answer(
    task: Task,
    n: u32,
    mode: u32,
    len: usize,
    gathered: Option<States>,
    s: &[u8],
    frames: &mut [u8],
) -> Result<Left, Refusal>
    ensures answered { (nodes : List Node) → GatheredFrom n gathered len nodes → status_of result ≡ call_status task n mode nodes (length frames.old) s.now }
    ensures left { (nodes : List Node) → GatheredFrom n gathered len nodes → IfOk result (λ l. Leaves l.nodes l.states len (call_left task n mode nodes (length frames.old) s.now)) }
    ensures shown { frames.new ≡ call_frames task mode len s.now frames.old }
{
    match task {
        Task::Cycle => cycle_answer(n, mode, len, gathered, s),
        Task::Run => run_answer(mode, len, s),
        Task::FramedRun => framed_answer(mode, len, s, frames),
    }
}
