// A run on the fault table alone.
#![tactic(auto)]

ghost use Rattle.std.specs.Prelude.{◌≡◌, true, ℕ, ◌≤◌, ◌<◌, length, replicate};
ghost use Rattle.state.specs.State.{formed_state};
ghost use Rattle.rules.specs.Faults.{cycle as the_cycle};
ghost use Rattle.table.specs.Records.{faults_at};
ghost use Rattle.table.specs.Table.{cycles_in};
ghost use Rattle.cluster_states.specs.States.{state_at, row_of};
ghost use Rattle.run_turns.specs.After.{row_after};

use cluster_states::States;
use rules::Config;
use run_turns::Records;
use table::CycleRecord;

// The cycle of a record on the fault table alone. The arrays for what is missed are zeros before and after it: they are cleared only where the record has entries.
fn plain_cycle(
    config: Config,
    states: &mut States,
    unheard: &mut [u64; 64],
    missed: &mut [u64; 64],
    record: CycleRecord,
)
    requires nodes_bound { config.nodes ≤ 64 }
    requires unheard_value { (unheard.old ≡ replicate 64 0) × (missed.old ≡ replicate 64 0) }
    ensures states_after { row_of config.nodes states.new ≡ the_cycle config (faults_at record.entry.bytes.now) (row_of config.nodes states.old) }
    ensures unheard_after { (unheard.new ≡ replicate 64 0) × (missed.new ≡ replicate 64 0) }
{
    table_faults::cycle_missed(record, unheard, missed);
    cluster_cycle::advance(config, states, record.marks(), unheard, missed);
    if record.entries() != 0 {
        *unheard = [0; 64];
        *missed = [0; 64];
    }
}

// A run on the fault table alone, in place: states by value would be copied at every cycle. Free: what the row after it does not show.
// Its frame is its own: a single cycle and a refusal take no stack for a run.
#[inline(never)]
pub fn run_plain(config: Config, start: States, s: &[u8]) -> States
    requires nodes_bound { (config.nodes ≤ 64) × ((cycles_in (length s.now) config.nodes 1 s.now).refusal ≡ 0) }
    requires by_index { (q : ℕ) → q < config.nodes → formed_state config.quiet q config.nodes (state_at start q) ≡ true }
    ensures { row_of config.nodes result ≡ row_after config (row_of config.nodes start) (cycles_in (length s.now) config.nodes 1 s.now).whole }
{
    let mut states = start;
    let mut unheard = [0; 64];
    let mut missed = [0; 64];
    for record in (Records { rest: s }) {
        plain_cycle(config, &mut states, &mut unheard, &mut missed, record);
    }
    states
}
