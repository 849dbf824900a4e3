// A run through frames, on both channels.
#![tactic(auto)]

ghost use Rattle.std.specs.Prelude.{◌≡◌, true, ℕ, ◌≤◌, ◌<◌, length};
ghost use Rattle.state.specs.State.{formed_state};
ghost use Rattle.table.specs.Table.{cycles_in};
ghost use Rattle.cluster_states.specs.States.{state_at, row_of};
ghost use Rattle.bus_units.specs.Run.{frames_length, frames_after};
ghost use Rattle.run_turns.specs.After.{row_after};

use cluster_states::States;
use rules::Config;
use run_turns::Records;

// A run through frames; the states are copied from cycle to cycle, which costs little beside the frames. `frames` shows those of the last cycle afterwards.
// Free: what the row after it does not show.
// Its frame is its own, as that of `run_plain` is.
#[inline(never)]
pub fn run_framed(config: Config, start: States, s: &[u8], frames: &mut [u8]) -> States
    requires nodes_bound { (config.nodes ≤ 64) × ((cycles_in (length s.now) config.nodes 1 s.now).refusal ≡ 0) }
    requires frames_len { length frames.old ≡ frames_length }
    requires by_index { (q : ℕ) → q < config.nodes → formed_state config.quiet q config.nodes (state_at start q) ≡ true }
    ensures result_value { row_of config.nodes result ≡ row_after config (row_of config.nodes start) (cycles_in (length s.now) config.nodes 1 s.now).whole }
    ensures frames_after { frames.new ≡ frames_after config 1 (row_of config.nodes start) (cycles_in (length s.now) config.nodes 1 s.now).whole frames.old }
{
    let mut states = start;
    let mut count = 0;
    for record in (Records { rest: s }) {
        let faults = table_faults::cycle_faults(record);
        states = bus_cycle::cycle(config, count, states, faults, frames);
        count = (count + 1) % 64;
    }
    states
}
