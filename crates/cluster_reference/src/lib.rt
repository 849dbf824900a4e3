// The reference group: what is watched of a cluster from cycle to cycle, and what a cycle did.
#![tactic(auto)]

ghost use Rattle.std.specs.Prelude.{◌≡◌, ◌≤◌};
ghost use Rattle.rules.specs.declared.Config.{Config as TheConfig};
ghost use Rattle.rules.specs.Faults.{founding as the_founding};
ghost use Rattle.rules.specs.Reference.{beginning, keeps as the_keeps, step as the_step, halted_in, entered_in};
ghost use Rattle.cluster_states.specs.declared.States.{States as TheStates};
ghost use Rattle.cluster_states.specs.States.{faults_of, row_of};
ghost use Rattle.cluster_watched.specs.Watched.{cluster_of};

use cluster_states::States;
use cluster_watched::Watch;
use rules::{Config, Marks};
use state::Group;

// What a cycle did: what is watched after it, whether it met the premise, and who halted and entered in it.
#[derive(Clone, Copy)]
pub struct Turn {
    pub watch: Watch,
    pub kept: bool,
    pub halted: u64,
    pub entered: u64,
}

// What is watched at the beginning.
pub fn begin(founding: u64) -> Watch
    ensures { (C : TheConfig) (s : TheStates) → row_of C.nodes s ≡ the_founding C.nodes 0 founding → cluster_of C.nodes s result ≡ beginning C 0 founding }
{
    Watch {
        group: Some(Group {
            number: 0,
            set: founding,
            base: founding,
        }),
        lately: 0,
    }
}

// One cycle, watched: the states of the nodes are changed in place. What node q misses is in the elements q of `unheard` and `missed`.
// Free: what the row after it does not show.
pub fn step(
    config: Config,
    states: &mut States,
    w: Watch,
    m: Marks,
    unheard: &[u64; 64],
    missed: &[u64; 64],
) -> Turn
    requires { config.nodes ≤ 64 }
    ensures watch_after { cluster_of config.nodes states.new result.watch ≡ the_step config (cluster_of config.nodes states.old w) (faults_of m unheard.now missed.now) }
    ensures kept_value { result.kept ≡ the_keeps config (cluster_of config.nodes states.old w) (faults_of m unheard.now missed.now) }
    ensures halted_value { result.halted ≡ halted_in config (faults_of m unheard.now missed.now) (row_of config.nodes states.old) }
    ensures entered_value { result.entered ≡ entered_in config (faults_of m unheard.now missed.now) (row_of config.nodes states.old) }
{
    let marked = sets::union(sets::union(m.stop, m.heartbeat_lost), m.vote_lost);
    let disturbed = cluster_watched::disturbed_nodes(config.nodes, marked, unheard, missed);
    let steady = cluster_watched::steady_quorum(config.nodes, w, disturbed);
    let before = states.roles.rule_one(config.nodes, m.stop, m.start);
    cluster_cycle::advance(config, states, m, unheard, missed);
    let members = states.roles.members;
    Turn {
        watch: Watch {
            group: cluster_watched::held_after(steady, members, &states.groups),
            lately: disturbed,
        },
        kept: steady.is_some(),
        halted: sets::difference(before.members, members),
        entered: sets::intersection(before.joining, members),
    }
}
