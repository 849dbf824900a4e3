// What is watched of a cluster: who was disturbed in a cycle, who was steady, and whether the cycle met the premise.
#![tactic(auto)]

ghost use Rattle.std.specs.Prelude.{◌≡◌, ◌<◌, ◌≤◌, IfSome};
ghost use Rattle.sets.specs.Sets.{has, ◌∪◌, those, below, lowest};
ghost use Rattle.rules.specs.Faults.{misses_other};
ghost use Rattle.cluster_watched.specs.Watched.{misses_at, steady_set, keeps_over, steady_of, held_after};

use rules::Groups;
use state::Group;

// The reference group, where it is defined, and the nodes that were disturbed in the last cycle.
#[derive(Clone, Copy)]
pub struct Watch {
    pub group: Option<Group>,
    pub lately: u64,
}

// Whether node q misses a heartbeat or a vote of another node.
fn misses_other(q: usize, heartbeats: u64, votes: u64) -> bool
    requires { q < 64 }
    ensures { result ≡ misses_other q (heartbeats ∪ votes) }
{
    sets::difference(sets::union(heartbeats, votes), sets::single(q)) != 0
}

// The nodes that are marked, and those that miss a frame of another node.
pub fn disturbed_nodes(n: usize, marked: u64, heartbeats: &[u64; 64], votes: &[u64; 64]) -> u64
    requires { n ≤ 64 }
    ensures { result ≡ below n marked ∪ those n (misses_at heartbeats.now votes.now) }
{
    let mut m = 0;
    for q in 0..n {
        m = sets::include(m, q, misses_other(q, heartbeats[q], votes[q]));
    }
    sets::union(sets::below(n, marked), m)
}

// The nodes of the reference group that are disturbed neither in this cycle nor in the one before; nobody where there is no reference group.
pub fn steady_nodes(n: usize, w: Watch, disturbed: u64) -> u64
    requires { n ≤ 64 }
    ensures { result ≡ steady_set n w.group disturbed w.lately }
{
    if let Some(g) = w.group {
        let undisturbed = sets::difference(sets::difference(g.set, disturbed), w.lately);
        sets::below(n, undisturbed)
    } else {
        0
    }
}

// Whether there is a reference group, and a quorum of it is steady: then a cycle meets the premise.
pub fn keeps(w: Watch, steady: u64) -> bool
    ensures { result ≡ keeps_over w.group steady }
{
    match w.group {
        Some(g) => sets::is_quorum(steady, g.base),
        None => false,
    }
}

// The steady nodes of a cycle that meets the premise.
pub fn steady_quorum(n: usize, w: Watch, disturbed: u64) -> Option<u64>
    requires { n ≤ 64 }
    ensures { result ≡ steady_of n w.group disturbed w.lately }
{
    let steady = steady_nodes(n, w, disturbed);
    if keeps(w, steady) { Some(steady) } else { None }
}

// The reference group after a cycle: the group that the lowest steady node holds, none from the first cycle on that does not meet the premise.
pub fn held_after(steady: Option<u64>, members: u64, groups: &Groups) -> Option<Group>
    requires { IfSome steady (λ m. lowest 64 (λ q. has q m) < 64) }
    ensures { result ≡ held_after steady members groups.now }
{
    let q = sets::lowest(steady?) as usize;
    if sets::contains(members, q) {
        Some(groups.at(q))
    } else {
        None
    }
}
