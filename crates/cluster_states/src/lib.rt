// The states of all nodes of a cluster as masks and arrays: at the beginning, under rule 1, and one by one.
#![tactic(auto)]

ghost use Rattle.std.specs.Prelude.{◌≡◌, ◌<◌, ◌≤◌};
ghost use Rattle.rules.specs.Faults.{founding as the_founding};
ghost use Rattle.cluster_states.specs.States.{row_of};

use rules::Groups;
use state::{Group, Reason, State};

// Which nodes are in which state, by default none: who is a member, which members request, who is joining, who is out for want of a quorum or outvoted (the others are out, stopped).
#[derive(Clone, Copy, Default)]
pub struct Roles {
    pub members: u64,
    pub asking: u64,
    pub joining: u64,
    pub no_quorum: u64,
    pub outvoted: u64,
}

// The states of all nodes: their roles, and the group that each member holds. Masks and arrays, so that a cycle works on all nodes at once.
// Contracts speak of the row that they stand for (`row_of`). What it does not show is free, and no row after it depends on that: mask bits
// of nodes from N on and of nodes in a mask named before, requests and groups of nodes that are no members.
#[derive(Clone, Copy)]
pub struct States {
    pub roles: Roles,
    pub groups: Groups,
}

// All nodes at the beginning. Free: what their row does not show.
pub fn begin(n: usize, founding: u64) -> States
    requires { n ≤ 64 }
    ensures { row_of n result ≡ the_founding n 0 founding }
{
    States {
        roles: Roles {
            members: founding,
            ..Roles::default()
        },
        groups: Groups::all(Group {
            number: 0,
            set: founding,
            base: founding,
        }),
    }
}

impl Roles {
    ghost use Rattle.cluster_states.specs.Decided.{roles_after, out_at, with_state};

    // Rule 1 of all nodes: the stop comes before the start.
    pub fn rule_one(self, n: usize, stop: u64, start: u64) -> Self
        requires { n ≤ 64 }
        ensures { result ≡ roles_after n self stop start }
    {
        let members = sets::below(n, sets::difference(self.members, stop));
        let waiting = sets::union(start, sets::difference(self.joining, stop));
        Self {
            members,
            asking: self.asking,
            joining: sets::below(n, sets::difference(waiting, members)),
            no_quorum: sets::difference(self.no_quorum, stop),
            outvoted: sets::difference(self.outvoted, stop),
        }
    }

    // The state of a node that is neither a member nor joining.
    pub fn out_at(self, q: usize) -> State
        requires { q < 64 }
        ensures { result ≡ out_at self q }
    {
        State::Out(if sets::contains(self.no_quorum, q) {
            Reason::NoQuorum
        } else if sets::contains(self.outvoted, q) {
            Reason::Outvoted
        } else {
            Reason::Stopped
        })
    }

    // The masks with the state d of node q added.
    pub fn with_state(self, q: usize, d: State) -> Self
        requires { q < 64 }
        ensures { result ≡ with_state self q d }
    {
        Self {
            members: sets::include(self.members, q, rule_steps::sends_member(d)),
            asking: sets::include(self.asking, q, rule_steps::asks(d)),
            joining: sets::include(self.joining, q, rule_steps::sends_join(d)),
            no_quorum: sets::include(self.no_quorum, q, d == State::Out(Reason::NoQuorum)),
            outvoted: sets::include(self.outvoted, q, d == State::Out(Reason::Outvoted)),
        }
    }
}
