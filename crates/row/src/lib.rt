// The entries of a row: whether each is in order, the states of all of them, and the node that each becomes.
#![tactic(auto)]

ghost use Rattle.std.specs.Prelude.{◌≡◌, ◌<◌, ◌≤◌, List, ℕ, true};
ghost use Rattle.state.specs.declared.Node.{Node};
ghost use Rattle.state.specs.State.{formed_state};
ghost use Rattle.cluster_states.specs.States.{state_at};
ghost use Rattle.row.specs.Row.{in_place};
ghost use Rattle.row.specs.Gathered.{with_node, no_states, nothing_of, gathered, Gives, placed_node};

use cluster_states::{Roles, States};
use rules::Groups;
use state::{Node, Reason, State};

// A node of no place: what stands where there is none.
pub const NOBODY: Node = Node {
    state: State::Out(Reason::Stopped),
    id: 0,
    nodes: 0,
};

// Whether the state is one that a node can have, in one mode or the other.
fn state_formed(id: u8, n: u8, s: State) -> bool
    requires { (id < 64) × (n ≤ 64) }
    ensures { result ≡ formed_state true id n s }
{
    match s {
        State::Out(_) | State::Joining => true,
        State::Member(g, _) => state_decoding::sets_formed(id, n, g.set, g.base),
    }
}

// Whether x is well formed, in one mode or the other, and node q of a cluster of n.
pub fn in_place(n: u8, q: usize, x: Node) -> bool
    ensures { result ≡ in_place true n q x }
{
    state_decoding::place_formed(x.id, x.nodes)
        && state_formed(x.id, x.nodes, x.state)
        && usize::from(x.id) == q
        && x.nodes == n
}

// The state of node q put in, in place: the states are lent, since an array is copied at every call that is given it.
pub fn put_state(states: &mut States, q: usize, d: State)
    requires { q < 64 }
    ensures { states.new ≡ with_node states.old q d }
{
    states.roles = states.roles.with_state(q, d);
    states.groups.put(q, state_encoding::group_held(d));
}

// Before the first entry.
fn no_states() -> States
    ensures { result ≡ no_states }
{
    States {
        roles: Roles::default(),
        groups: Groups::zeros(),
    }
}

// The states of a row of so many entries, each of which `entry` gives; None where one is not the node of its place.
// No cluster has more than 64 nodes: what stands after them is not looked at.
pub fn gather<F: Fn(usize) -> Node>(n: u8, count: usize, entry: F) -> Option<States>
    requires { (q : ℕ) → q < count → F.pre entry q }
    ensures { (row : List Node) → Gives (F.post entry) count row → result ≡ gathered n nothing_of 0 row }
{
    let mut states = no_states();
    for q in 0..count.min(64) {
        let x = entry(q);
        if !in_place(n, q, x) {
            return None;
        }
        put_state(&mut states, q, x.state);
    }
    Some(states)
}

fn state_at(states: &States, q: usize) -> State
    requires { q < 64 }
    ensures { result ≡ state_at states.now q }
{
    let roles = states.roles;
    if sets::contains(roles.members, q) {
        State::Member(states.groups.at(q), sets::contains(roles.asking, q))
    } else if sets::contains(roles.joining, q) {
        State::Joining
    } else {
        roles.out_at(q)
    }
}

// Node q of a cluster of n.
pub fn node_of(n: u8, states: &States, q: usize) -> Node
    requires { q < 64 }
    ensures { result ≡ placed_node n states.now q }
{
    Node {
        state: state_at(states, q),
        id: q as u8,
        nodes: n,
    }
}
