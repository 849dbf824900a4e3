// The node of an image, if the image is one.
#![tactic(auto)]

ghost use Rattle.std.specs.Prelude.{◌≡◌, ◌&&◌, ◌≤◌, ◌<◌, eqb, ltb, length};
ghost use Rattle.state.specs.State.{formed_place, formed_sets};
ghost use Rattle.state.specs.Image.{is_zero, group_at, member_reason, reason_of, state_of, node_at, node_if, decoded};

use refusal::Refusal;
use state::{Group, Node, Reason, State};

// Whether N is one that a cluster can have, and the node below it.
pub fn place_formed(id: u8, n: u8) -> bool
    ensures { result ≡ formed_place id n }
{
    n >= 2 && n <= 64 && id < n
}

// Whether a member may have these sets.
pub fn sets_formed(id: u8, n: u8, m: u64, b: u64) -> bool
    requires { (id < 64) × (n ≤ 64) }
    ensures { result ≡ formed_sets id n m b }
{
    sets::contains(m, id as usize) && sets::subset(m, b) && sets::below(n as usize, b) == b
}

fn is_zero(g: Group) -> bool
    ensures { result ≡ is_zero g }
{
    g == Group::default()
}

fn group_at(s: &[u8]) -> Group
    requires { length s.now ≡ 24 }
    ensures { result ≡ group_at s.now }
{
    Group {
        number: bigendian::read::<4>(s, 4) as u32,
        set: bigendian::read::<8>(s, 8),
        base: bigendian::read::<8>(s, 16),
    }
}

fn node_if(test: bool, state: State, id: u8, n: u8) -> Result<Node, Refusal>
    ensures { result ≡ node_if test state id n }
{
    if test {
        Ok(Node {
            state: state,
            id: id,
            nodes: n,
        })
    } else {
        Err(Refusal::Image)
    }
}

// Kind 0: a known reason, and no group. The fields are handed on one by one, here and below: a struct of them would be a second Node.
fn out_node(reason: u8, id: u8, n: u8, g: Group) -> Result<Node, Refusal>
    ensures { result ≡ node_if (ltb reason 3 && is_zero g) (State.Out (reason_of reason)) id n }
{
    let known = Reason::try_from(reason)?;
    node_if(is_zero(g), State::Out(known), id, n)
}

// Kind 1: no reason, and no group.
fn joining_node(reason: u8, id: u8, n: u8, g: Group) -> Result<Node, Refusal>
    ensures { result ≡ node_if (eqb reason 0 && is_zero g) State.Joining id n }
{
    match reason {
        0 => node_if(is_zero(g), State::Joining, id, n),
        _ => Err(Refusal::Image),
    }
}

// Kind 2: a reason, in a quiet press alone, for a member that requests, and sets that a member may have.
fn member_node(quiet: bool, reason: u8, id: u8, n: u8, g: Group) -> Result<Node, Refusal>
    requires { (id < 64) × (n ≤ 64) }
    ensures { result ≡ node_if (member_reason quiet reason && formed_sets id n g.set g.base) (State.Member g (eqb reason 1)) id n }
{
    let formed = sets_formed(id, n, g.set, g.base);
    match reason {
        0 => node_if(formed, State::Member(g, false), id, n),
        1 => if quiet {
            node_if(formed, State::Member(g, true), id, n)
        } else {
            Err(Refusal::Image)
        },
        _ => Err(Refusal::Image),
    }
}

// The node of an image, in a quiet press or in one that votes in every cycle.
pub fn decode(quiet: bool, s: &[u8]) -> Result<Node, Refusal>
    ensures { result ≡ decoded quiet s.now }
{
    if s.len() != 24 {
        return Err(Refusal::Length);
    }
    let id = s[2];
    let n = s[3];
    if !place_formed(id, n) {
        return Err(Refusal::Image);
    }
    let reason = s[1];
    let g = group_at(s);
    // kinds by number: their enum is State, which is what is read here, and the numbers are its bytes
    match s[0] {
        0 => out_node(reason, id, n, g),
        1 => joining_node(reason, id, n, g),
        2 => member_node(quiet, reason, id, n, g),
        _ => Err(Refusal::Image),
    }
}

fn state_of(kind: u8, reason: u8, g: Group) -> State
    ensures { result ≡ state_of kind reason g }
{
    match kind {
        0 => State::Out(Reason::try_from(reason).unwrap_or(Reason::Outvoted)),
        1 => State::Joining,
        _ => State::Member(g, reason == 1),
    }
}

// The node of an image that is known to be one, by its bytes: the one that `decode` found goes through memory, and whoever reads its parts waits for that.
pub fn node_at(s: &[u8]) -> Node
    requires { length s.now ≡ 24 }
    ensures { result ≡ node_at s.now }
{
    let kind = s[0];
    let reason = s[1];
    let g = group_at(s);
    let state = state_of(kind, reason, g);
    Node {
        state,
        id: s[2],
        nodes: s[3],
    }
}
