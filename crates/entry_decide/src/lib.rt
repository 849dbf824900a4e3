// The decision of one node. What it heard, the votes and their mask are handed on one by one, as C lends them: they come together in `VoteBuffer` only where slots are
// looked at, since that knows the node too, which is read from the state in between.
#![tactic(auto)]

ghost use Rattle.std.specs.Prelude.{◌≡◌, ◌≤◌, ◌<◌, length, get_or};
ghost use Rattle.refusal.specs.Codes.{status_of};
ghost use Rattle.state.specs.Image.{image_of, node_at};
ghost use Rattle.rules.specs.OneCycle.{member_decides};
ghost use Rattle.rules.specs.Ballots.{ballots_of};
ghost use Rattle.entry_slots.specs.Slots.{buffer_ballots};
ghost use Rattle.entry_decide.specs.Decide.{member_decision, decision, Tells, decide_status, decide_left};

use entry_lent::lent_node;
use entry_send_vote::{own_vote, votes_with};
use entry_slots::VoteBuffer;
use refusal::Refusal;
use rules::{Config, Groups, Heard, Vote};
use state::{Group, Node, State};

// What a member decides on the votes in the slots `present`: by its own vote, if it voted.
fn member_decides(
    quiet: bool,
    n: Node,
    g: Group,
    asks: bool,
    heard: Heard,
    groups: &Groups,
    views: &[u64; 64],
    present: u64,
) -> State
    requires { (n.nodes ≤ 64) × (n.id < n.nodes) }
    ensures { result ≡ member_decision quiet n g asks heard.members heard.joining heard.requests (ballots_of groups.now.numbers groups.now.sets groups.now.bases views.now present) }
{
    let nodes = n.nodes as usize;
    let config = Config { nodes, quiet };
    let q = n.id as usize;
    let own = own_vote(n, g, heard);
    if votes_with(quiet, n, own, asks, heard) {
        rule_member::member_decides(config, q, own, groups, views, present)
    } else {
        rule_member::silent_decides(config, q, g, groups, views, 0, present)
    }
}

// Rules 3, 5 and 6, from the vote buffer.
pub fn next_state(quiet: bool, n: Node, heard: Heard, votes: &[u8], arrived: u64) -> State
    requires { (n.nodes ≤ 64) × (n.id < n.nodes) × (length votes.now ≡ 1792) }
    ensures { result ≡ decision quiet n n.state heard.members heard.joining heard.requests votes.now arrived }
{
    let nodes = n.nodes as usize;
    let q = n.id as usize;
    let mut groups = Groups::zeros();
    let mut views = [0u64; 64];
    let slots = VoteBuffer {
        n: nodes,
        q,
        votes,
        arrived,
    };
    let present = slots.read(&mut groups, &mut views);
    match n.state {
        State::Out(r) => State::Out(r),
        State::Joining => {
            rule_joiner::joiner_decides(Config { nodes, quiet }, q, &groups, &views, present)
        }
        State::Member(g, asks) => {
            member_decides(quiet, n, g, asks, heard, &groups, &views, present)
        }
    }
}

// A member that voted, by the votes that are its own.
fn going_on_vote(config: Config, q: usize, own: Vote, votes: &[u8], arrived: u64) -> Option<State>
    requires { (config.nodes ≤ 64) × (q < config.nodes) × (length votes.now ≡ 1792) }
    ensures { Tells result (member_decides config q own (buffer_ballots config.nodes q votes.now arrived)) }
{
    let g = own.group;
    let slots = VoteBuffer {
        n: config.nodes,
        q,
        votes,
        arrived,
    };
    let alike = slots.equal_to(own);
    let mine = rule_member::with_own(alike, g.set, q);
    if sets::is_quorum(mine, g.base) {
        Some(rule_steps::member_on(config, own, mine))
    } else {
        None
    }
}

// A member, by whether it voted. No vote counts without its bit in `arrived`: what else is set there only costs a look at all votes.
fn going_member(
    quiet: bool,
    n: Node,
    g: Group,
    asks: bool,
    heard: Heard,
    votes: &[u8],
    arrived: u64,
) -> Option<State>
    requires { (n.nodes ≤ 64) × (n.id < n.nodes) × (length votes.now ≡ 1792) }
    ensures { Tells result (member_decision quiet n g asks heard.members heard.joining heard.requests (buffer_ballots n.nodes n.id votes.now arrived)) }
{
    let nodes = n.nodes as usize;
    let vote = own_vote(n, g, heard);
    if votes_with(quiet, n, vote, asks, heard) {
        going_on_vote(Config { nodes, quiet }, n.id as usize, vote, votes, arrived)
    } else if sets::is_quorum(sets::intersection(arrived, g.set), g.base) {
        None
    } else {
        Some(State::Member(rule_member::resting(g), false))
    }
}

// What the node whose image is s goes on with, where the buffer tells it without arrays, as in most cycles of a member: its own vote has a quorum, or it did not
// vote and too few votes came for one. Where nothing is told all votes have to be looked at. Free: of which members it tells.
pub fn goes_on(quiet: bool, s: &[u8], heard: Heard, votes: &[u8], arrived: u64) -> Option<State>
    requires s_len { (length s.now ≡ 24) × (length votes.now ≡ 1792) }
    requires s_bound { ((node_at s.now).nodes ≤ 64) × ((node_at s.now).id < (node_at s.now).nodes) }
    ensures { Tells result (decision quiet (node_at s.now) (node_at s.now).state heard.members heard.joining heard.requests votes.now arrived) }
{
    let n = state_decoding::node_at(s);
    if let State::Member(g, asks) = n.state {
        going_member(quiet, n, g, asks, heard, votes, arrived)
    } else {
        None
    }
}

// Another state of the node whose image is lent.
fn put_state(s: State, state: &mut [u8])
    requires { length state.old ≡ 24 }
    ensures { state.exit.now ≡ image_of (record { state = s; id = get_or state.entry.now 2 0; nodes = get_or state.entry.now 3 0 }) }
{
    let next = Node {
        state: s,
        id: state[2],
        nodes: state[3],
    };
    parts::copy(&state_encoding::encode(next), state);
}

// Rules 3 to 6: the next state, from what the node heard and the votes that arrived.
pub fn decide(
    mode: u32,
    state: &mut [u8],
    heard: Heard,
    votes: &[u8],
    arrived: u64,
) -> Result<(), Refusal>
    ensures value { status_of result ≡ decide_status mode state.old votes.now }
    ensures state_after { state.new ≡ decide_left mode state.old heard.members heard.joining heard.requests votes.now arrived }
{
    let quiet = rule_steps::is_quiet(mode);
    let wrong = rule_steps::check_mode(mode).is_err();
    let n = lent_node(quiet, wrong, state, votes.len(), 1792)?;
    // each way puts its own state: one place for both would be copied
    if let Some(next) = goes_on(quiet, state, heard, votes, arrived) {
        put_state(next, state);
    } else {
        put_state(next_state(quiet, n, heard, votes, arrived), state);
    }
    Ok(())
}
