// Rules 1 to 4 of one node, whether it votes, and the group that a vote gives. Votes are lent as their groups and an array of views, a slot for each sender, and the mask of the slots that hold one.
#![tactic(auto)]

ghost use Rattle.std.specs.Prelude.{◌≡◌, cond, ◌<◌, ◌≤◌};
ghost use Rattle.sets.specs.Sets.{◌∪◌, ◌∖◌};
ghost use Rattle.rules.specs.OneCycle.{wrong_mode, quiet_in, stop_and_start, sends_member, sends_join, asks as does_ask, view_of, called, will_vote, is, group_with, request_with};
ghost use Rattle.rules.specs.Ballots.{vote_at, ballots_of, equal_to};

use refusal::Refusal;
use rules::{Config, Groups, Heard, Vote};
use state::{Group, Reason, State};

// Whether it is that of a quiet press.
pub fn is_quiet(mode: u32) -> bool
    ensures { result ≡ quiet_in mode }
{
    mode == 1
}

// The mode of a press, by its number: whether it is quiet, or refusal 2.
pub fn check_mode(mode: u32) -> Result<bool, Refusal>
    ensures { result ≡ cond (wrong_mode mode) (Err Refusal.Number) (Ok (quiet_in mode)) }
{
    match mode {
        0 => Ok(false),
        1 => Ok(true),
        _ => Err(Refusal::Number),
    }
}

// Rule 1: the stop comes before the start.
pub fn stop_and_start(stop: bool, start: bool, s: State) -> State
    ensures { result ≡ stop_and_start stop start s }
{
    let after = if stop { State::Out(Reason::Stopped) } else { s };
    match after {
        State::Out(_) => if start { State::Joining } else { after },
        State::Joining | State::Member(_, _) => after,
    }
}

// Rule 2: who sends a heartbeat with join 0, and who with join 1.
pub fn sends_member(s: State) -> bool
    ensures { result ≡ sends_member s }
{
    matches!(s, State::Member(_, _))
}

pub fn sends_join(s: State) -> bool
    ensures { result ≡ sends_join s }
{
    matches!(s, State::Joining)
}

// Who sends one with a request.
pub fn asks(s: State) -> bool
    ensures { result ≡ does_ask s }
{
    matches!(s, State::Member(_, true))
}

// Rule 3: the view of node q, a member of a group with the given set.
pub fn view(n: usize, q: usize, set: u64, heard: Heard) -> u64
    requires { (n ≤ 64) × (q < 64) }
    ensures { result ≡ view_of n q set heard.members heard.joining }
{
    let members = sets::intersection(set, sets::below(n, heard.members));
    let joiners = sets::difference(sets::below(n, heard.joining), set);
    sets::union(sets::union(sets::single(q), members), joiners)
}

// Whether a member of a group with the given set votes: by its view, its own request, and the nodes that it heard with one.
pub fn will_vote(config: Config, set: u64, view: u64, own: bool, requests: u64) -> bool
    ensures { result ≡ will_vote config set view (called set own requests) }
{
    !config.quiet || (view != set || (own || sets::intersection(set, requests) != 0))
}

// The group that a vote gives with its new set.
pub fn group_with(v: Vote, set: u64) -> Group
    ensures { result ≡ group_with v set }
{
    let g = v.group;
    let number = if set == g.set {
        g.number
    } else {
        state::next_number(g.number)
    };
    Group {
        number,
        set,
        base: sets::union(set, g.set),
    }
}

// The set that a vote gives: its voters, and the nodes of its view that are to come in.
fn new_set(v: Vote, voters: u64) -> u64
    ensures { result ≡ voters ∪ (v.view ∖ v.group.set) }
{
    sets::union(voters, sets::difference(v.view, v.group.set))
}

// Whether a member that goes on with this set requests.
fn request_with(config: Config, v: Vote, set: u64) -> bool
    ensures { result ≡ request_with config v set }
{
    config.quiet && (v.view != v.group.set || set != v.group.set)
}

// A member that goes on with the group that a vote gives.
pub fn member_on(config: Config, v: Vote, voters: u64) -> State
    ensures { result ≡ State.Member (group_with v (voters ∪ (v.view ∖ v.group.set))) (request_with config v (voters ∪ (v.view ∖ v.group.set))) }
{
    let set = new_set(v, voters);
    State::Member(group_with(v, set), request_with(config, v, set))
}

// A joining node that enters with it.
pub fn enters_with(config: Config, v: Vote, voters: u64) -> State
    ensures { result ≡ State.Member (group_with v (voters ∪ (v.view ∖ v.group.set))) config.quiet }
{
    State::Member(group_with(v, new_set(v, voters)), config.quiet)
}

// The vote in slot p. Groups, views and the mask of the slots go side by side, here and in the crates above: the mask is another one for every receiver, and the groups
// are those of the states of all nodes, so that a struct of the three would be made anew for every call.
pub fn vote_at(groups: &Groups, views: &[u64; 64], p: usize) -> Vote
    requires { p < 64 }
    ensures { result ≡ vote_at groups.now.numbers groups.now.sets groups.now.bases views.now p }
{
    Vote {
        group: groups.at(p),
        view: views[p],
    }
}

// Whether the vote in slot p is equal to v.
pub fn equals_at(groups: &Groups, views: &[u64; 64], present: u64, v: Vote, p: usize) -> bool
    requires { p < 64 }
    ensures { result ≡ is v (ballots_of groups.now.numbers groups.now.sets groups.now.bases views.now present p) }
{
    sets::contains(present, p) && v == vote_at(groups, views, p)
}

// The senders whose vote is equal to v.
pub fn equal_votes(n: usize, groups: &Groups, views: &[u64; 64], present: u64, v: Vote) -> u64
    requires { n ≤ 64 }
    ensures { result ≡ equal_to groups.now.numbers groups.now.sets groups.now.bases views.now n present v }
{
    let mut m: u64 = 0;
    for p in 0..n {
        m = sets::include(m, p, v == vote_at(groups, views, p));
    }
    // the mask once, for all slots: a test of it in each turn costs more
    sets::intersection(present, m)
}
