// Rule 5 of one member, and what one decides that did not vote. Votes are lent as their groups and an array of views, a slot for each sender, and the mask of the slots that hold one.
#![tactic(auto)]

ghost use Rattle.std.specs.Prelude.{◌≡◌, false, cond, ◌<◌, ◌≤◌};
ghost use Rattle.sets.specs.Sets.{has, single as the_single, ◌∪◌, ◌∩◌};
ghost use Rattle.rules.specs.OneCycle.{wins, with_own, member_decides, rests, silent_decides};
ghost use Rattle.rules.specs.Ballots.{ballots_of, OneVote};

use rules::{Config, Groups, Vote};
use state::{Group, Reason, State};

// Rule 5 of a member whose own vote has no quorum: it halts, with reason 2 if the others' votes give some V one, else with reason 1.
// That the leading votes are one is asked here, below and of `any_agreed`: it is a fact of `cluster_tallies::Tallied`, and a unit, which groups no votes, hands in none.
pub fn halts(
    config: Config,
    q: usize,
    own: Vote,
    groups: &Groups,
    views: &[u64; 64],
    lead: u64,
    present: u64,
) -> State
    requires nodes_bound { (config.nodes ≤ 64) × (q < 64) }
    requires one_vote { OneVote groups.now.numbers groups.now.sets groups.now.bases views.now config.nodes present lead }
    requires own_value { wins config.nodes (with_own q own (ballots_of groups.now.numbers groups.now.sets groups.now.bases views.now present)) own ≡ false }
    ensures { result ≡ member_decides config q own (ballots_of groups.now.numbers groups.now.sets groups.now.bases views.now present) }
{
    let theirs = sets::difference(present, sets::single(q));
    if rule_tally::any_agreed(config.nodes, groups, views, lead, theirs, own.group) {
        State::Out(Reason::Outvoted)
    } else {
        State::Out(Reason::NoQuorum)
    }
}

// The group of a member that did not vote.
pub fn resting(g: Group) -> Group
    ensures { result ≡ rests g }
{
    Group {
        number: g.number,
        set: g.set,
        base: g.set,
    }
}

// What a member of the group decides that did not vote: it halts if the others' votes give some V a quorum, its own M too; else it keeps its set.
pub fn silent_decides(
    config: Config,
    q: usize,
    group: Group,
    groups: &Groups,
    views: &[u64; 64],
    lead: u64,
    present: u64,
) -> State
    requires nodes_bound { (config.nodes ≤ 64) × (q < 64) }
    requires one_vote { OneVote groups.now.numbers groups.now.sets groups.now.bases views.now config.nodes present lead }
    ensures { result ≡ silent_decides config q group (ballots_of groups.now.numbers groups.now.sets groups.now.bases views.now present) }
{
    let came = sets::difference(present, sets::single(q));
    if rule_tally::any_agreed(config.nodes, groups, views, lead, came, group) {
        return State::Out(Reason::Outvoted);
    }
    State::Member(resting(group), false)
}

// The votes that node q counts for its own V: of the others that cast it those in its set, and its own.
pub fn with_own(alike: u64, set: u64, q: usize) -> u64
    requires { q < 64 }
    ensures { result ≡ cond (has q set) (the_single q ∪ (alike ∩ set)) (alike ∩ set) }
{
    sets::include(sets::intersection(alike, set), q, sets::contains(set, q))
}

// Rule 5. The own vote counts whatever stands in the own slot, and for no view but its own.
pub fn member_decides(
    config: Config,
    q: usize,
    own: Vote,
    groups: &Groups,
    views: &[u64; 64],
    present: u64,
) -> State
    requires { (config.nodes ≤ 64) × (q < config.nodes) }
    ensures { result ≡ member_decides config q own (ballots_of groups.now.numbers groups.now.sets groups.now.bases views.now present) }
{
    let g = own.group;
    let others = sets::difference(present, sets::single(q));
    let alike = rule_steps::equal_votes(config.nodes, groups, views, others, own);
    let mine = with_own(alike, g.set, q);
    if sets::is_quorum(mine, g.base) {
        rule_steps::member_on(config, own, mine)
    } else {
        halts(config, q, own, groups, views, 0, present)
    }
}
