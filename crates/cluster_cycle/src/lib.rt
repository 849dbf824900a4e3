// One cycle of all nodes of a cluster, on masks and arrays.
#![tactic(auto)]

ghost use Rattle.std.specs.Prelude.{◌≡◌, false, ℕ, ◌<◌, ◌≤◌, get_or};
ghost use Rattle.sets.specs.Sets.{has, ◌∖◌};
ghost use Rattle.rules.specs.Ballots.{one_group};
ghost use Rattle.rules.specs.Faults.{cycle as the_cycle};
ghost use Rattle.cluster_tallies.specs.Grouped.{Within, Below};
ghost use Rattle.cluster_states.specs.States.{states_of, faults_of, state_at, row_of};
ghost use Rattle.cluster_states.specs.Decided.{view_at, voting_of, decided_at};
ghost use Rattle.cluster_cycle.specs.Follows.{decides, followed_by, kept, resting_roles};

// `config.nodes ≤ 64` is asked by functions and is no invariant of Config: the definitions and theorems speak of a Config of any size.
use cluster_states::{Roles, States};
use cluster_tallies::Tallied;
use rules::{Config, Faults, Groups, Heard, Marks};
use state::{Group, State};

// Rule 3 of all nodes, of the heartbeats that go out. Views of nodes that are no members are made too, and not used.
fn views_of(n: usize, sets: &[u64; 64], sent: Heard, missed: &[u64; 64], views: &mut [u64; 64])
    requires { n ≤ 64 }
    ensures { (p : ℕ) → p < n → get_or views.new p 0 ≡ view_at n sets.now sent.members sent.joining missed.now p }
{
    for p in 0..n {
        let heard = Heard {
            members: sets::difference(sent.members, missed[p]),
            joining: sets::difference(sent.joining, missed[p]),
            ..sent
        };
        views[p] = rule_steps::view(n, p, sets[p], heard);
    }
}

// The members that vote: in a quiet press those that see a change or are called by a request. Of `requests` those count that reach a member.
fn voting_of(
    config: Config,
    sets: &[u64; 64],
    views: &[u64; 64],
    w: Roles,
    requests: u64,
    missed: &[u64; 64],
) -> u64
    requires nodes_bound { config.nodes ≤ 64 }
    requires below { Below config.nodes w.members }
    ensures { result ≡ voting_of config sets.now views.now w requests missed.now }
{
    if !config.quiet {
        return w.members;
    }
    let mut m: u64 = 0;
    for p in 0..config.nodes {
        let heard = sets::difference(requests, missed[p]);
        let own = sets::contains(w.asking, p);
        let called = rule_steps::will_vote(config, sets[p], views[p], own, heard);
        m = sets::include(m, p, sets::contains(w.members, p) & called);
    }
    m
}

// What node q decides that does not vote, on the votes in the slots `present`.
fn decide_silent(votes: &Tallied, w: Roles, q: usize, present: u64) -> State
    requires silent { (q < votes.now.config.nodes) × (has q votes.now.voting ≡ false) }
    requires within { Within present votes.now.voting }
    ensures { result ≡ decides votes.now w present q }
{
    if sets::contains(w.members, q) {
        votes.silent_decides(q, present)
    } else if sets::contains(w.joining, q) {
        votes.joiner_decides(q, present)
    } else {
        w.out_at(q)
    }
}

// What node q decides on the votes in the slots `present`.
fn decide(votes: &Tallied, w: Roles, q: usize, present: u64) -> State
    requires is_node { q < votes.now.config.nodes }
    requires within { Within present votes.now.voting }
    ensures { result ≡ decides votes.now w present q }
{
    if sets::contains(votes.voting, q) {
        votes.member_decides(q, present)
    } else {
        decide_silent(votes, w, q, present)
    }
}

// A member that stays on its vote, for those that decide the same: the members that cast its vote, the set of its group, the votes that it counts, its new
// group, and whether it requests.
#[derive(Clone, Copy)]
struct Followed {
    votes: u64,
    set: u64,
    counted: u64,
    group: Group,
    request: bool,
}

// The member that q follows: the one that is kept, if q cast its vote and counts the same votes.
fn followed_by(kept: Option<Followed>, present: u64, q: usize) -> Option<Followed>
    requires { q < 64 }
    ensures { result ≡ followed_by kept present q }
{
    let k = kept?;
    if sets::contains(k.votes, q)
        && cluster_tallies::own_tally(k.votes, k.set, present, q) == k.counted
    {
        Some(k)
    } else {
        None
    }
}

// What is kept once node q has decided d on the votes in the slots `present`: the last member that stays on its vote.
fn keep(votes: &Tallied, q: usize, present: u64, d: State, k: Option<Followed>) -> Option<Followed>
    requires { q < 64 }
    ensures { result ≡ kept q votes.now.groups.now.sets votes.now.lead votes.now.same votes.now.voting present d k }
{
    let alike = votes.votes_like(q);
    let set = votes.groups.sets[q];
    if !sets::contains(votes.voting, q) {
        return k;
    }
    match d {
        State::Member(group, request) => Some(Followed {
            votes: alike,
            set,
            counted: cluster_tallies::own_tally(alike, set, present, q),
            group,
            request,
        }),
        State::Out(_) | State::Joining => k,
    }
}

// Rules 5 and 6 of all nodes, on the votes that go out: the masks, and into `after`, zeros before, the groups.
fn decisions(votes: &Tallied, w: Roles, sent: u64, missed: &[u64; 64], after: &mut Groups) -> Roles
    requires zeros { after.old ≡ one_group (record { number = 0; set = 0; base = 0 }) }
    requires within { Within sent votes.now.voting }
    ensures { (q : ℕ) → q < votes.now.config.nodes → state_at (states_of result after.new.numbers after.new.sets after.new.bases) q ≡ decides votes.now w (sent ∖ get_or missed.now q 0) q }
{
    let mut next = Roles::default();
    let mut kept = None;
    for q in 0..votes.config.nodes {
        let came = sets::difference(sent, missed[q]);
        if let Some(k) = followed_by(kept, came, q) {
            // said of a member in place, which costs less than of a state that could be any
            next = next.with_state(q, State::Member(k.group, k.request));
            after.put(q, k.group);
        } else {
            let d = decide(votes, w, q, came);
            kept = keep(votes, q, came, d, kept);
            next = next.with_state(q, d);
            after.put(q, state_encoding::group_held(d));
        }
    }
    next
}

// Where nobody votes: members keep their groups, with their sets as bases, and request nothing; nobody comes in.
fn resting(w: Roles) -> Roles
    ensures { result ≡ resting_roles w }
{
    Roles { asking: 0, ..w }
}

// Rules 5 and 6 of all nodes, in place, where the members `voting` vote and the votes `sent` go out.
fn decide_all(
    config: Config,
    groups: &mut Groups,
    views: &[u64; 64],
    w: Roles,
    voting: u64,
    sent: u64,
    missed: &[u64; 64],
) -> Roles
    requires nodes_bound { config.nodes ≤ 64 }
    requires below { Below config.nodes voting }
    requires within { Within sent voting }
    ensures { (q : ℕ) → q < config.nodes → state_at (states_of result groups.new.numbers groups.new.sets groups.new.bases) q ≡ decided_at groups.old.numbers groups.old.sets groups.old.bases views.now config w voting (sent ∖ get_or missed.now q 0) q }
{
    let votes = Tallied::new(config, groups, views, voting);
    let mut new_groups = Groups::zeros();
    let roles_after = decisions(&votes, w, sent, missed, &mut new_groups);
    *groups = new_groups;
    roles_after
}

// One cycle in place. What is missed is lent beside the marks, and not as Faults: a run clears the arrays only after a record with entries, and would fill Faults
// field by field. What node q misses is in the elements q of `unheard` and `missed`. Free: what the row after it does not show.
pub fn advance(
    config: Config,
    states: &mut States,
    m: Marks,
    unheard: &[u64; 64],
    missed: &[u64; 64],
)
    requires { config.nodes ≤ 64 }
    ensures { row_of config.nodes states.new ≡ the_cycle config (faults_of m unheard.now missed.now) (row_of config.nodes states.old) }
{
    let n = config.nodes;
    let w = states.roles.rule_one(n, m.stop, m.start);
    let sent = Heard {
        members: sets::difference(w.members, m.heartbeat_lost),
        joining: sets::difference(w.joining, m.heartbeat_lost),
        requests: sets::difference(sets::intersection(w.members, w.asking), m.heartbeat_lost),
    };
    let mut views = [0; 64];
    views_of(n, &states.groups.sets, sent, unheard, &mut views);
    let voting = voting_of(
        config,
        &states.groups.sets,
        &views,
        w,
        sent.requests,
        unheard,
    );
    if voting == 0 {
        // whoever is silent sees its set
        states.groups.bases = views;
        states.roles = resting(w);
        return;
    }
    let out = sets::difference(voting, m.vote_lost);
    states.roles = decide_all(config, &mut states.groups, &views, w, voting, out, missed);
}

// The same of states and faults by value, with as much left free.
pub fn cycle(config: Config, s: States, f: Faults) -> States
    requires { config.nodes ≤ 64 }
    ensures { row_of config.nodes result ≡ the_cycle config f (row_of config.nodes s) }
{
    let mut after = s;
    // the marks alone, here and nowhere else, so no From
    let marks = Marks {
        stop: f.stop,
        start: f.start,
        heartbeat_lost: f.heartbeat_lost,
        vote_lost: f.vote_lost,
    };
    advance(
        config,
        &mut after,
        marks,
        &f.heartbeat_missed,
        &f.vote_missed,
    );
    after
}
