// Votes grouped by their value once a cycle, so that each node's tally is an intersection and a count; and what members and joining nodes decide by them.
#![tactic(auto)]

ghost use Rattle.std.specs.Prelude.{◌≡◌, true, ℕ, ◌<◌, ◌≤◌, length, get_or};
ghost use Rattle.sets.specs.Sets.{has, ◌∩◌, those};
ghost use Rattle.cluster_tallies.specs.Grouped.{Alike, Grouped, spread_at, Within, Below, own_tally};

use rules::{Config, Groups};
use state::State;

// The votes of a cycle: those of the members `voting`, who hold `groups` and have `views`, grouped by their value. `lead` is the largest group of members with
// equal votes; `same` has for each other member that votes those with an equal vote. That what arrived at a node is within `voting` is asked at each call and no
// type: it is another mask for each node.
#[derive(Drop)]
pub struct Tallied<'a> {
    pub config: Config,
    pub groups: &'a Groups,
    pub views: &'a [u64; 64],
    pub voting: u64,
    pub lead: u64,
    pub same: [u64; 64],
    ghost bounded: { config.nodes ≤ 64 },
    ghost grouped: { Grouped groups.now.numbers groups.now.sets groups.now.bases views.now config.nodes voting lead same },
}

// Stores m for each of its nodes.
fn spread(n: usize, m: u64, same: &mut [u64; 64])
    requires { n ≤ 64 }
    ensures { (j : ℕ) → j < n → get_or same.new j 0 ≡ spread_at m same.old j }
{
    for j in 0..n {
        same[j] = sets::pick(sets::contains(m, j), m, same[j]);
    }
}

// Of the members that vote, those with the vote of the lowest of them: in most cycles all.
fn leading(n: usize, groups: &Groups, views: &[u64; 64], voting: u64) -> u64
    requires n_bound { n ≤ 64 }
    requires below { Below n voting }
    ensures { Alike groups.now.numbers groups.now.sets groups.now.bases views.now n voting result }
{
    if voting == 0 {
        return 0;
    }
    let v = rule_steps::vote_at(groups, views, sets::lowest(voting) as usize);
    rule_steps::equal_votes(n, groups, views, voting, v)
}

// For each member that votes the members with an equal vote: the result for its own nodes, `same` for the others. A vote is looked for once, for the lowest member
// that cast it. The largest group leads: a member that halts looks at it first. Free: which vote leads, and in `same` the
// places of its nodes and of nodes that do not vote.
fn groups_of(n: usize, groups: &Groups, views: &[u64; 64], voting: u64, same: &mut [u64; 64]) -> u64
    requires n_bound { n ≤ 64 }
    requires below { Below n voting }
    ensures { Grouped groups.now.numbers groups.now.sets groups.now.bases views.now n voting result same.new }
{
    let mut lead = leading(n, groups, views, voting);
    let mut left = sets::difference(voting, lead);
    while left != 0 {
        let p = sets::lowest(left) as usize;
        let v = rule_steps::vote_at(groups, views, p);
        let m = rule_steps::equal_votes(n, groups, views, voting, v);
        let more = sets::size(lead) < sets::size(m);
        spread(n, sets::pick(more, lead, m), same);
        lead = sets::pick(more, m, lead);
        left = sets::difference(left, m);
    }
    lead
}

// Of those with equal votes, the ones that arrived from nodes of the set.
fn tally(votes: u64, present: u64, set: u64) -> u64
    ensures { result ≡ votes ∩ present ∩ set }
{
    sets::intersection(sets::intersection(votes, present), set)
}

// Of those with the vote of q, the ones that q counts: its own counts whatever arrived of it.
pub fn own_tally(votes: u64, set: u64, present: u64, q: usize) -> u64
    requires { q < 64 }
    ensures { result ≡ own_tally votes set present q }
{
    tally(votes, sets::union(present, sets::single(q)), set)
}

impl<'a> Tallied<'a> {
    ghost use Rattle.rules.specs.OneCycle.{member_decides, silent_decides, joiner_decides};
    ghost use Rattle.rules.specs.Ballots.{group_at, fits_at};
    ghost use Rattle.cluster_tallies.specs.Tallied.{AreOf, vote_of, arrived};

    // Free: which vote leads, and in `same` the places of its nodes and of nodes that do not vote.
    pub fn new(config: Config, groups: &'a Groups, views: &'a [u64; 64], voting: u64) -> Self
        requires nodes_bound { config.nodes ≤ 64 }
        requires below { Below config.nodes voting }
        ensures { AreOf config groups.now views.now voting result }
    {
        let mut same = [0; 64];
        let lead = groups_of(config.nodes, groups, views, voting, &mut same);
        Self {
            config,
            groups,
            views,
            voting,
            lead,
            same,
        }
    }

    // The members with the vote of member p.
    pub fn votes_like(&self, p: usize) -> u64
        requires { p < 64 }
        ensures { result ≡ spread_at self.now.lead self.now.same p }
    {
        sets::pick(sets::contains(self.lead, p), self.lead, self.same[p])
    }

    // Rule 5. The own vote counts for no view but its own.
    pub fn member_decides(&self, q: usize, present: u64) -> State
        requires votes { (q < self.now.config.nodes) × (has q self.now.voting ≡ true) }
        requires within { Within present self.now.voting }
        ensures { result ≡ member_decides self.now.config q (vote_of self.now q) (arrived self.now present) }
    {
        let own = rule_steps::vote_at(self.groups, self.views, q);
        let g = own.group;
        let mine = own_tally(self.votes_like(q), g.set, present, q);
        if sets::is_quorum(mine, g.base) {
            rule_steps::member_on(self.config, own, mine)
        } else {
            rule_member::halts(
                self.config,
                q,
                own,
                self.groups,
                self.views,
                self.lead,
                present,
            )
        }
    }

    // What member q decides that did not vote.
    pub fn silent_decides(&self, q: usize, present: u64) -> State
        requires is_node { q < self.now.config.nodes }
        requires within { Within present self.now.voting }
        ensures { result ≡ silent_decides self.now.config q (vote_of self.now q).group (arrived self.now present) }
    {
        let group = self.groups.at(q);
        rule_member::silent_decides(
            self.config,
            q,
            group,
            self.groups,
            self.views,
            self.lead,
            present,
        )
    }

    // Whether the vote in slot p fits the joining node q.
    fn fits_at(&self, q: usize, present: u64, p: usize) -> bool
        requires are_nodes { (q < 64) × (p < self.now.config.nodes) }
        requires within { Within present self.now.voting }
        ensures { result ≡ fits_at self.now.config.nodes q (arrived self.now present) p }
    {
        let v = rule_steps::vote_at(self.groups, self.views, p);
        let g = v.group;
        let votes = self.votes_like(p);
        sets::contains(present, p)
            && (sets::contains(sets::difference(v.view, g.set), q)
                && sets::is_quorum(tally(votes, present, g.set), g.base))
    }

    // The slots whose votes fit the joining node q. One slot answers for all with its vote.
    fn fitting(&self, q: usize, present: u64) -> u64
        requires is_node { q < 64 }
        requires within { Within present self.now.voting }
        ensures { result ≡ those self.now.config.nodes (fits_at self.now.config.nodes q (arrived self.now present)) }
    {
        let mut m: u64 = 0;
        let mut left = sets::below(self.config.nodes, present);
        while left != 0 {
            let p = sets::lowest(left) as usize;
            let votes = self.votes_like(p);
            let yes = self.fits_at(q, present, p);
            m = sets::union(m, sets::pick(yes, sets::intersection(left, votes), 0));
            left = sets::difference(left, votes);
        }
        m
    }

    // Rule 6. One vote value fits where all votes that fit are equal to the first of them.
    pub fn joiner_decides(&self, q: usize, present: u64) -> State
        requires is_node { q < self.now.config.nodes }
        requires within { Within present self.now.voting }
        ensures { result ≡ joiner_decides self.now.config q (arrived self.now present) }
    {
        let fit = self.fitting(q, present);
        if fit == 0 {
            return State::Joining;
        }
        let first = sets::lowest(fit) as usize;
        let v = rule_steps::vote_at(self.groups, self.views, first);
        let g = v.group;
        let votes = self.votes_like(first);
        if sets::subset(fit, votes) {
            rule_steps::enters_with(self.config, v, tally(votes, present, g.set))
        } else {
            State::Joining
        }
    }
}
