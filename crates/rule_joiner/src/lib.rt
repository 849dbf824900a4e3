// Rule 6 of one joining node. Votes are lent as their groups and an array of views, a slot for each sender, and the mask of the slots that hold one.
#![tactic(auto)]

ghost use Rattle.std.specs.Prelude.{◌≡◌, true, false, ◌&&◌, ℕ, ◌<◌, ◌≤◌};
ghost use Rattle.sets.specs.Sets.{has, ◌∩◌, ◌∖◌, lowest as the_lowest};
ghost use Rattle.sets.specs.Quorum.{quorum};
ghost use Rattle.rules.specs.OneCycle.{joiner_decides};
ghost use Rattle.rules.specs.Ballots.{ballots_of, fits_at};

use rules::{Config, Groups, Vote};
use state::State;

// Whether the vote v, which those in m cast, fits the joining node q.
fn fits_node(q: usize, v: Vote, m: u64) -> bool
    requires { q < 64 }
    ensures { result ≡ (has q (v.view ∖ v.group.set) && quorum (m ∩ v.group.set) v.group.base) }
{
    let g = v.group;
    sets::contains(sets::difference(v.view, g.set), q)
        && sets::is_quorum(sets::intersection(m, g.set), g.base)
}

// What remains of the slots `among` from the first whose vote fits. A vote is tallied once, for the lowest slot that holds it.
fn from_fit(n: usize, q: usize, groups: &Groups, views: &[u64; 64], present: u64, among: u64) -> u64
    requires n_bound { (n ≤ 64) × (q < 64) }
    requires by_index { (j : ℕ) → has j among ≡ true → (j < n) × (has j present ≡ true) }
    ensures within { (j : ℕ) → has j result ≡ true → has j among ≡ true }
    ensures unfit { (j : ℕ) → has j among ≡ true → has j result ≡ false → fits_at n q (ballots_of groups.now.numbers groups.now.sets groups.now.bases views.now present) j ≡ false }
    ensures fit { (result ≡ 0 → ⊥) → fits_at n q (ballots_of groups.now.numbers groups.now.sets groups.now.bases views.now present) (the_lowest 64 (λ x. has x result)) ≡ true }
{
    let mut left = among;
    while left != 0 {
        let p = sets::lowest(left) as usize;
        let v = rule_steps::vote_at(groups, views, p);
        let m = rule_steps::equal_votes(n, groups, views, present, v);
        if fits_node(q, v, m) {
            return left;
        }
        left = sets::difference(left, m);
    }
    left
}

// Rule 6. The first vote that fits stands for the others: each of them that fits must be equal to it.
pub fn joiner_decides(
    config: Config,
    q: usize,
    groups: &Groups,
    views: &[u64; 64],
    present: u64,
) -> State
    requires { (config.nodes ≤ 64) × (q < config.nodes) }
    ensures { result ≡ joiner_decides config q (ballots_of groups.now.numbers groups.now.sets groups.now.bases views.now present) }
{
    let n = config.nodes;
    let arrived = sets::below(n, present);
    let rest = from_fit(n, q, groups, views, present, arrived);
    if rest == 0 {
        return State::Joining;
    }
    let first = sets::lowest(rest) as usize;
    let v = rule_steps::vote_at(groups, views, first);
    let g = v.group;
    let m = rule_steps::equal_votes(n, groups, views, present, v);
    let others = sets::difference(rest, m);
    if from_fit(n, q, groups, views, present, others) == 0 {
        rule_steps::enters_with(config, v, sets::intersection(m, g.set))
    } else {
        State::Joining
    }
}
