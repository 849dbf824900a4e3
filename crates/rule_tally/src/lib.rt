// Whether some V has a quorum of the votes with a group. Votes are lent as their groups and an array of views, a slot for each sender, and the mask of the slots that hold one.
#![tactic(auto)]

ghost use Rattle.std.specs.Prelude.{◌≡◌, ◌&&◌, cond, ◌<◌, ◌≤◌, eqb};
ghost use Rattle.sets.specs.Sets.{has, ◌∩◌, any, single as the_single, lowest as the_lowest};
ghost use Rattle.sets.specs.Quorum.{quorum};
ghost use Rattle.rules.specs.OneCycle.{rival};
ghost use Rattle.rules.specs.Ballots.{ballots_of, OneVote};

use rules::{Groups, Vote};
use state::Group;

// The lowest node of m, of those in `lead` if there are any.
fn first_of(m: u64, lead: u64) -> usize
    ensures { result ≡ the_lowest 64 (λ x. has x (cond (eqb (m ∩ lead) 0) m (m ∩ lead))) }
{
    let both = sets::intersection(m, lead);
    sets::lowest(sets::pick(both == 0, m, both)) as usize
}

// The slots that are known to hold the vote of slot p: those of `lead`, or p alone.
fn known(lead: u64, p: usize) -> u64
    requires { p < 64 }
    ensures { result ≡ cond (has p lead) lead (the_single p) }
{
    sets::pick(sets::contains(lead, p), lead, sets::single(p))
}

// Whether the votes just looked at make a quorum: only those that were counted can.
fn completes(counted: bool, m: u64, base: u64) -> bool
    ensures { result ≡ (counted && quorum m base) }
{
    counted && sets::is_quorum(m, base)
}

// Whether some V has a quorum of the votes with the group. Each V is tallied once, and a sender whose V has none is left out; senders that could make a
// quorum are left at the end only where one was found. The slots of `lead` hold one vote, which is looked at once for all of them, and first.
pub fn any_agreed(
    n: usize,
    groups: &Groups,
    views: &[u64; 64],
    lead: u64,
    present: u64,
    group: Group,
) -> bool
    requires n_bound { n ≤ 64 }
    requires one_vote { OneVote groups.now.numbers groups.now.sets groups.now.bases views.now n present lead }
    ensures { result ≡ any n (λ p. rival n (ballots_of groups.now.numbers groups.now.sets groups.now.bases views.now present) group (ballots_of groups.now.numbers groups.now.sets groups.now.bases views.now present p)) }
{
    let mut left = sets::below(n, sets::intersection(present, group.set));
    'found: while sets::is_quorum(left, group.base) {
        let k = first_of(left, lead);
        let v = Vote {
            group,
            view: views[k],
        };
        let mut m: u64 = 0;
        let mut rest = left;
        while rest != 0 {
            let p = sets::lowest(rest) as usize;
            let these = sets::intersection(known(lead, p), rest);
            let counted = rule_steps::equals_at(groups, views, present, v, p);
            m = sets::union(m, sets::pick(counted, these, 0));
            if completes(counted, m, group.base) {
                break 'found;
            }
            rest = sets::difference(rest, these);
        }
        left = sets::difference(left, sets::union(known(lead, k), m));
    }
    sets::is_quorum(left, group.base)
}
