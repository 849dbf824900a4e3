// The vote buffer that a host lends: read into arrays, and looked at in place.
#![tactic(auto)]

ghost use Rattle.std.specs.Prelude.{◌≡◌, not, ◌&&◌, ℕ, ◌≤◌, ◌<◌, eqb, length};
ghost use Rattle.sets.specs.Sets.{has, those};
ghost use Rattle.rules.specs.OneCycle.{is};
ghost use Rattle.rules.specs.Ballots.{vote_at};
ghost use Rattle.frames.specs.Written.{formed_vote};
ghost use Rattle.entry_slots.specs.Slots.{slot_vote, vote_if, counted_vote, arrived_in, buffer_ballots};

use rules::{Groups, Vote};
use state::Group;

// The vote v, or zeros: what a host left in a slot that holds no vote is not looked at.
fn vote_if(yes: bool, v: Vote) -> Vote
    ensures { result ≡ vote_if yes v }
{
    if yes {
        v
    } else {
        Vote {
            group: Group {
                number: 0,
                set: 0,
                base: 0,
            },
            view: 0,
        }
    }
}

// The vote buffer as node q of n looks at it: 28 bytes for each node, and the mask of the slots that hold a vote.
#[derive(Clone, Copy)]
pub struct VoteBuffer<'a> {
    pub n: usize,
    pub q: usize,
    pub votes: &'a [u8],
    pub arrived: u64,
    ghost few: { n ≤ 64 },
    ghost whole: { length votes.now ≡ 1792 },
}

impl VoteBuffer<'_> {
    // The vote in slot p.
    fn vote(&self, p: usize) -> Vote
        requires { p < 64 }
        ensures { result ≡ slot_vote self.now.votes.now p }
    {
        let at = 28 * p;
        let number = bigendian::read::<4>(self.votes, at) as u32;
        let set = bigendian::read::<8>(self.votes, at + 4);
        let base = bigendian::read::<8>(self.votes, at + 12);
        let view = bigendian::read::<8>(self.votes, at + 20);
        Vote {
            group: Group { number, set, base },
            view,
        }
    }

    // Whether the vote v of node p counts as arrived.
    fn has_arrived(&self, v: Vote, p: usize) -> bool
        requires { p < 64 }
        ensures { result ≡ (not (eqb p self.now.q) && has p self.now.arrived && formed_vote self.now.n p v) }
    {
        p != self.q && sets::contains(self.arrived, p) && frame_reading::formed_vote(self.n, p, v)
    }

    // Reads the votes that count into their slots, and gives their nodes. One pass, since this is most of such a decision's work. Free: the
    // slots from n on.
    pub fn read(&self, groups: &mut Groups, views: &mut [u64; 64]) -> u64
        requires { (length groups.old.numbers ≡ 64) × (length groups.old.sets ≡ 64) × (length groups.old.bases ≡ 64) × (length views.old ≡ 64) }
        ensures value { result ≡ arrived_in self.now.n self.now.q self.now.votes.now self.now.arrived }
        ensures by_index { (p : ℕ) → p < self.now.n → vote_at groups.new.numbers groups.new.sets groups.new.bases views.new p ≡ counted_vote self.now.n self.now.q self.now.votes.now self.now.arrived p }
    {
        let mut m: u64 = 0;
        for p in 0..self.n {
            let w = self.vote(p);
            let counts = self.has_arrived(w, p);
            let v = vote_if(counts, w);
            groups.put(p, v.group);
            views[p] = v.view;
            m = sets::include(m, p, counts);
        }
        m
    }

    // Whether the vote in slot p counts as arrived, and is v.
    fn holds(&self, v: Vote, p: usize) -> bool
        requires { p < self.now.n }
        ensures { result ≡ is v (buffer_ballots self.now.n self.now.q self.now.votes.now self.now.arrived p) }
    {
        // first, since a slot that holds no vote is not looked at
        if !sets::contains(self.arrived, p) {
            return false;
        }
        let w = self.vote(p);
        v == w && self.has_arrived(w, p)
    }

    // The nodes whose vote counts and is v, straight from the buffer.
    pub fn equal_to(&self, v: Vote) -> u64
        ensures { result ≡ those self.now.n (λ p. is v (buffer_ballots self.now.n self.now.q self.now.votes.now self.now.arrived p)) }
    {
        let mut m: u64 = 0;
        for p in 0..self.n {
            m = sets::include(m, p, self.holds(v, p));
        }
        m
    }
}
