// Rules 1 to 6 of one cycle, faults and the reference group, as definitions with their laws and the worked examples; and the types that they speak of.
#![tactic(auto)]

ghost use Rattle.std.specs.Prelude.{◌≡◌, ◌<◌};

use state::Group;

// What is fixed for a cluster: how many nodes it has (N), and whether its votes rest while nothing happens. N has no bound here: the definitions and theorems speak of
// clusters of any N (`config_of`), and contracts ask for at most 64 nodes where the arrays are gone over.
#[derive(Clone, Copy, Debug, PartialEq, Eq)]
pub struct Config {
    pub nodes: usize,
    pub quiet: bool,
}

// A member's vote: the group that it holds, and the nodes that it heard.
#[derive(Clone, Copy, Debug, PartialEq, Eq)]
pub struct Vote {
    pub group: Group,
    pub view: u64,
}

// What each node holds or voted for. Three arrays, since an array of `Group`s was tried and is slower: `rule_steps::equal_votes` over 64 slots, which compares
// them field by field, took 94 ns in place of 76 ns.
#[derive(Clone, Copy)]
pub struct Groups {
    pub numbers: [u32; 64],
    pub sets: [u64; 64],
    pub bases: [u64; 64],
}

impl Groups {
    ghost use Rattle.rules.specs.Ballots.{group_at, one_group, with_group};

    // The same group for every node.
    pub fn all(group: Group) -> Self
        ensures { result ≡ one_group group }
    {
        Self {
            numbers: [group.number; 64],
            sets: [group.set; 64],
            bases: [group.base; 64],
        }
    }

    // Where no node holds a group yet.
    pub fn zeros() -> Self
        ensures { result ≡ one_group (record { number = 0; set = 0; base = 0 }) }
    {
        Self {
            numbers: [0; 64],
            sets: [0; 64],
            bases: [0; 64],
        }
    }

    pub fn at(&self, p: usize) -> Group
        requires { p < 64 }
        ensures { result ≡ group_at self.now.numbers self.now.sets self.now.bases p }
    {
        Group {
            number: self.numbers[p],
            set: self.sets[p],
            base: self.bases[p],
        }
    }

    pub fn put(&mut self, p: usize, group: Group)
        requires { p < 64 }
        ensures { self.new ≡ with_group self.old p group }
    {
        self.numbers[p] = group.number;
        self.sets[p] = group.set;
        self.bases[p] = group.base;
    }
}

// The nodes that a node heard, by what their heartbeats said: members, nodes that want to join, and those with a request.
#[derive(Clone, Copy, Debug, PartialEq, Eq)]
pub struct Heard {
    pub members: u64,
    pub joining: u64,
    pub requests: u64,
}

// The faults of one cycle: the nodes stopped and started, those whose heartbeat or vote is lost in sending, and for each receiver the senders
// whose heartbeat or vote it misses.
#[derive(Clone, Copy)]
pub struct Faults {
    pub stop: u64,
    pub start: u64,
    pub heartbeat_lost: u64,
    pub vote_lost: u64,
    pub heartbeat_missed: [u64; 64],
    pub vote_missed: [u64; 64],
}

// What befalls a cycle apart from what each node misses: the nodes that stop and start, and those whose frames are lost in sending.
#[derive(Clone, Copy)]
pub struct Marks {
    pub stop: u64,
    pub start: u64,
    pub heartbeat_lost: u64,
    pub vote_lost: u64,
}
