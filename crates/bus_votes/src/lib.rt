// The votes of a cycle on the two channels: written for all nodes, and read by one.
#![tactic(auto)]

ghost use Rattle.std.specs.Prelude.{◌≡◌, ◌<◌, ◌≤◌};
ghost use Rattle.rules.specs.Ballots.{ballots_of};
ghost use Rattle.bus_channels.specs.Channels.{with_sent, channel_of, vote_put, vote_read, ballots_read};

use bus_channels::{Channels, Side};
use frames::Slot;
use rules::{Groups, Vote};

// The votes that a unit received, a slot for each sender, and the mask of the slots that hold one.
#[derive(Clone, Copy)]
pub struct Arrived {
    pub present: u64,
    pub groups: Groups,
    pub views: [u64; 64],
}

// Rule 4: the vote of a node, if it casts one.
fn put_vote(all: &mut [u8; 2304], groups: &Groups, views: &[u64; 64], voting: u64, slot: Slot)
    ensures { all.new ≡ with_sent slot.node (vote_put groups.now.numbers groups.now.sets groups.now.bases views.now voting slot.cycle slot.channel slot.node) all.old }
{
    let q = slot.node as usize;
    if sets::contains(voting, q) {
        let vote = rule_steps::vote_at(groups, views, q);
        parts::put(all, 36 * q, &frame_writing::write_vote(slot, vote));
    }
}

pub fn votes(n: usize, groups: &Groups, views: &[u64; 64], voting: u64, side: Side) -> [u8; 2304]
    requires { n ≤ 64 }
    ensures { result ≡ channel_of n (vote_put groups.now.numbers groups.now.sets groups.now.bases views.now voting side.cycle side.channel) }
{
    bus_channels::filled(n, |all, q| {
        put_vote(all, groups, views, voting, side.slot(q));
    })
}

// What a unit receives of the vote of node p.
fn read_vote(n: usize, bus: Channels, p: usize) -> Option<Vote>
    requires { (n ≤ 64) × (p < n) }
    ensures { result ≡ vote_read n bus.entry.count bus.entry.reach bus.entry.a.now bus.entry.b.now p }
{
    let on_a = bus_channels::copy_of(bus.a, 36, bus.reach, p);
    let on_b = bus_channels::copy_of(bus.b, 36, bus.reach, p);
    frame_reading::receive_vote(
        frame_reading::read_vote(n, p as u32, bus.count, 0, on_a),
        frame_reading::read_vote(n, p as u32, bus.count, 1, on_b),
    )
}

// What arrives at a unit of the votes of all nodes. Free: what stands in the slots of votes that did not arrive.
pub fn arrive(n: usize, bus: Channels) -> Arrived
    requires { n ≤ 64 }
    ensures { ballots_of result.groups.numbers result.groups.sets result.groups.bases result.views result.present ≡ ballots_read n bus.entry.count bus.entry.reach bus.entry.a.now bus.entry.b.now }
{
    let mut arrived = Arrived {
        present: 0,
        groups: Groups::zeros(),
        views: [0; 64],
    };
    for p in 0..n {
        if let Some(vote) = read_vote(n, bus, p) {
            arrived.present = sets::union(sets::single(p), arrived.present);
            arrived.groups.put(p, vote.group);
            arrived.views[p] = vote.view;
        }
    }
    arrived
}
