// The two channels, and the heartbeats of a cycle run through them: what a unit hears is what it reads there.
#![tactic(auto)]

ghost use Rattle.std.specs.Prelude.{◌≡◌, true, false, cond, List, ℕ, ◌<◌, ◌≤◌, length, get_or};
ghost use Rattle.std.proofs.Math.Option.{Option};
ghost use Rattle.sets.specs.Sets.{has, single, ◌∪◌, ◌∩◌, ◌∖◌};
ghost use Rattle.frames.specs.Written.{bit, wrong_request, heartbeat_frame, run_drive};
ghost use Rattle.bus_units.specs.Units.{is_alive, is_join, is_request};
ghost use Rattle.bus_units.specs.Run.{frames_length};
ghost use Rattle.parts.specs.Parts.{with_part};
ghost use Rattle.cluster_states.specs.Decided.{view_at, voting_of};
ghost use Rattle.bus_channels.specs.Channels.{with_sent, channel_of, copy_of, heartbeat_put, heartbeat_read, heard_read, view_read, voting_read};

use cluster_states::Roles;
use frames::{Bits, Heartbeat, Slot};
use rules::{Config, Heard};

// What a unit can read in one half of the cycle with this count: both channels, a slot of 36 bytes for each node, and the nodes whose frames reach it.
#[derive(Clone, Copy)]
pub struct Channels<'a> {
    pub a: &'a [u8; 2304],
    pub b: &'a [u8; 2304],
    pub count: u32,
    pub reach: u64,
}

// One of the two channels in a cycle, as all nodes write to it.
#[derive(Clone, Copy)]
pub struct Side {
    pub cycle: u32,
    pub channel: u32,
    ghost cycle_bound: { cycle < 64 },
}

impl Side {
    // Where node q writes its frame.
    pub fn slot(self, q: usize) -> Slot
        requires { q < 64 }
        ensures { (result.node ≡ q) × (result.cycle ≡ self.cycle) × (result.channel ≡ self.channel) }
    {
        Slot {
            node: q as u32,
            cycle: self.cycle,
            channel: self.channel,
        }
    }
}

// What the heartbeats of a cycle give: the view of each node, and the members that vote.
#[derive(Clone, Copy)]
pub struct Seen {
    pub views: [u64; 64],
    pub voting: u64,
}

// A channel on which the first n nodes have sent, each by its `put`.
pub fn filled<F: Fn(&mut [u8; 2304], usize)>(n: usize, put: F) -> [u8; 2304]
    requires { (c : _) (q : ℕ) → q < n → F.pre put c q }
    ensures { (sent : ℕ → Option (List ℕ)) → ((c : _) (q : ℕ) (d : _) → q < n → F.post put c q tt d → d.now ≡ with_sent q (sent q) c.now) → result ≡ channel_of n sent }
{
    let mut all = [0; 2304];
    for q in 0..n {
        put(&mut all, q);
    }
    all
}

// The copy that a unit finds of a frame of k bytes of node p: whole, or empty where the frame does not reach it.
pub fn copy_of(channel: &[u8; 2304], k: usize, reach: u64, p: usize) -> &[u8]
    requires { (k ≤ 36) × (p < 64) }
    ensures { result.now ≡ copy_of k reach p channel.now }
{
    let len = if sets::contains(reach, p) { k } else { 0 };
    &channel[36 * p..36 * p + len]
}

// A heartbeat of a run: sync and startup 0, and no drive bytes.
fn run_heartbeat(slot: Slot, join: bool, request: bool) -> [u8; 10]
    ensures { result ≡ heartbeat_frame slot.node (bit join) (bit request) 0 0 slot.cycle slot.channel run_drive }
{
    let bits = Bits {
        join,
        request,
        sync: false,
        startup: false,
    };
    let none = [0u8; 0];
    let mut frame = [0; 10];
    frame_writing::write_heartbeat(slot, bits, &none, &mut frame);
    frame
}

// Rule 2: the heartbeat of a node, if it sends one.
fn put_heartbeat(all: &mut [u8; 2304], w: Roles, slot: Slot)
    ensures { all.new ≡ with_sent slot.node (heartbeat_put w slot.cycle slot.channel slot.node) all.old }
{
    let q = slot.node as usize;
    if sets::contains(w.members, q) {
        let request = sets::contains(w.asking, q);
        parts::put(all, 36 * q, &run_heartbeat(slot, false, request));
    } else if sets::contains(w.joining, q) {
        parts::put(all, 36 * q, &run_heartbeat(slot, true, false));
    }
}

fn heartbeats(n: usize, w: Roles, side: Side) -> [u8; 2304]
    requires { n ≤ 64 }
    ensures { result ≡ channel_of n (heartbeat_put w side.cycle side.channel) }
{
    filled(n, |all, q| put_heartbeat(all, w, side.slot(q)))
}

// What a unit receives of the heartbeat of node p.
fn read_heartbeat(quiet: bool, bus: Channels, p: usize) -> Option<Heartbeat>
    requires { p < 64 }
    ensures { result ≡ heartbeat_read quiet bus.entry.count bus.entry.reach bus.entry.a.now bus.entry.b.now p }
{
    let counted = frame_reading::receive_heartbeat(
        quiet,
        p as u32,
        bus.count,
        copy_of(bus.a, 10, bus.reach, p),
        copy_of(bus.b, 10, bus.reach, p),
    );
    counted.map(|counted| counted.heartbeat)
}

// What a unit has heard, and now of node p too.
fn heard_with(heard: Heard, p: usize, came: Option<Heartbeat>) -> Heard
    requires { p < 64 }
    ensures members_value { result.members ≡ cond (is_alive came) (single p ∪ heard.members) heard.members }
    ensures joining_value { result.joining ≡ cond (is_join came) (single p ∪ heard.joining) heard.joining }
    ensures requests_value { result.requests ≡ cond (is_request came) (single p ∪ heard.requests) heard.requests }
{
    let node = sets::single(p);
    let mut heard = heard;
    match came {
        None => {}
        Some(Heartbeat::Alive) => heard.members = sets::union(node, heard.members),
        Some(Heartbeat::Join) => heard.joining = sets::union(node, heard.joining),
        Some(Heartbeat::Request) => {
            heard.members = sets::union(node, heard.members);
            heard.requests = sets::union(node, heard.requests);
        }
    }
    heard
}

// What a unit hears of all nodes. `config.nodes ≤ 64` is a clause, here and below, and no fact of `Config`: the theorems speak of every `Config` (`demand3`).
fn hear(config: Config, bus: Channels) -> Heard
    requires { config.nodes ≤ 64 }
    ensures members_value { result.members ≡ heard_read config bus.entry.count bus.entry.reach bus.entry.a.now bus.entry.b.now is_alive }
    ensures joining_value { result.joining ≡ heard_read config bus.entry.count bus.entry.reach bus.entry.a.now bus.entry.b.now is_join }
    ensures requests_value { result.requests ≡ heard_read config bus.entry.count bus.entry.reach bus.entry.a.now bus.entry.b.now is_request }
{
    let mut heard = Heard {
        members: 0,
        joining: 0,
        requests: 0,
    };
    for p in 0..config.nodes {
        heard = heard_with(heard, p, read_heartbeat(config.quiet, bus, p));
    }
    heard
}

// Rule 3 of all nodes, and who votes. Views of nodes that are no members are made too, and not used.
fn views_of(config: Config, bus: Channels, w: Roles, missed: &[u64; 64], sets: &[u64; 64]) -> Seen
    requires { config.nodes ≤ 64 }
    ensures by_index { (q : ℕ) → q < config.nodes → get_or result.views q 0 ≡ view_read config bus.entry.count (bus.entry.reach ∖ get_or missed.now q 0) bus.entry.a.now bus.entry.b.now (get_or sets.now q 0) q }
    ensures voting_value { result.voting ≡ voting_read config bus.entry.count w bus.entry.reach missed.now sets.now bus.entry.a.now bus.entry.b.now }
{
    let mut views = [0; 64];
    let mut voting = 0;
    for q in 0..config.nodes {
        let came = Channels {
            reach: sets::difference(bus.reach, missed[q]),
            ..bus
        };
        let heard = hear(config, came);
        let view = rule_steps::view(config.nodes, q, sets[q], heard);
        let own = sets::contains(w.asking, q);
        let votes = rule_steps::will_vote(config, sets[q], view, own, heard.requests);
        views[q] = view;
        voting = sets::include(voting, q, sets::contains(w.members, q) & votes);
    }
    Seen { views, voting }
}

// `count < 64` is a clause of the three functions between a run and its `Side`s: a type for it would be made and taken apart at each of them.
// `frames` is a slice whose length is a clause: C lends it (`gm_run_frames`).
// Rules 2 and 3: all heartbeats go out on both channels, and each node reads what reaches it. Free: the views from the last node on.
pub fn heartbeat_phase(
    config: Config,
    count: u32,
    w: Roles,
    lost: u64,
    missed: &[u64; 64],
    sets: &[u64; 64],
    frames: &mut [u8],
) -> Seen
    requires nodes_bound { (config.nodes ≤ 64) × (count < 64) }
    requires frames_len { length frames.old ≡ frames_length }
    requires by_index { (p : ℕ) → has p w.members ≡ true → (p < config.nodes) × (wrong_request config.quiet 0 (cond (has p w.asking) 1 0) ≡ false) }
    requires by_index_2 { (p : ℕ) → has p w.joining ≡ true → has p w.members ≡ false }
    ensures by_index_3 { (q : ℕ) → q < config.nodes → get_or result.views q 0 ≡ view_at config.nodes sets.now (w.members ∖ lost) (w.joining ∖ lost) missed.now q }
    ensures voting_value { result.voting ≡ voting_of config sets.now result.views w ((w.members ∩ w.asking) ∖ lost) missed.now }
    ensures frames_after { frames.new ≡ with_part 2304 (channel_of config.nodes (heartbeat_put w count 1)) (with_part 0 (channel_of config.nodes (heartbeat_put w count 0)) frames.old) }
{
    let on_a = Side {
        cycle: count,
        channel: 0,
    };
    let on_b = Side {
        cycle: count,
        channel: 1,
    };
    let a = heartbeats(config.nodes, w, on_a);
    let b = heartbeats(config.nodes, w, on_b);
    parts::put(frames, 0, &a);
    parts::put(frames, 2304, &b);
    let bus = Channels {
        a: &a,
        b: &b,
        count,
        reach: sets::difference(sets::union(w.members, w.joining), lost),
    };
    views_of(config, bus, w, missed, sets)
}
