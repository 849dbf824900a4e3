// One cycle of all nodes run through frames: what a unit counts is what it reads on the two channels.
#![tactic(auto)]

ghost use Rattle.std.specs.Prelude.{◌≡◌, true, ℕ, ◌^◌, ◌<◌, ◌≤◌, length, get_or};
ghost use Rattle.sets.specs.Sets.{has, ◌∖◌};
ghost use Rattle.state.specs.State.{formed_state};
ghost use Rattle.rules.specs.OneCycle.{member_decides, silent_decides, joiner_decides};
ghost use Rattle.rules.specs.Ballots.{vote_at};
ghost use Rattle.rules.specs.Faults.{cycle as the_cycle};
ghost use Rattle.frames.specs.Written.{formed_vote};
ghost use Rattle.cluster_states.specs.States.{state_at, row_of};
ghost use Rattle.cluster_states.specs.Decided.{decided_at};
ghost use Rattle.parts.specs.Parts.{with_part};
ghost use Rattle.bus_units.specs.Run.{frames_shown, frames_length};
ghost use Rattle.bus_channels.specs.Channels.{channel_of, vote_put, ballots_read, decided_read};

use bus_channels::{Channels, Side};
use cluster_states::{Roles, States};
use rules::{Config, Faults, Groups, Vote};
use state::{Group, State};

// Rule 5, on the votes that the member q reads.
fn member_decides(config: Config, bus: Channels, own: Vote, q: usize) -> State
    requires { (config.nodes ≤ 64) × (q < config.nodes) }
    ensures { result ≡ member_decides config q own (ballots_read config.nodes bus.entry.count bus.entry.reach bus.entry.a.now bus.entry.b.now) }
{
    let came = bus_votes::arrive(config.nodes, bus);
    rule_member::member_decides(config, q, own, &came.groups, &came.views, came.present)
}

// What a member of the group decides that did not vote, on the votes that it reads.
fn silent_decides(config: Config, bus: Channels, group: Group, q: usize) -> State
    requires { (config.nodes ≤ 64) × (q < config.nodes) }
    ensures { result ≡ silent_decides config q group (ballots_read config.nodes bus.entry.count bus.entry.reach bus.entry.a.now bus.entry.b.now) }
{
    let came = bus_votes::arrive(config.nodes, bus);
    rule_member::silent_decides(config, q, group, &came.groups, &came.views, 0, came.present)
}

// Rule 6, on the votes that the joining node q reads.
fn joiner_decides(config: Config, bus: Channels, q: usize) -> State
    requires { (config.nodes ≤ 64) × (q < config.nodes) }
    ensures { result ≡ joiner_decides config q (ballots_read config.nodes bus.entry.count bus.entry.reach bus.entry.a.now bus.entry.b.now) }
{
    let came = bus_votes::arrive(config.nodes, bus);
    rule_joiner::joiner_decides(config, q, &came.groups, &came.views, came.present)
}

// What node q decides on what it reads. A node that is out reads nothing. `views` stand beside the groups, which are lent from the states before the cycle:
// one struct of both would be a copy in every cycle.
fn decide(
    config: Config,
    bus: Channels,
    w: Roles,
    voting: u64,
    groups: &Groups,
    views: &[u64; 64],
    q: usize,
) -> State
    requires { (config.nodes ≤ 64) × (q < config.nodes) }
    ensures { result ≡ decided_read groups.now.numbers groups.now.sets groups.now.bases views.now config bus.entry.count w voting bus.entry.reach bus.entry.a.now bus.entry.b.now q }
{
    if sets::contains(voting, q) {
        member_decides(config, bus, rule_steps::vote_at(groups, views, q), q)
    } else if sets::contains(w.members, q) {
        silent_decides(config, bus, groups.at(q), q)
    } else if sets::contains(w.joining, q) {
        joiner_decides(config, bus, q)
    } else {
        w.out_at(q)
    }
}

// What all nodes decide.
fn decisions(
    config: Config,
    bus: Channels,
    w: Roles,
    voting: u64,
    missed: &[u64; 64],
    groups: &Groups,
    views: &[u64; 64],
) -> States
    requires { config.nodes ≤ 64 }
    ensures { (q : ℕ) → q < config.nodes → state_at result q ≡ decided_read groups.now.numbers groups.now.sets groups.now.bases views.now config bus.entry.count w voting (bus.entry.reach ∖ get_or missed.now q 0) bus.entry.a.now bus.entry.b.now q }
{
    let mut next = States {
        roles: Roles::default(),
        groups: Groups::zeros(),
    };
    for q in 0..config.nodes {
        let came = Channels {
            reach: sets::difference(bus.reach, missed[q]),
            ..bus
        };
        let d = decide(config, came, w, voting, groups, views, q);
        next.roles = next.roles.with_state(q, d);
        next.groups.put(q, state_encoding::group_held(d));
    }
    next
}

// Rules 4 to 6: the votes of those that vote go out on both channels, and each node reads what reaches it.
fn vote_phase(
    config: Config,
    count: u32,
    w: Roles,
    voting: u64,
    lost: u64,
    missed: &[u64; 64],
    groups: &Groups,
    views: &[u64; 64],
    frames: &mut [u8],
) -> States
    requires nodes_bound { (config.nodes ≤ 64) × (count < 64) }
    requires frames_len { length frames.old ≡ frames_length }
    requires by_index { (p : ℕ) → has p voting ≡ true → (p < config.nodes) × (get_or groups.now.numbers p 0 < 2 ^ 32) × (formed_vote config.nodes p (vote_at groups.now.numbers groups.now.sets groups.now.bases views.now p) ≡ true) }
    ensures by_index_2 { (q : ℕ) → q < config.nodes → state_at result q ≡ decided_at groups.now.numbers groups.now.sets groups.now.bases views.now config w voting (voting ∖ lost ∖ get_or missed.now q 0) q }
    ensures frames_after { frames.new ≡ with_part 6912 (channel_of config.nodes (vote_put groups.now.numbers groups.now.sets groups.now.bases views.now voting count 1)) (with_part 4608 (channel_of config.nodes (vote_put groups.now.numbers groups.now.sets groups.now.bases views.now voting count 0)) frames.old) }
{
    let on_a = Side {
        cycle: count,
        channel: 0,
    };
    let on_b = Side {
        cycle: count,
        channel: 1,
    };
    let a = bus_votes::votes(config.nodes, groups, views, voting, on_a);
    let b = bus_votes::votes(config.nodes, groups, views, voting, on_b);
    parts::put(frames, 4608, &a);
    parts::put(frames, 6912, &b);
    let bus = Channels {
        a: &a,
        b: &b,
        count,
        reach: sets::difference(voting, lost),
    };
    decisions(config, bus, w, voting, missed, groups, views)
}

// One cycle under the faults f; `count` is its cycle count. `frames` shows its frames afterwards. Free: what the row after it does not show.
pub fn cycle(config: Config, count: u32, s: States, f: Faults, frames: &mut [u8]) -> States
    requires nodes_bound { (config.nodes ≤ 64) × (count < 64) }
    requires frames_len { length frames.old ≡ frames_length }
    requires by_index { (q : ℕ) → q < config.nodes → formed_state config.quiet q config.nodes (state_at s q) ≡ true }
    ensures result_value { row_of config.nodes result ≡ the_cycle config f (row_of config.nodes s) }
    ensures frames_after { frames.new ≡ frames_shown config count f (row_of config.nodes s) }
{
    let w = s.roles.rule_one(config.nodes, f.stop, f.start);
    let seen = bus_channels::heartbeat_phase(
        config,
        count,
        w,
        f.heartbeat_lost,
        &f.heartbeat_missed,
        &s.groups.sets,
        frames,
    );
    vote_phase(
        config,
        count,
        w,
        seen.voting,
        f.vote_lost,
        &f.vote_missed,
        &s.groups,
        &seen.views,
        frames,
    )
}
