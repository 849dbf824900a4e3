// A node's view, and its vote, from its state.
#![tactic(auto)]

ghost use Rattle.std.specs.Prelude.{◌≡◌, ◌≤◌, ◌<◌, length};
ghost use Rattle.refusal.specs.Codes.{status_of};
ghost use Rattle.entry_lent.specs.Found.{lent_state, image_status};
ghost use Rattle.entry_send_vote.specs.Voting.{own_view, view_in, view_from, votes_with, votes_byte, vote_in, send_vote_status, send_vote_left, send_vote_sent};

use entry_lent::{check_cycle, lent_node, lent_state};
use frames::Slot;
use refusal::Refusal;
use rules::{Config, Heard, Vote};
use state::{Group, Node, State};

// The vote of a member: its group, and the nodes that it heard.
pub fn own_vote(n: Node, group: Group, heard: Heard) -> Vote
    requires { (n.nodes ≤ 64) × (n.id < n.nodes) }
    ensures { result ≡ record { group = group; view = own_view n heard.members heard.joining group } }
{
    let view = rule_steps::view(n.nodes as usize, n.id as usize, group.set, heard);
    Vote { group, view }
}

fn view_of(n: Node, heard: Heard) -> u64
    requires { (n.nodes ≤ 64) × (n.id < n.nodes) }
    ensures { result ≡ view_in n n.state heard.members heard.joining }
{
    if let State::Member(group, _) = n.state {
        own_vote(n, group, heard).view
    } else {
        0
    }
}

// Rule 3: the view of a node, 0 if it is no member.
#[tactic(auto, unfolding(entry_lent::specs::Found::image_status))]
pub fn view(mode: u32, state: &[u8], heard: Heard, view: &mut u64) -> Result<(), Refusal>
    ensures value { status_of result ≡ image_status mode state.now }
    ensures view_after { view.new ≡ view_from (lent_state mode state.now) heard.members heard.joining view.old }
{
    *view = view_of(lent_state(mode, state)?, heard);
    Ok(())
}

// Whether a member votes. The own bit of the requests says nothing, and neither does one of a node that was not heard.
pub fn votes_with(quiet: bool, n: Node, own: Vote, asks: bool, heard: Heard) -> bool
    requires { (n.nodes ≤ 64) × (n.id < n.nodes) }
    ensures { result ≡ votes_with quiet n own.group asks own.view heard.members heard.requests }
{
    let config = Config {
        nodes: n.nodes as usize,
        quiet,
    };
    let requests = sets::intersection(heard.members, heard.requests);
    let others = sets::difference(requests, sets::single(n.id as usize));
    rule_steps::will_vote(config, own.group.set, own.view, asks, others)
}

// What node n sends: how many frames.
fn send_of(quiet: bool, n: Node, heard: Heard, cycle: u32, channel: u32, frame: &mut [u8]) -> u32
    requires nodes_bound { (n.nodes ≤ 64) × (n.id < n.nodes) }
    requires cycle_bound { cycle < 64 }
    requires frame_len { length frame.old ≡ 36 }
    ensures value { result ≡ votes_byte quiet n n.state heard.members heard.joining heard.requests }
    ensures frame_after { frame.new ≡ vote_in quiet n n.state heard.members heard.joining heard.requests cycle channel frame.old }
{
    if let State::Member(group, asks) = n.state {
        let vote = own_vote(n, group, heard);
        if votes_with(quiet, n, vote, asks, heard) {
            let slot = Slot {
                node: u32::from(n.id),
                cycle,
                channel,
            };
            parts::copy(&frame_writing::write_vote(slot, vote), frame);
            return 1;
        }
    }
    0
}

// Rule 4: the vote that a node sends, if it sends one.
pub fn send(
    mode: u32,
    state: &[u8],
    heard: Heard,
    cycle: u32,
    channel: u32,
    frame: &mut [u8],
    sent: &mut u32,
) -> Result<(), Refusal>
    ensures value { status_of result ≡ send_vote_status mode state.now cycle channel frame.old }
    ensures frame_after { frame.new ≡ send_vote_left mode state.now heard.members heard.joining heard.requests cycle channel frame.old }
    ensures sent_after { sent.new ≡ send_vote_sent mode state.now heard.members heard.joining heard.requests cycle channel frame.old sent.old }
{
    let quiet = rule_steps::is_quiet(mode);
    let wrong = rule_steps::check_mode(mode).is_err() | check_cycle(cycle, channel).is_err();
    let n = lent_node(quiet, wrong, state, frame.len(), 36)?;
    *sent = send_of(quiet, n, heard, cycle, channel, frame);
    Ok(())
}
