// The entries for a C host: numbers and byte buffers only. Every entry answers 0 or the number of its refusal, and a refusal changes nothing.
// include/gm.h declares the entries; the contract of each gives its status and every byte that it is lent, for all inputs.
#![tactic(auto)]

ghost use Rattle.std.specs.Prelude.{◌≡◌, length};
ghost use Rattle.entry_lent.specs.Found.{lent_state, image_status};
ghost use Rattle.entry_stop_start.specs.StopStart.{stop_left, start_left};
ghost use Rattle.entry_state.specs.Apart.{kind_left, reason_left, node_left, count_left, number_left, set_left, base_left};
ghost use Rattle.entry_begin.specs.Begin.{begin_status, begin_left};
ghost use Rattle.entry_write_heartbeat.specs.Heartbeats.{write_heartbeat_status, write_heartbeat_left};
ghost use Rattle.entry_send_heartbeat.specs.Beating.{send_heartbeat_status, send_heartbeat_left, send_heartbeat_sent};
ghost use Rattle.entry_receive_heartbeat.specs.Hearing.{read_heartbeat_status, read_heartbeat_join, read_heartbeat_request, read_heartbeat_drive_bytes, read_heartbeat_drive};
ghost use Rattle.entry_receive_heartbeat.specs.Hearing.{receive_heartbeat_status, receive_heartbeat_heard, receive_heartbeat_drive_bytes, receive_heartbeat_drive};
ghost use Rattle.entry_write_vote.specs.Votes.{vote_of, write_vote_status, write_vote_left};
ghost use Rattle.entry_send_vote.specs.Voting.{view_from, send_vote_status, send_vote_left, send_vote_sent};
ghost use Rattle.entry_receive_vote.specs.Arrivals.{read_vote_status, read_vote_left, receive_vote_status, receive_vote_left, receive_vote_arrived};
ghost use Rattle.entry_decide.specs.Decide.{decide_status, decide_left};
ghost use Rattle.registers.specs.Steps.{Read, Write, Cycle, WriteCycle, step_status, step_left, step_value};
ghost use Rattle.entry_row.specs.OnImages.{lent_status, lent_left, lent_frames, images_status, images_left};

use entry_write_heartbeat::Numbers;
use row_calls::Task;
use rules::{Heard, Vote};
use state::Group;

// Puts a node at the beginning.
pub fn gm_begin(n: u32, node: u32, founding: u64, state: &mut [u8]) -> u32
    ensures value { result ≡ begin_status n node founding state.old }
    ensures state_after { state.new ≡ begin_left n node founding state.old }
{
    refusal::status(entry_begin::begin(n, node, founding, state))
}

// Rule 1, stop.
pub fn gm_stop(mode: u32, state: &mut [u8]) -> u32
    ensures value { result ≡ image_status mode state.old }
    ensures state_after { state.new ≡ stop_left mode state.old }
{
    refusal::status(entry_stop_start::stop(mode, state))
}

// Rule 1, start.
pub fn gm_start(mode: u32, state: &mut [u8]) -> u32
    ensures value { result ≡ image_status mode state.old }
    ensures state_after { state.new ≡ start_left mode state.old }
{
    refusal::status(entry_stop_start::start(mode, state))
}

// A state taken apart into its numbers.
pub fn gm_state(
    mode: u32,
    state: &[u8],
    kind: &mut u32,
    reason: &mut u32,
    node: &mut u32,
    n: &mut u32,
    number: &mut u32,
    set: &mut u64,
    base: &mut u64,
) -> u32
    ensures value { result ≡ image_status mode state.now }
    ensures kind_after { kind.new ≡ kind_left mode state.now kind.old }
    ensures reason_after { reason.new ≡ reason_left mode state.now reason.old }
    ensures node_after { node.new ≡ node_left mode state.now node.old }
    ensures n_after { n.new ≡ count_left mode state.now n.old }
    ensures number_after { number.new ≡ number_left mode state.now number.old }
    ensures set_after { set.new ≡ set_left mode state.now set.old }
    ensures base_after { base.new ≡ base_left mode state.now base.old }
{
    refusal::status(entry_state::read(mode, state, kind, reason, node, n, number, set, base))
}

// A heartbeat from numbers and drive bytes, into a buffer as long as it.
pub fn gm_write_heartbeat(
    n: u32,
    mode: u32,
    node: u32,
    join: u32,
    request: u32,
    sync: u32,
    startup: u32,
    cycle: u32,
    channel: u32,
    drive: &[u8],
    frame: &mut [u8],
) -> u32
    ensures value { result ≡ write_heartbeat_status n mode node join request sync startup cycle channel drive.now frame.old }
    ensures frame_after { frame.new ≡ write_heartbeat_left n mode node join request sync startup cycle channel drive.now frame.old }
{
    refusal::status(entry_write_heartbeat::write(
        Numbers {
            n,
            mode,
            node,
            join,
            request,
            sync,
            startup,
            cycle,
            channel,
        },
        drive,
        frame,
    ))
}

// Rule 2: the heartbeat that a node sends, if it sends one, with these drive bytes.
pub fn gm_send_heartbeat(
    mode: u32,
    state: &[u8],
    sync: u32,
    startup: u32,
    cycle: u32,
    channel: u32,
    drive: &[u8],
    frame: &mut [u8],
    sent: &mut u32,
) -> u32
    ensures value { result ≡ send_heartbeat_status mode state.now sync startup cycle channel drive.now frame.old }
    ensures frame_after { frame.new ≡ send_heartbeat_left mode state.now sync startup cycle channel drive.now frame.old }
    ensures sent_after { sent.new ≡ send_heartbeat_sent mode state.now sync startup cycle channel drive.now frame.old sent.old }
{
    refusal::status(entry_send_heartbeat::send(
        mode, state, sync, startup, cycle, channel, drive, frame, sent,
    ))
}

// One copy of a node's heartbeat: its join bit, its request and its drive bytes.
pub fn gm_read_heartbeat(
    n: u32,
    mode: u32,
    node: u32,
    cycle: u32,
    channel: u32,
    frame: &[u8],
    drive: &mut [u8],
    join: &mut u32,
    request: &mut u32,
    drive_bytes: &mut u32,
) -> u32
    ensures value { result ≡ read_heartbeat_status n mode node cycle channel frame.now drive.old }
    ensures drive_after { drive.new ≡ read_heartbeat_drive n mode node cycle channel frame.now drive.old }
    ensures join_after { join.new ≡ read_heartbeat_join n mode node cycle channel frame.now drive.old join.old }
    ensures request_after { request.new ≡ read_heartbeat_request n mode node cycle channel frame.now drive.old request.old }
    ensures drive_bytes_after { drive_bytes.new ≡ read_heartbeat_drive_bytes n mode node cycle channel frame.now drive.old drive_bytes.old }
{
    refusal::status(entry_receive_heartbeat::read(
        n,
        mode,
        node,
        cycle,
        channel,
        frame,
        drive,
        join,
        request,
        drive_bytes,
    ))
}

// Both copies of a node's heartbeat: missed, a member's, a joining node's or that of a member that requests, and its drive bytes.
pub fn gm_receive_heartbeat(
    n: u32,
    mode: u32,
    node: u32,
    cycle: u32,
    a: &[u8],
    b: &[u8],
    drive: &mut [u8],
    heard: &mut u32,
    drive_bytes: &mut u32,
) -> u32
    ensures value { result ≡ receive_heartbeat_status n mode node cycle drive.old }
    ensures drive_after { drive.new ≡ receive_heartbeat_drive n mode node cycle a.now b.now drive.old }
    ensures heard_after { heard.new ≡ receive_heartbeat_heard n mode node cycle a.now b.now drive.old heard.old }
    ensures drive_bytes_after { drive_bytes.new ≡ receive_heartbeat_drive_bytes n mode node cycle a.now b.now drive.old drive_bytes.old }
{
    refusal::status(entry_receive_heartbeat::receive(
        n,
        mode,
        node,
        cycle,
        a,
        b,
        drive,
        heard,
        drive_bytes,
    ))
}

// Rule 3: the view of a node, 0 if it is no member.
pub fn gm_view(mode: u32, state: &[u8], heard0: u64, heard1: u64, view: &mut u64) -> u32
    ensures value { result ≡ image_status mode state.now }
    ensures view_after { view.new ≡ view_from (lent_state mode state.now) heard0 heard1 view.old }
{
    refusal::status(entry_send_vote::view(
        mode,
        state,
        Heard {
            members: heard0,
            joining: heard1,
            requests: 0,
        },
        view,
    ))
}

// A vote from numbers, into 36 bytes.
pub fn gm_write_vote(
    n: u32,
    node: u32,
    number: u32,
    set: u64,
    base: u64,
    view: u64,
    cycle: u32,
    channel: u32,
    frame: &mut [u8],
) -> u32
    ensures value { result ≡ write_vote_status n node (vote_of number set base view) cycle channel frame.old }
    ensures frame_after { frame.new ≡ write_vote_left n node (vote_of number set base view) cycle channel frame.old }
{
    refusal::status(entry_write_vote::write(
        n,
        node,
        Vote {
            group: Group { number, set, base },
            view,
        },
        cycle,
        channel,
        frame,
    ))
}

// Rule 4: the vote that a node sends, if it sends one.
pub fn gm_send_vote(
    mode: u32,
    state: &[u8],
    heard0: u64,
    heard1: u64,
    requests: u64,
    cycle: u32,
    channel: u32,
    frame: &mut [u8],
    sent: &mut u32,
) -> u32
    ensures value { result ≡ send_vote_status mode state.now cycle channel frame.old }
    ensures frame_after { frame.new ≡ send_vote_left mode state.now heard0 heard1 requests cycle channel frame.old }
    ensures sent_after { sent.new ≡ send_vote_sent mode state.now heard0 heard1 requests cycle channel frame.old sent.old }
{
    refusal::status(entry_send_vote::send(
        mode,
        state,
        Heard {
            members: heard0,
            joining: heard1,
            requests,
        },
        cycle,
        channel,
        frame,
        sent,
    ))
}

// One copy of a node's vote: its 28 bytes.
pub fn gm_read_vote(
    n: u32,
    node: u32,
    cycle: u32,
    channel: u32,
    frame: &[u8],
    vote: &mut [u8],
) -> u32
    ensures value { result ≡ read_vote_status n node cycle channel frame.now vote.old }
    ensures vote_after { vote.new ≡ read_vote_left n node cycle channel frame.now vote.old }
{
    refusal::status(entry_receive_vote::read(n, node, cycle, channel, frame, vote))
}

// Both copies of a node's vote: into its slot of the vote buffer, and its bit of the mask.
pub fn gm_receive_vote(
    n: u32,
    node: u32,
    cycle: u32,
    a: &[u8],
    b: &[u8],
    votes: &mut [u8],
    arrived: &mut u64,
) -> u32
    ensures value { result ≡ receive_vote_status n node cycle votes.old }
    ensures votes_after { votes.new ≡ receive_vote_left n node cycle a.now b.now votes.old }
    ensures arrived_after { arrived.new ≡ receive_vote_arrived n node cycle a.now b.now votes.old arrived.old }
{
    refusal::status(entry_receive_vote::receive(n, node, cycle, a, b, votes, arrived))
}

// Rules 3 to 6: the next state, from what the node heard and the votes that arrived.
pub fn gm_decide(
    mode: u32,
    state: &mut [u8],
    heard0: u64,
    heard1: u64,
    requests: u64,
    votes: &[u8],
    arrived: u64,
) -> u32
    ensures value { result ≡ decide_status mode state.old votes.now }
    ensures state_after { state.new ≡ decide_left mode state.old heard0 heard1 requests votes.now arrived }
{
    refusal::status(entry_decide::decide(
        mode,
        state,
        Heard {
            members: heard0,
            joining: heard1,
            requests,
        },
        votes,
        arrived,
    ))
}

// A register of a block.
pub fn gm_register_read(mode: u32, block: &[u8], address: u32, value: &mut u32) -> u32
    ensures value { result ≡ step_status (Read mode address) block.now }
    ensures value_after { value.new ≡ step_value (Read mode address) block.now value.old }
{
    refusal::status(entry_registers::read(mode, block, address, value))
}

// A byte to a register of a block.
pub fn gm_register_write(mode: u32, block: &mut [u8], address: u32, value: u8) -> u32
    ensures value { result ≡ step_status (Write mode address value) block.old }
    ensures block_after { block.new ≡ step_left (Write mode address value) block.old }
{
    refusal::status(entry_registers::write(mode, block, address, value))
}

// Rules 3 to 6 on a block, and the flag that they raise.
pub fn gm_register_cycle(
    mode: u32,
    block: &mut [u8],
    heard0: u64,
    heard1: u64,
    requests: u64,
    votes: &[u8],
    arrived: u64,
) -> u32
    ensures value { result ≡ step_status (Cycle mode heard0 heard1 requests votes.now arrived) block.old }
    ensures block_after { block.new ≡ step_left (Cycle mode heard0 heard1 requests votes.now arrived) block.old }
{
    refusal::status(entry_registers::cycle(
        mode,
        block,
        Heard {
            members: heard0,
            joining: heard1,
            requests,
        },
        votes,
        arrived,
    ))
}

// A write and a cycle together, the write first.
pub fn gm_register_write_cycle(
    mode: u32,
    block: &mut [u8],
    address: u32,
    value: u8,
    heard0: u64,
    heard1: u64,
    requests: u64,
    votes: &[u8],
    arrived: u64,
) -> u32
    ensures value { result ≡ step_status (WriteCycle mode address value heard0 heard1 requests votes.now arrived) block.old }
    ensures block_after { block.new ≡ step_left (WriteCycle mode address value heard0 heard1 requests votes.now arrived) block.old }
{
    refusal::status(entry_registers::write_cycle(
        mode,
        block,
        address,
        value,
        Heard {
            members: heard0,
            joining: heard1,
            requests,
        },
        votes,
        arrived,
    ))
}

// One cycle on a row of n states.
pub fn gm_cycle(n: u32, mode: u32, row: &mut [u8], cycle: &[u8]) -> u32
    ensures value { result ≡ images_status Task.Cycle n mode row.old cycle.now }
    ensures row_after { row.new ≡ images_left Task.Cycle n mode row.old cycle.now }
{
    refusal::status(entry_row::call(Task::Cycle, n, mode, row, cycle))
}

// A table's run on a row; the table has N.
pub fn gm_run(mode: u32, row: &mut [u8], table: &[u8]) -> u32
    ensures value { result ≡ images_status Task.Run 0 mode row.old table.now }
    ensures row_after { row.new ≡ images_left Task.Run 0 mode row.old table.now }
{
    refusal::status(entry_row::call(Task::Run, 0, mode, row, table))
}

// The same run through frames, which hands out those of its last cycle.
pub fn gm_run_frames(mode: u32, row: &mut [u8], table: &[u8], frames: &mut [u8]) -> u32
    ensures value { result ≡ lent_status Task.FramedRun 0 mode row.old (length frames.old) table.now }
    ensures row_after { row.new ≡ lent_left Task.FramedRun 0 mode row.old (length frames.old) table.now }
    ensures frames_after { frames.new ≡ lent_frames Task.FramedRun mode row.old table.now frames.old }
{
    refusal::status(entry_row::call_with(Task::FramedRun, 0, mode, row, table, frames))
}
