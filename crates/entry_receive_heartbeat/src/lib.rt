// Heartbeats that come in: read from one channel, received on both. Numbers come in, and go out by a reference each, as the C interface has them.
#![tactic(auto)]

ghost use Rattle.std.specs.Prelude.{◌≡◌, Ok, Some, IfOk};
ghost use Rattle.refusal.specs.Codes.{status_of};
ghost use Rattle.rules.specs.OneCycle.{quiet_in};
ghost use Rattle.frames.specs.Read.{join_of, request_of};
ghost use Rattle.entry_receive_heartbeat.specs.Hearing.{read_status, read_heartbeat_status, read_heartbeat_join, read_heartbeat_request, read_heartbeat_drive_bytes, read_heartbeat_drive};
ghost use Rattle.entry_receive_heartbeat.specs.Hearing.{heard_code, receive_heartbeat_status, receive_heartbeat_heard, receive_heartbeat_drive_bytes, receive_heartbeat_drive};

use entry_lent::{check_count, check_length, check_slot};
use frames::{Channel, Heartbeat};
use refusal::Refusal;

// The numbers and the buffer, in the order of the refusals; whether the press is quiet.
#[tactic(auto, unfolding(crate::specs::Hearing::read_status, refusal::specs::Refusal::first))]
fn check(
    n: u32,
    mode: u32,
    node: u32,
    cycle: u32,
    channel: u32,
    drive: &[u8],
) -> Result<bool, Refusal>
    ensures value { status_of result ≡ read_status n mode node cycle channel drive.now }
    ensures quiet { IfOk result (λ quiet. quiet ≡ quiet_in mode) }
{
    check_count(n)?;
    let quiet = rule_steps::check_mode(mode)?;
    check_slot(n, node, cycle, channel)?;
    check_length(drive.len(), 252)?;
    Ok(quiet)
}

// The two bits of a heartbeat that was read.
fn join_of(h: Heartbeat) -> u32
    ensures { result ≡ join_of (Ok h) }
{
    u32::from(h == Heartbeat::Join)
}

fn request_of(h: Heartbeat) -> u32
    ensures { result ≡ request_of (Ok h) }
{
    u32::from(h == Heartbeat::Request)
}

// One copy of a node's heartbeat: its join bit, its request and its drive bytes.
pub fn read(
    n: u32,
    mode: u32,
    node: u32,
    cycle: u32,
    channel: u32,
    frame: &[u8],
    drive: &mut [u8],
    join: &mut u32,
    request: &mut u32,
    drive_bytes: &mut u32,
) -> Result<(), Refusal>
    ensures value { status_of result ≡ read_heartbeat_status n mode node cycle channel frame.now drive.old }
    ensures drive_after { drive.new ≡ read_heartbeat_drive n mode node cycle channel frame.now drive.old }
    ensures join_after { join.new ≡ read_heartbeat_join n mode node cycle channel frame.now drive.old join.old }
    ensures request_after { request.new ≡ read_heartbeat_request n mode node cycle channel frame.now drive.old request.old }
    ensures drive_bytes_after { drive_bytes.new ≡ read_heartbeat_drive_bytes n mode node cycle channel frame.now drive.old drive_bytes.old }
{
    let quiet = check(n, mode, node, cycle, channel, drive)?;
    let beat = frame_reading::read_heartbeat(quiet, node, cycle, channel, frame)?;
    *join = join_of(beat);
    *request = request_of(beat);
    *drive_bytes = frame_reading::put_drive(frame, drive);
    Ok(())
}

// What a C host is told of a heartbeat that is not missed.
fn heard_code(h: Heartbeat) -> u32
    ensures { result ≡ heard_code (Some h) }
{
    match h {
        Heartbeat::Alive => 1,
        Heartbeat::Join => 2,
        Heartbeat::Request => 3,
    }
}

// Both copies of a node's heartbeat: missed, a member's, a joining node's or that of a member that requests, and its drive bytes.
pub fn receive(
    n: u32,
    mode: u32,
    node: u32,
    cycle: u32,
    a: &[u8],
    b: &[u8],
    drive: &mut [u8],
    heard: &mut u32,
    drive_bytes: &mut u32,
) -> Result<(), Refusal>
    ensures value { status_of result ≡ receive_heartbeat_status n mode node cycle drive.old }
    ensures drive_after { drive.new ≡ receive_heartbeat_drive n mode node cycle a.now b.now drive.old }
    ensures heard_after { heard.new ≡ receive_heartbeat_heard n mode node cycle a.now b.now drive.old heard.old }
    ensures drive_bytes_after { drive_bytes.new ≡ receive_heartbeat_drive_bytes n mode node cycle a.now b.now drive.old drive_bytes.old }
{
    let quiet = check(n, mode, node, cycle, 0, drive)?;
    let Some(counted) = frame_reading::receive_heartbeat(quiet, node, cycle, a, b) else {
        *heard = 0;
        *drive_bytes = 0;
        return Ok(());
    };
    *heard = heard_code(counted.heartbeat);
    match counted.channel {
        Channel::A => *drive_bytes = frame_reading::put_drive(a, drive),
        Channel::B => *drive_bytes = frame_reading::put_drive(b, drive),
    }
    Ok(())
}
