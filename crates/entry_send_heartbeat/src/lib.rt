// A node's heartbeat, from its state.
#![tactic(auto)]

ghost use Rattle.std.specs.Prelude.{◌≡◌, false, cond, IfOk, ◌+◌, ◌<◌, length};
ghost use Rattle.refusal.specs.Codes.{status_of};
ghost use Rattle.rules.specs.OneCycle.{quiet_in};
ghost use Rattle.frames.specs.Written.{bit, wrong_drive};
ghost use Rattle.entry_send_heartbeat.specs.Beating.{wrong_sending, send_heartbeat_status, sends_byte, heartbeat_of, send_heartbeat_left, send_heartbeat_sent};

use entry_lent::{check_cycle, check_indicators, lent_node};
use frames::{Bits, Slot};
use refusal::Refusal;
use state::{Node, State};

// Refusal 2, of what a node sends with; where there is none, whether the mode is that of a quiet press.
fn check_sending(
    mode: u32,
    sync: u32,
    startup: u32,
    cycle: u32,
    channel: u32,
) -> Result<bool, Refusal>
    ensures value { status_of result ≡ cond (wrong_sending mode sync startup cycle channel) 2 0 }
    ensures quiet { IfOk result (λ quiet. quiet ≡ quiet_in mode) }
{
    let quiet = rule_steps::check_mode(mode)?;
    check_indicators(sync, startup)?;
    check_cycle(cycle, channel)?;
    Ok(quiet)
}

// What node n sends: how many frames.
fn send_of(
    n: Node,
    sync: bool,
    startup: bool,
    cycle: u32,
    channel: u32,
    drive: &[u8],
    frame: &mut [u8],
) -> u32
    requires id_bound { n.id < 64 }
    requires cycle_bound { cycle < 64 }
    requires drive_value { wrong_drive drive.now ≡ false }
    requires frame_len { length frame.old ≡ 10 + length drive.now }
    ensures value { result ≡ sends_byte n.state }
    ensures frame_after { frame.new ≡ heartbeat_of n (bit sync) (bit startup) cycle channel drive.now frame.old }
{
    if matches!(n.state, State::Out(_)) {
        return 0;
    }
    let slot = Slot {
        node: u32::from(n.id),
        cycle,
        channel,
    };
    let bits = Bits {
        join: rule_steps::sends_join(n.state),
        request: rule_steps::asks(n.state),
        sync,
        startup,
    };
    frame_writing::write_heartbeat(slot, bits, drive, frame);
    1
}

// Rule 2: the heartbeat that a node sends, if it sends one, with these drive bytes.
pub fn send(
    mode: u32,
    state: &[u8],
    sync: u32,
    startup: u32,
    cycle: u32,
    channel: u32,
    drive: &[u8],
    frame: &mut [u8],
    sent: &mut u32,
) -> Result<(), Refusal>
    ensures value { status_of result ≡ send_heartbeat_status mode state.now sync startup cycle channel drive.now frame.old }
    ensures frame_after { frame.new ≡ send_heartbeat_left mode state.now sync startup cycle channel drive.now frame.old }
    ensures sent_after { sent.new ≡ send_heartbeat_sent mode state.now sync startup cycle channel drive.now frame.old sent.old }
{
    let quiet = check_sending(mode, sync, startup, cycle, channel)?;
    if frame_writing::wrong_drive(drive) {
        return Err(Refusal::Length);
    }
    let n = lent_node(quiet, false, state, frame.len(), 10 + drive.len())?;
    *sent = send_of(n, sync == 1, startup == 1, cycle, channel, drive, frame);
    Ok(())
}
