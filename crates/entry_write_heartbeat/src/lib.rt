// Heartbeat frames, written from numbers.
#![tactic(auto)]

ghost use Rattle.std.specs.Prelude.{◌≡◌, cond, IfOk};
ghost use Rattle.refusal.specs.Codes.{status_of};
ghost use Rattle.rules.specs.OneCycle.{quiet_in};
ghost use Rattle.entry_write_heartbeat.specs.Heartbeats.{wrong_numbers, write_heartbeat_status, write_heartbeat_left};

use entry_lent::{check_count, check_indicators, check_length, check_slot};
use frames::{Bits, Slot};
use refusal::Refusal;

// What a host says of a heartbeat, whatever the numbers are.
#[derive(Clone, Copy)]
pub struct Numbers {
    pub n: u32,
    pub mode: u32,
    pub node: u32,
    pub join: u32,
    pub request: u32,
    pub sync: u32,
    pub startup: u32,
    pub cycle: u32,
    pub channel: u32,
}

// Refusal 2, of these numbers; of others, whether the mode is that of a quiet press.
fn check_numbers(h: Numbers) -> Result<bool, Refusal>
    ensures value { status_of result ≡ cond (wrong_numbers h.n h.mode h.node h.join h.request h.sync h.startup h.cycle h.channel) 2 0 }
    ensures quiet { IfOk result (λ quiet. quiet ≡ quiet_in h.mode) }
{
    let quiet = rule_steps::check_mode(h.mode)?;
    if 1 < h.join || 1 < h.request {
        return Err(Refusal::Number);
    }
    check_indicators(h.sync, h.startup)?;
    check_slot(h.n, h.node, h.cycle, h.channel)?;
    Ok(quiet)
}

// The numbers, the buffers, and a request, which is a member's in a quiet press.
#[tactic(auto, unfolding(refusal::specs::Refusal::first, crate::specs::Heartbeats::write_heartbeat_status, frames::specs::Written::wrong_request))]
fn check(h: Numbers, drive: &[u8], frame: &[u8]) -> Result<(), Refusal>
    ensures { status_of result ≡ write_heartbeat_status h.n h.mode h.node h.join h.request h.sync h.startup h.cycle h.channel drive.now frame.now }
{
    check_count(h.n)?;
    let quiet = check_numbers(h)?;
    if frame_writing::wrong_drive(drive) {
        return Err(Refusal::Length);
    }
    check_length(frame.len(), 10 + drive.len())?;
    if h.request == 1 && (h.join == 1 || !quiet) {
        return Err(Refusal::Content);
    }
    Ok(())
}

// A heartbeat from numbers and drive bytes, into a buffer as long as it.
pub fn write(h: Numbers, drive: &[u8], frame: &mut [u8]) -> Result<(), Refusal>
    ensures value { status_of result ≡ write_heartbeat_status h.n h.mode h.node h.join h.request h.sync h.startup h.cycle h.channel drive.now frame.old }
    ensures frame_after { frame.new ≡ write_heartbeat_left h.n h.mode h.node h.join h.request h.sync h.startup h.cycle h.channel drive.now frame.old }
{
    check(h, drive, frame)?;
    let slot = Slot {
        node: h.node,
        cycle: h.cycle,
        channel: h.channel,
    };
    let bits = Bits {
        join: h.join == 1,
        request: h.request == 1,
        sync: h.sync == 1,
        startup: h.startup == 1,
    };
    frame_writing::write_heartbeat(slot, bits, drive, frame);
    Ok(())
}
