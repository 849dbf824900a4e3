// Refusals 5 to 9 of a frame that is read.
#![tactic(auto)]

ghost use Rattle.std.specs.Prelude.{◌≡◌, List, ℕ, ◌+◌, ◌≤◌, ◌<◌, length};
ghost use Rattle.bigendian.specs.BigEndian.{number_at};
ghost use Rattle.frames.specs.Read.{wrong_header, wrong_frame, fault_of};
ghost use Rattle.frames.specs.Looked.{words_due, indicators_of, looked};

use frame_due::Due;
use frames::Fault;

// Whether the header check of a frame whose header is h fails.
fn wrong_header(h: u64) -> bool
    ensures { (s : List ℕ) → number_at s 0 5 ≡ h → result ≡ wrong_header s }
{
    let sync = (h / 68719476736 % 2) as u32;
    let startup = (h / 34359738368 % 2) as u32;
    let number = (h / 16777216 % 2048) as u32;
    let words = (h / 131072 % 128) as u32;
    let check = (h / 64 % 2048) as u32;
    check != crc::header_check(sync, startup, number, words)
}

// Whether the frame check fails.
fn wrong_frame(channel: u32, s: &[u8]) -> bool
    requires { 3 ≤ length s.now }
    ensures { result ≡ wrong_frame channel s.now }
{
    let at = s.len() - 3;
    let check = crc::frame_check(crc::channel_start(channel), &s[..at]);
    bigendian::read::<3>(s, at) != u64::from(check)
}

// Refusals 5 to 9, of several the lowest.
pub fn look(due: Due, channel: u32, s: &[u8]) -> Result<(), Fault>
    ensures { result ≡ looked (fault_of due.number due.cycle (words_due due.kind s.now) (indicators_of due.kind s.now) channel s.now) }
{
    if s.len() < 8 {
        return Err(Fault::Length);
    }
    let h = bigendian::read::<5>(s, 0);
    if s.len() as u64 != 8 + 2 * (h / 131072 % 128) {
        return Err(Fault::Length);
    }
    if wrong_header(h) {
        return Err(Fault::HeaderCheck);
    }
    if wrong_frame(channel, s) {
        return Err(Fault::FrameCheck);
    }
    frame_due::null_or_due(due, h)
}
