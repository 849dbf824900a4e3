// Heartbeat and vote frames, written.
#![tactic(auto)]

ghost use Rattle.std.specs.Prelude.{◌≡◌, false, ◌+◌, ◌<◌, length};
ghost use Rattle.frames.specs.Written.{bit, header, heartbeat_frame, wrong_drive, vote_payload, vote_frame};

use frames::{Bits, Slot};
use rules::Vote;

// The five header bytes, as one number of 40 bits; its null frame bit is 1.
fn header_bytes(sync: bool, startup: bool, number: u32, words: u32, cycle: u32) -> [u8; 5]
    requires number_bound { number < 2048 }
    requires words_bound { words < 128 }
    requires cycle_bound { cycle < 64 }
    ensures { result ≡ header (bit sync) (bit startup) number words cycle }
{
    let sync = u32::from(sync);
    let startup = u32::from(startup);
    let check = crc::header_check(sync, startup, number, words);
    let high = ((4 + sync * 2 + startup) * 2048 + number) * 128 + words;
    bigendian::write::<5>(u64::from(high) * 131072 + u64::from(check * 64 + cycle))
}

// Whether these drive bytes cannot be written: an odd number of them, or above 252.
pub fn wrong_drive(drive: &[u8]) -> bool
    ensures { result ≡ wrong_drive drive.now }
{
    drive.len() % 2 == 1 || 252 < drive.len()
}

// A heartbeat with these bits and drive bytes, into a buffer as long as it. Its slot and bits would take stack in a call of their own.
#[inline(always)]
pub fn write_heartbeat(slot: Slot, bits: Bits, drive: &[u8], frame: &mut [u8])
    requires drive_value { wrong_drive drive.now ≡ false }
    requires frame_len { length frame.old ≡ 10 + length drive.now }
    ensures { frame.new ≡ heartbeat_frame slot.node (bit bits.join) (bit bits.request) (bit bits.sync) (bit bits.startup) slot.cycle slot.channel drive.now }
{
    let words = 1 + (drive.len() / 2) as u32;
    parts::put(
        frame,
        0,
        &header_bytes(bits.sync, bits.startup, slot.node + 1, words, slot.cycle),
    );
    let first = u8::from(bits.join) * 128 + u8::from(bits.request) * 64;
    parts::put(frame, 5, &[first, 0]);
    parts::put(frame, 7, drive);
    let end = 7 + drive.len();
    let check = crc::frame_check(crc::channel_start(slot.channel), &frame[..end]);
    parts::put(frame, end, &bigendian::write::<3>(u64::from(check)));
}

// The payload of a vote: G, M, B and V.
pub fn vote_payload(v: Vote) -> [u8; 28]
    ensures { result ≡ vote_payload v }
{
    let group = v.group;
    let mut r = [0u8; 28];
    parts::put(&mut r, 0, &bigendian::write::<4>(u64::from(group.number)));
    parts::put(&mut r, 4, &bigendian::write::<8>(group.set));
    parts::put(&mut r, 12, &bigendian::write::<8>(group.base));
    parts::put(&mut r, 20, &bigendian::write::<8>(v.view));
    r
}

// Parts that are put: an array literal of 36 elements takes the checker longer than all else here.
pub fn write_vote(slot: Slot, v: Vote) -> [u8; 36]
    ensures { result ≡ vote_frame slot.node v slot.cycle slot.channel }
{
    let mut f = [0u8; 36];
    parts::put(
        &mut f,
        0,
        &header_bytes(false, false, slot.node + 65, 14, slot.cycle),
    );
    parts::put(&mut f, 5, &vote_payload(v));
    let check = crc::frame_check(crc::channel_start(slot.channel), &f[..33]);
    parts::put(&mut f, 33, &bigendian::write::<3>(u64::from(check)));
    f
}
