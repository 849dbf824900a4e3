// Published values of the frame check, and header checks and frames made by other code: what is printed here must be the stored output.
// Published are the checks of the digits 1 to 9, as CRC-24/FLEXRAY-A and -B. The header checks and the votes are those of the plain C in bench/plain and of the
// Rust in tests/host, which agree. The heartbeats are made with Debian's python3-crccheck, by `/usr/bin/python3` on these lines:
//     from crccheck.crc import Crc11Flexray, Crc24FlexrayA, Crc24FlexrayB
//     def beat(q, join, sync, startup, cycle, drive, crc):
//         field = ((sync * 2 + startup) << 18) + ((q + 1) << 7) + 1 + len(drive) // 2
//         check = Crc11Flexray.calc((field ^ 0x1A << 9).to_bytes(3, "big"), 0)
//         head = ((4 << 35) + (field << 17) + (check << 6) + cycle).to_bytes(5, "big")
//         frame = head + bytes([join * 128, 0]) + drive
//         print((frame + crc.calc(frame).to_bytes(3, "big")).hex())
//     drive = bytes((7 * i + 13) % 256 for i in range(252))
//     for b in (0, 0, 0, 0, 0, 0), (4, 1, 0, 0, 63, 0), (63, 0, 1, 1, 9, 0), (2, 1, 1, 0, 5, 2), (40, 0, 0, 0, 62, 4), (63, 1, 1, 1, 63, 252):
//         for crc in Crc24FlexrayA, Crc24FlexrayB: beat(*b[:5], drive[:b[5]], crc)
// That with a request is one of the open vectors of request 3, in heartbeat.txt, made by other code too.
#![tactic(auto)]

ghost use Rattle.std.specs.Prelude.{◌<◌};

use entry_write_heartbeat::Numbers;
use frames::Slot;
use refusal::Refusal;
use rules::Vote;
use state::Group;
use std::io;

fn end_line(rt: HostRuntime) -> io::Result<()> {
    println!(rt; "")
}

// The header check for sync, startup, frame number and length.
// Its bounds are those of the fields of a header, of which nothing but this and the writing of a frame takes all.
fn show_header(rt: HostRuntime, sync: u32, startup: u32, number: u32, length: u32) -> io::Result<()>
    requires sync_bound { sync < 2 }
    requires startup_bound { startup < 2 }
    requires number_bound { number < 2048 }
    requires length_len_bound { length < 128 }
{
    let check = crc::header_check(sync, startup, number, length);
    println!(rt; "{check:03x}")
}

// The frame check of some bytes on each channel.
fn show_check(rt: HostRuntime, s: &[u8]) -> io::Result<()> {
    let a = crc::frame_check(crc::channel_start(0), s);
    let b = crc::frame_check(crc::channel_start(1), s);
    println!(rt; "{a:06x} {b:06x}")
}

fn show_bytes(rt: HostRuntime, s: &[u8]) -> io::Result<()> {
    for byte in s {
        print!(rt; "{byte:02x}")?;
    }
    end_line(rt)
}

// The frames of one vote on both channels.
fn show_vote(rt: HostRuntime, q: u32, vote: Vote, cycle: u32) -> io::Result<()>
    requires q_bound { q < 64 }
    requires cycle_bound { cycle < 64 }
{
    let slot = Slot {
        node: q,
        cycle,
        channel: 0,
    };
    show_bytes(rt, &frame_writing::write_vote(slot, vote))?;
    let on_b = Slot {
        node: q,
        cycle,
        channel: 1,
    };
    show_bytes(rt, &frame_writing::write_vote(on_b, vote))
}

// A founding member's first vote, and one in which no byte stands twice: there no two of G, M, B and V can change places unseen.
fn show_votes(rt: HostRuntime) -> io::Result<()> {
    let founding = Group {
        number: 0,
        set: 0x1f,
        base: 0x1f,
    };
    show_vote(
        rt,
        0,
        Vote {
            group: founding,
            view: 0x1f,
        },
        0,
    )?;
    let group = Group {
        number: 0x3c5a7e91,
        set: 0x0123456789abcdef,
        base: 0x1133557799bbddff,
    };
    show_vote(
        rt,
        15,
        Vote {
            group,
            view: 0xf0e1d2c3b4a59687,
        },
        42,
    )
}

fn show_headers(rt: HostRuntime) -> io::Result<()> {
    show_header(rt, 0, 0, 1, 1)?;
    show_header(rt, 0, 0, 5, 1)?;
    show_header(rt, 1, 1, 1, 1)?;
    show_header(rt, 1, 0, 1, 1)?;
    show_header(rt, 0, 0, 64, 1)?;
    show_header(rt, 0, 0, 65, 14)?;
    show_header(rt, 0, 0, 128, 14)?;
    show_header(rt, 0, 0, 2047, 127)
}

// A refusal, by its name. A function of its own: what it formats with would else take stack below every frame that is shown.
#[inline(never)]
fn show_refusal(rt: HostRuntime, refusal: Refusal) -> io::Result<()> {
    println!(rt; "{refusal:?}")
}

// A heartbeat through a buffer as long as it; a refusal would be printed in its place.
fn show_frame(rt: HostRuntime, numbers: Numbers, drive: &[u8], frame: &mut [u8]) -> io::Result<()> {
    match entry_write_heartbeat::write(numbers, drive, frame) {
        Ok(()) => show_bytes(rt, frame),
        Err(refusal) => show_refusal(rt, refusal),
    }
}

// The same on both channels.
fn show_heartbeat(
    rt: HostRuntime,
    numbers: Numbers,
    drive: &[u8],
    frame: &mut [u8],
) -> io::Result<()> {
    show_frame(rt, numbers, drive, frame)?;
    let on_b = Numbers {
        channel: 1,
        ..numbers
    };
    show_frame(rt, on_b, drive, frame)
}

// Drive bytes: no two that follow each other are equal.
fn drive_bytes() -> [u8; 252] {
    let mut drive = [0u8; 252];
    for i in 0..252 {
        drive[i] = ((7 * i + 13) % 256) as u8;
    }
    drive
}

// Of one, two, three and 127 words; the last of one word has a request, in a quiet press.
fn show_heartbeats(rt: HostRuntime) -> io::Result<()> {
    let plain = Numbers {
        n: 64,
        mode: 0,
        node: 0,
        join: 0,
        request: 0,
        sync: 0,
        startup: 0,
        cycle: 0,
        channel: 0,
    };
    let mut one = [0u8; 10];
    show_heartbeat(rt, plain, &[], &mut one)?;
    let joining = Numbers {
        node: 4,
        join: 1,
        cycle: 63,
        ..plain
    };
    show_heartbeat(rt, joining, &[], &mut one)?;
    let starting = Numbers {
        node: 63,
        sync: 1,
        startup: 1,
        cycle: 9,
        ..plain
    };
    show_heartbeat(rt, starting, &[], &mut one)?;
    let asking = Numbers {
        mode: 1,
        node: 3,
        request: 1,
        cycle: 7,
        ..plain
    };
    show_heartbeat(rt, asking, &[], &mut one)?;
    let mut two = [0u8; 12];
    let in_sync = Numbers {
        node: 2,
        join: 1,
        sync: 1,
        cycle: 5,
        ..plain
    };
    show_heartbeat(rt, in_sync, &[13, 20], &mut two)?;
    let mut three = [0u8; 14];
    let late = Numbers {
        node: 40,
        cycle: 62,
        ..plain
    };
    show_heartbeat(rt, late, &[13, 20, 27, 34], &mut three)?;
    let mut most = [0u8; 262];
    let full = Numbers {
        join: 1,
        cycle: 63,
        ..starting
    };
    show_heartbeat(rt, full, &drive_bytes(), &mut most)
}

fn main(rt: HostRuntime) -> io::Result<()> {
    show_headers(rt)?;
    show_check(rt, b"123456789")?;
    show_heartbeats(rt)?;
    show_votes(rt)
}
