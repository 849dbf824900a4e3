// A program that makes the calls of its input on a lent row of node structs, and prints each unit's state after each call.
#![tactic(auto)]

ghost use Rattle.std.specs.Prelude.{◌≡◌, ◌++◌, ◌≤◌, length, take, drop};
ghost use Rattle.refusal.specs.Codes.{status_of};
ghost use Rattle.bus_units.specs.Run.{frames_length};
ghost use Rattle.row_calls.specs.Calls.{call_status, call_left};

use refusal::Refusal;
use row_calls::Task;
use state::{Node, Reason, State};
use std::io::Read;
use std::{fmt, io};

// The bytes before those of a call.
const HEAD: usize = 6;

// The entries of the row.
const ROW: usize = 9;

// What stands before the bytes of a call: its task, N, the mode, how many entries of the row are lent, and how many bytes follow.
#[derive(Clone, Copy)]
struct Head {
    task: Task,
    nodes: u32,
    mode: u32,
    entries: usize,
    length: usize,
    ghost within: { entries ≤ 9 },
}

impl From<[u8; HEAD]> for Head {
    fn from(bytes: [u8; HEAD]) -> Head {
        let [task, nodes, mode, entries, high, low] = bytes;
        Head {
            task: match task {
                0 => Task::Cycle,
                1 => Task::Run,
                _ => Task::FramedRun,
            },
            nodes: u32::from(nodes),
            mode: u32::from(mode),
            entries: usize::from(entries).min(ROW),
            length: usize::from(u16::from_be_bytes([high, low])),
        }
    }
}

// Why a unit is out, as a line shows it.
#[derive(Clone, Copy)]
struct Shown(Reason);

impl fmt::Display for Shown {
    fn fmt<W: fmt::Write>(&self, f: &mut fmt::Formatter<W>) -> fmt::Result {
        match self.0 {
            Reason::Stopped => f.write_str("stopped"),
            Reason::NoQuorum => f.write_str("no quorum"),
            Reason::Outvoted => f.write_str("outvoted"),
        }
    }
}

// A unit's number, N and state, on a line: its parts are written one by one.
fn show_node(rt: HostRuntime, node: Node) -> io::Result<()> {
    print!(rt; "{} of {}", node.id, node.nodes)?;
    match node.state {
        State::Out(reason) => println!(rt; " out, {}", Shown(reason)),
        State::Joining => println!(rt; " joining"),
        State::Member(group, requests) => {
            print!(rt;
                " member {} {:016x} {:016x}",
                group.number, group.set, group.base
            )?;
            if requests {
                print!(rt; " requests")?;
            }
            println!(rt; "")
        }
    }
}

// A call on the first entries of the row: the one place that lends them.
fn lend(head: Head, row: &mut [Node; ROW], bytes: &[u8]) -> Result<(), Refusal>
    ensures status_value { status_of result ≡ call_status head.task head.nodes head.mode (take head.entries row.old) frames_length bytes.now }
    ensures row_value { row.new ≡ call_left head.task head.nodes head.mode (take head.entries row.old) frames_length bytes.now ++ drop head.entries row.old }
{
    row_press::call(
        head.task,
        head.nodes,
        head.mode,
        &mut row[..head.entries],
        bytes,
    )
}

// Every whole call in turn, each on the row that the one before left.
fn calls(rt: HostRuntime, input: &[u8]) -> io::Result<()> {
    let mut row = [row::NOBODY; ROW];
    let mut rest = input;
    while let Some((bytes, after)) = rest.split_first_chunk::<HEAD>() {
        let head = Head::from(*bytes);
        let Some((bytes, next)) = after.split_at_checked(head.length) else {
            return Ok(());
        };
        let result = lend(head, &mut row, bytes);
        println!(rt; "status {}", refusal::status(result))?;
        for node in &row[..head.entries] {
            show_node(rt, *node)?;
        }
        rest = next;
    }
    Ok(())
}

// Reads until the buffer is full, the input ends or a read fails, and returns how many bytes it put at the start.
// No method of `Read` does that: `read_exact` and `read_to_end` lose how many bytes came before a failed read.
fn read_full(rt: HostRuntime, input: &mut [u8]) -> usize
    ensures { result ≤ length input.new }
{
    let mut end = 0;
    while end < input.len() {
        let more = rt.stdin().read(&mut input[end..]).unwrap_or(0);
        if more == 0 {
            break;
        }
        end += more;
    }
    end
}

fn main(rt: HostRuntime) -> io::Result<()> {
    let mut input = [0u8; 4096];
    let end = read_full(rt, &mut input);
    calls(rt, &input[..end])
}
