// The steps of a register block: read, write, cycle, and a write and a cycle together.
#![tactic(auto)]

ghost use Rattle.std.specs.Prelude.{◌≡◌, Ok, IfOk, false, cond, ◌≤◌, ◌<◌, eqb, length, take};
ghost use Rattle.refusal.specs.Codes.{status_of};
ghost use Rattle.state.specs.Image.{node_at, decoded};
ghost use Rattle.rules.specs.OneCycle.{wrong_mode};
ghost use Rattle.registers.specs.Block.{registers_at};
ghost use Rattle.registers.specs.Steps.{Read, Write, Cycle, WriteCycle, step_status, step_left, step_value};
ghost use Rattle.entry_registers.specs.InPlace.{block_status, refusal_of, command_left, write_left, cycled_left, cycle_left};

use entry_lent::check_length;
use refusal::Refusal;
use rules::Heard;
use state::{Node, State};

// The node of a block in a quiet press or not, or refusal 3 or 4.
fn lent_block(quiet: bool, block: &[u8]) -> Result<Node, Refusal>
    ensures status { status_of result ≡ block_status (registers_at quiet block.now) }
    ensures node { IfOk result (λ n. decoded quiet (take 24 block.now) ≡ Ok n) }
{
    register_block::check_rest(block)?;
    state_decoding::decode(quiet, &block[0..24])
}

// Refusals 2, 3 and 4 of a mode and a block.
fn check(mode: u32, block: &[u8]) -> Result<(), Refusal>
    ensures { status_of result ≡ refusal_of mode block.now }
{
    let quiet = rule_steps::check_mode(mode)?;
    register_block::check_rest(block)?;
    // not by `lent_block`: its node would be copied once more
    state_decoding::decode(quiet, &block[0..24])?;
    Ok(())
}

// That a block has 64 bytes is asked where it is written: C lends a slice, whose length `check_rest` finds, and an array would be made of it at every call.

// Rule 1 by command, on the state in a block: byte 27 takes numbers, as a host writes them.
fn command(mode: u32, value: u8, block: &mut [u8])
    requires { length block.old ≡ 64 }
    ensures { block.new ≡ command_left mode value block.old }
{
    // a block that was looked at holds a state that is not refused
    match value {
        1 => {
            let _ = entry_stop_start::stop(mode, &mut block[0..24]);
        }
        2 => {
            let _ = entry_stop_start::start(mode, &mut block[0..24]);
        }
        _ => {}
    }
}

// A byte to an address of a block that was looked at.
fn put_value(mode: u32, address: u32, value: u8, block: &mut [u8])
    requires { length block.old ≡ 64 }
    ensures { block.new ≡ write_left mode address value block.old }
{
    let flags = register_block::flags_after(address, value, block[24]);
    let enables = register_block::enables_after(address, value, block[25]);
    register_block::put_flags(flags, enables, block);
    if address == 27 {
        command(mode, value, block);
    }
}

// The state after a cycle of node n, and what the cycle raises, into its block that has these flags and enables.
fn put_cycled(n: Node, after: State, flags: u8, enables: u8, block: &mut [u8])
    requires { length block.old ≡ 64 }
    ensures { block.new ≡ cycled_left n after flags enables block.old }
{
    let before = n.state;
    let image = state_encoding::encode(Node { state: after, ..n });
    parts::put(block, 0, &image);
    register_block::put_flags(
        flags | register_block::raised_by(before, after),
        enables,
        block,
    );
}

// The rest of a cycle of node n, whose block has these flags and enables.
// That n is below N, and N at most 64, is asked here, in `entry_decide` and in `entry_send_vote`: `Node` has no such fact, since what is lent as one may be any.
fn decide(
    quiet: bool,
    n: Node,
    flags: u8,
    enables: u8,
    heard: Heard,
    votes: &[u8],
    arrived: u64,
    block: &mut [u8],
)
    requires nodes_bound { (n.nodes ≤ 64) × (n.id < n.nodes) × (length votes.now ≡ 1792) × (length block.old ≡ 64) }
    requires block_value { node_at (take 24 block.old) ≡ n }
    ensures { block.new ≡ cycle_left quiet n flags enables heard.members heard.joining heard.requests votes.now arrived block.old }
{
    // each way puts its own state: one place for both would be copied
    if let Some(next) = entry_decide::goes_on(quiet, &block[0..24], heard, votes, arrived) {
        put_cycled(n, next, flags, enables, block);
    } else {
        put_cycled(
            n,
            entry_decide::next_state(quiet, n, heard, votes, arrived),
            flags,
            enables,
            block,
        );
    }
}

// The byte at an address.
pub fn read(mode: u32, block: &[u8], address: u32, value: &mut u32) -> Result<(), Refusal>
    ensures value { status_of result ≡ step_status (Read mode address) block.now }
    ensures value_after { value.new ≡ step_value (Read mode address) block.now value.old }
{
    check(mode, block)?;
    if 63 < address {
        return Err(Refusal::Address);
    }
    *value = u32::from(block[address as usize]);
    Ok(())
}

// A byte to an address.
pub fn write(mode: u32, block: &mut [u8], address: u32, value: u8) -> Result<(), Refusal>
    ensures value { status_of result ≡ step_status (Write mode address value) block.old }
    ensures block_after { block.new ≡ step_left (Write mode address value) block.old }
{
    check(mode, block)?;
    if 63 < address {
        return Err(Refusal::Address);
    }
    put_value(mode, address, value, block);
    Ok(())
}

// A command, which is done first; no other write.
fn command_first(mode: u32, address: u32, value: u8, block: &mut [u8]) -> Result<(), Refusal>
    ensures value { status_of result ≡ cond (eqb address 27) (step_status (Write mode 27 value) block.old) 0 }
    ensures block_after { block.new ≡ cond (eqb address 27) (step_left (Write mode 27 value) block.old) block.old }
{
    if address == 27 {
        return write(mode, block, 27, value);
    }
    Ok(())
}

// Where a write goes after that: a command has nothing more to do.
fn address_left(address: u32) -> u32
    ensures { result ≡ cond (eqb address 27) 28 address }
{
    if address == 27 { 28 } else { address }
}

// A write that is no command, and a cycle, on the state as it was decoded.
fn write_and_decide(
    mode: u32,
    block: &mut [u8],
    address: u32,
    value: u8,
    heard: Heard,
    votes: &[u8],
    arrived: u64,
) -> Result<(), Refusal>
    requires { (wrong_mode mode ≡ false) × (address ≡ 27 → ⊥) × (length votes.now ≡ 1792) }
    ensures value { status_of result ≡ step_status (WriteCycle mode address value heard.members heard.joining heard.requests votes.now arrived) block.old }
    ensures block_after { block.new ≡ step_left (WriteCycle mode address value heard.members heard.joining heard.requests votes.now arrived) block.old }
{
    let quiet = rule_steps::is_quiet(mode);
    let n = lent_block(quiet, block)?;
    if 63 < address {
        return Err(Refusal::Address);
    }
    let flags = register_block::flags_after(address, value, block[24]);
    let enables = register_block::enables_after(address, value, block[25]);
    decide(quiet, n, flags, enables, heard, votes, arrived, block);
    Ok(())
}

// A write and a cycle together, the write first. A command goes through the block, so that every other step decodes the state once.
pub fn write_cycle(
    mode: u32,
    block: &mut [u8],
    address: u32,
    value: u8,
    heard: Heard,
    votes: &[u8],
    arrived: u64,
) -> Result<(), Refusal>
    ensures value { status_of result ≡ step_status (WriteCycle mode address value heard.members heard.joining heard.requests votes.now arrived) block.old }
    ensures block_after { block.new ≡ step_left (WriteCycle mode address value heard.members heard.joining heard.requests votes.now arrived) block.old }
{
    rule_steps::check_mode(mode)?;
    check_length(votes.len(), 1792)?;
    command_first(mode, address, value, block)?;
    let left = address_left(address);
    write_and_decide(mode, block, left, value, heard, votes, arrived)
}

// A cycle alone: together with a write that does nothing.
pub fn cycle(
    mode: u32,
    block: &mut [u8],
    heard: Heard,
    votes: &[u8],
    arrived: u64,
) -> Result<(), Refusal>
    ensures value { status_of result ≡ step_status (Cycle mode heard.members heard.joining heard.requests votes.now arrived) block.old }
    ensures block_after { block.new ≡ step_left (Cycle mode heard.members heard.joining heard.requests votes.now arrived) block.old }
{
    write_cycle(mode, block, 28, 0, heard, votes, arrived)
}
