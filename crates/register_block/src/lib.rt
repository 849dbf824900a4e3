// The bytes behind the state of a register block: looked at, and written.
#![tactic(auto)]

ghost use Rattle.std.specs.Prelude.{◌≡◌, length, drop};
ghost use Rattle.refusal.specs.Codes.{status_of};
ghost use Rattle.registers.specs.Block.{flags_byte, all_zero, reads_so};
ghost use Rattle.registers.specs.Steps.{raised_by};
ghost use Rattle.register_block.specs.Bytes.{shares as the_shares, rest_status, with_flags, flags_after, enables_after};

use entry_lent::check_length;
use refusal::Refusal;
use state::State;

// Whether all bytes are 0: their bits together are tested, which LLVM takes sixteen at a time.
fn is_zero(s: &[u8]) -> bool
    ensures { result ≡ all_zero s.now }
{
    let mut bits = 0;
    for i in 0..s.len() {
        bits |= s[i];
    }
    bits == 0
}

// Whether bytes 27 to 63 are 0.
fn rest_is_zero(block: &[u8]) -> bool
    requires { length block.now ≡ 64 }
    ensures { result ≡ all_zero (drop 27 block.now) }
{
    is_zero(&block[27..64])
}

// 1 if two bytes share a bit.
fn shares(flags: u8, enables: u8) -> u8
    ensures { result ≡ the_shares flags enables }
{
    u8::from(flags & enables != 0)
}

// Whether bytes 24 to 63 are such as a block can have.
fn reads_so(block: &[u8]) -> bool
    requires { length block.now ≡ 64 }
    ensures { result ≡ reads_so block.now }
{
    let flags = block[24];
    let enables = block[25];
    let low = (flags < 8) & (enables < 8);
    low & (block[26] == shares(flags, enables)) & rest_is_zero(block)
}

// What a block is refused for, apart from its state.
#[tactic(auto, unfolding(crate::specs::Bytes::rest_status))]
pub fn check_rest(block: &[u8]) -> Result<(), Refusal>
    ensures { status_of result ≡ rest_status block.now }
{
    check_length(block.len(), 64)?;
    if !reads_so(block) {
        return Err(Refusal::Image);
    }
    Ok(())
}

// Flags and enables, and the byte that follows from both.
pub fn put_flags(flags: u8, enables: u8, block: &mut [u8])
    requires { length block.old ≡ 64 }
    ensures { block.new ≡ with_flags flags enables block.old }
{
    block[24] = flags;
    block[25] = enables;
    block[26] = shares(flags, enables);
}

// Byte 24 after a write: a one clears its flag.
pub fn flags_after(address: u32, value: u8, flags: u8) -> u8
    ensures { result ≡ flags_after address value flags }
{
    if address == 24 { flags & !value } else { flags }
}

// Byte 25 after a write.
pub fn enables_after(address: u32, value: u8, enables: u8) -> u8
    ensures { result ≡ enables_after address value enables }
{
    if address == 25 { value % 8 } else { enables }
}

// The flag, as its bit, that a cycle raises which finds a node in state s and leaves it in state t.
pub fn raised_by(s: State, t: State) -> u8
    ensures { result ≡ flags_byte (raised_by s t) }
{
    match s {
        State::Out(_) => 0,
        State::Joining => if rule_steps::sends_member(t) { 4 } else { 0 },
        State::Member(g, _) => match t {
            State::Out(r) => if u8::from(r) != 0 { 2 } else { 0 },
            State::Joining => 0,
            State::Member(h, _) => u8::from(g.set != h.set),
        },
    }
}
