// The header check and the frame check of FlexRay frames, bit by bit. Each function is its definition of specs/.
#![tactic(auto)]

ghost use Rattle.std.specs.Prelude.{◌≡◌, ◌^◌, ◌≤◌, ◌<◌};
ghost use Rattle.crc.specs.Crc.{
  Register,
  bit_step,
  check,
  bits_of,
  header_check,
  frame_check,
  channel_start,
};

// One message bit into a register of K bits.
fn bit_step<const K: u32, const POLYNOMIAL: u32>(r: u32, b: u32) -> u32
    requires { Register K POLYNOMIAL r }
    ensures value { result ≡ bit_step K POLYNOMIAL r b }
    ensures upper_bound { result < 2 ^ K }
{
    let moved = r * 2 % (1 << K);
    // what is added is chosen, and not the sum: LLVM makes a quicker step of that
    let added = if r >> (K - 1) == b { 0 } else { POLYNOMIAL };
    moved ^ added
}

// The lowest n bits of word, highest bit first.
fn bits_step<const K: u32, const POLYNOMIAL: u32>(start: u32, word: u32, n: u32) -> u32
    requires register { Register K POLYNOMIAL start }
    requires n_bound { n ≤ 32 }
    ensures value { result ≡ check K POLYNOMIAL start (bits_of n word) }
    ensures upper_bound { result < 2 ^ K }
{
    let mut r = start;
    for i in (0..n).rev() {
        r = bit_step::<K, POLYNOMIAL>(r, (word >> i) % 2);
    }
    r
}

// The 11-bit check in a frame's header.
pub fn header_check(sync: u32, startup: u32, number: u32, length: u32) -> u32
    requires sync_bound { sync < 2 }
    requires startup_bound { startup < 2 }
    requires number_bound { number < 2048 }
    requires length_len_bound { length < 128 }
    ensures value { result ≡ header_check sync startup number length }
    ensures upper_bound { result < 2 ^ 11 }
{
    // the 20 bits that the check is over, sync highest
    let word = ((sync * 2 + startup) * 2048 + number) * 128 + length;
    bits_step::<11, 0x385>(0x1A, word, 20)
}

// Where the frame check starts: a frame copied to the other channel fails its check. The channel is a number, as the host passes it through the C interface.
pub fn channel_start(channel: u32) -> u32
    ensures value { result ≡ channel_start channel }
    ensures upper_bound { result < 2 ^ 24 }
{
    if channel == 0 { 0xFEDCBA } else { 0xABCDEF }
}

// The 24-bit check over a frame's header and payload.
pub fn frame_check(start: u32, s: &[u8]) -> u32
    requires { start < 2 ^ 24 }
    ensures value { result ≡ frame_check start s.now }
    ensures upper_bound { result < 2 ^ 24 }
{
    let mut r = start;
    for b in s {
        r = bits_step::<24, 0x5D6DCB>(r, u32::from(*b), 8);
    }
    r
}
