// Numbers of several bytes, highest byte first.
#![tactic(auto)]

ghost use Rattle.std.specs.Prelude.{◌≡◌, ◌+◌, ◌^◌, ◌≤◌, ◌<◌, length};
ghost use Rattle.bigendian.specs.BigEndian.{bytes_of, number_at};

// The lowest K bytes of x.
pub fn write<const K: usize>(x: u64) -> [u8; K]
    ensures { result ≡ bytes_of K x }
{
    let mut bytes = [0; K];
    let mut rest = x;
    for i in (0..K).rev() {
        bytes[i] = (rest % 256) as u8;
        rest /= 256;
    }
    bytes
}

// The number in the K bytes of s from `at` on.
pub fn read<const K: usize>(s: &[u8], at: usize) -> u64
    requires k_bound { K ≤ 8 }
    requires within { at + K ≤ length s.now }
    ensures value { result ≡ number_at s.now at K }
    ensures upper_bound { result < 256 ^ K }
{
    // from the last byte to the first: the other way round LLVM loads eight bytes one by one
    let mut number = 0;
    for i in (0..K).rev() {
        number += u64::from(s[at + i]) << (8 * (K - 1 - i));
    }
    number
}
