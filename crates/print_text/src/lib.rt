// Text appended to lent bytes at a cursor: words, masks in hexadecimal, numbers in decimal.
// Each method moves the cursor behind what it wrote, and leaves every other byte as it was. Numbers are printed by hand: `write!` says what it wrote only where it
// answers `Ok`, which no clause of it promises, and `print_lines::put_line` and the like say all bytes and can't fail.
#![tactic(auto)]

ghost use Rattle.std.specs.Prelude.{◌≡◌, [], ◌∷◌, ◌+◌, ◌≤◌, ◌<◌, length};
ghost use Rattle.print_text.specs.Text.{digits, hex_text, places as places_in, decimal_text, Appended};
ghost use Rattle.print_text.specs.Text.{glyph as the_glyph};
ghost use Rattle.print_text.specs.Cursor.{HasRoom, Puts};

// The ASCII code of a digit: from 10 on a letter, 39 codes further. No branch, so that many digits are made at once.
fn glyph(d: u64) -> u8
    requires { d < 16 }
    ensures { result ≡ the_glyph d }
{
    (48 + d + 39 * ((d + 6) / 16)) as u8
}

// How many decimal digits x has.
fn places(x: u64) -> usize
    ensures { (result ≡ places_in 19 x) × (result ≤ 20) }
{
    match x.checked_ilog10() {
        Some(k) => k as usize + 1,
        None => 1,
    }
}

// The last `count` digits of x in a base, stored from the last, which the rest of x gives first.
fn put_digits(out: &mut [u8], at: usize, base: u64, count: usize, x: u64) -> usize
    requires count_in_bounds { at + count ≤ length out.old }
    requires base_nonzero { (0 < base) × (base ≤ 16) }
    ensures { Appended out.old at (digits base count x) out.new result }
{
    let mut rest = x;
    for i in (0..count).rev() {
        out[at + i] = glyph(rest % base);
        rest /= base;
    }
    at + count
}

// Lent bytes, and the cursor: where the text in them ends.
#[derive(Drop)]
pub struct Text<'a> {
    pub out: &'a mut [u8],
    pub at: usize,
}

impl<'a> Text<'a> {
    pub fn put_byte(&mut self, b: u8)
        requires { HasRoom self.old 1 }
        ensures { Puts self.old (b ∷ []) self.new }
    {
        self.out[self.at] = b;
        self.at += 1;
    }

    // The words as they are.
    pub fn put(&mut self, words: &[u8])
        requires { HasRoom self.old (length words.now) }
        ensures { Puts self.old words.now self.new }
    {
        parts::put(self.out, self.at, words);
        self.at += words.len();
    }

    // A mask, in hexadecimal.
    pub fn put_hex(&mut self, m: u64)
        requires { HasRoom self.old 16 }
        ensures { Puts self.old (hex_text m) self.new }
    {
        self.at = put_digits(self.out, self.at, 16, 16, m);
    }

    pub fn put_decimal(&mut self, x: u64)
        requires { HasRoom self.old 20 }
        ensures { Puts self.old (decimal_text x) self.new }
    {
        self.at = put_digits(self.out, self.at, 10, places(x), x);
    }
}
