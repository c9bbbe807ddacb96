// Hexadecimal digits of numbers, written into a lent text from a place on; the rest of the text stays.
#![tactic(auto)]

ghost use Rattle.std.specs.Prelude.{◌≡◌, map, ◌+◌, ◌*◌, ◌<◌, ◌≤◌, length};
ghost use Rattle.std.specs.Float.{binary64};
ghost use Rattle.std.specs.Float.Ieee.{to_bits};
ghost use Rattle.model.specs.Lists.{joined, part, table, with_part};
ghost use Rattle.model.specs.Text.{digit as digit_of, hex, bits};

// The digit of a number below 16: '0' and x further, from 10 on another 7, where 'A' begins.
fn digit(x: u64) -> u8
    requires { x < 16 }
    ensures { result ≡ digit_of x }
{
    (48 + x + (x + 6) / 16 * 7) as u8
}

// Writes the lowest `count` digits of a value, highest first.
pub fn put_hex(text: &mut [u8], at: usize, count: usize, value: u64)
    requires { at + count ≤ length text.old }
    ensures { text.new ≡ with_part at count (hex count value) text.old }
{
    let mut rest = value;
    for k in (0..count).rev() {
        text[at + k] = digit(rest % 16);
        rest /= 16;
    }
}

// The bits of a number. Every NaN has one pattern.
fn bits_of(x: f64) -> u64
    ensures { result ≡ to_bits binary64 x }
{
    if x.is_nan() {
        return 0x7FF8_0000_0000_0000;
    }
    x.to_bits()
}

// Writes the 16 digits of a value as put_hex does, but looks them up, for speed: computed, numbers are slower, and looked up, entries take 2.5 times
// as long.
fn put_bits(text: &mut [u8], at: usize, value: u64, digits: &[u8])
    requires at_in_bounds { at + 16 ≤ length text.old }
    requires digits_value { digits.now ≡ table 16 digit_of }
    ensures { text.new ≡ with_part at 16 (hex 16 value) text.old }
{
    let mut rest = value;
    for k in (0..16).rev() {
        text[at + k] = digits[(rest % 16) as usize];
        rest /= 16;
    }
}

// Writes the bits of the n numbers of m from start on.
pub fn put_numbers(text: &mut [u8], at: usize, m: &[f64], start: usize, n: usize)
    requires n_in_bounds { at + n * 16 ≤ length text.old }
    requires n_in_bounds_2 { start + n ≤ length m.now }
    ensures { text.new ≡ with_part at (n * 16) (joined (map bits (part start n m.now))) text.old }
{
    let digits = b"0123456789ABCDEF";
    for k in 0..n {
        put_bits(text, at + k * 16, bits_of(m[start + k]), digits);
    }
}

// Writes the n entries of l from start on, two digits each.
pub fn put_entries(text: &mut [u8], at: usize, l: &[u8], start: usize, n: usize)
    requires n_in_bounds { at + n * 2 ≤ length text.old }
    requires n_in_bounds_2 { start + n ≤ length l.now }
    ensures { text.new ≡ with_part at (n * 2) (joined (map (hex 2) (part start n l.now))) text.old }
{
    for k in 0..n {
        put_hex(text, at + k * 2, 2, u64::from(l[start + k]));
    }
}
