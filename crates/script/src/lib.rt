// For test programs: fields of fixed width in lines of hexadecimal digits, a digest, and rooms. What they compute is not stated: it is
// matched with the reference program.
#![tactic(auto)]

ghost use Rattle.std.specs.Prelude.{◌≡◌, ◌<◌, length};

use std::array;
use std::num::f64_to_bits_with_nan;

// An array all of one value: room for numbers, bytes or records.
pub fn room<T: Copy, const N: usize>(x: T) -> [T; N]
    ensures { N ≡ length result }
{
    [x; N]
}

// The value of a digit; 0 for any other byte.
pub fn value(digit: u8) -> u8
    ensures { result < 16 }
{
    match digit {
        b'0'..=b'9' => digit - b'0',
        b'A'..=b'F' => digit - b'A' + 10,
        _ => 0,
    }
}

// The digits of a line that are not yet read. Past its end all are 0.
#[derive(Clone, Copy)]
pub struct Fields<'a> {
    rest: &'a [u8],
}

impl<'a> Fields<'a> {
    // All of a line.
    pub fn of(line: &'a [u8]) -> Self {
        Fields { rest: line }
    }

    // The value of the next digit.
    fn digit(&mut self) -> u8 {
        let Some((first, rest)) = self.rest.split_first() else {
            return 0;
        };
        self.rest = rest;
        value(*first)
    }

    // The next byte, of two digits.
    pub fn byte(&mut self) -> u8 {
        self.digit() << 4 | self.digit()
    }

    // The next bytes, of two digits each. Past the end at once: a line may tell many items and have the digits of none.
    pub fn bytes<const N: usize>(&mut self) -> [u8; N] {
        if self.rest.is_empty() {
            return [0; N];
        }
        array::from_fn(|_| self.byte())
    }
}

// The digest h with x mixed in.
pub fn mixed(h: u64, x: u64) -> u64 {
    (h % (1 << 32) * 1000003 + x % (1 << 32)) % 0xFFFF_FFFB
}

// The digest h with the count and the bits of numbers mixed in.
pub fn mixed_numbers(h: u64, m: &[f64]) -> u64 {
    m.iter().fold(mixed(h, m.len() as u64), |r, x| {
        let b = f64_to_bits_with_nan(*x);
        mixed(mixed(r, b >> 32), b)
    })
}

// The digest h with the count of bytes and the bytes mixed in.
pub fn mixed_bytes(h: u64, l: &[u8]) -> u64 {
    l.iter()
        .fold(mixed(h, l.len() as u64), |r, b| mixed(r, u64::from(*b)))
}
