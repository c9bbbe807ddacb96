// For the test of damaged texts: what the readers answer for a text, as a line of digits.
#![tactic(auto)]

ghost use Rattle.std.specs.Prelude.{◌≤◌, length};

use header_read::{Shape, check_header};
use host_answers::{ReadTold, tell_read};
use model::MOST_ORDER;
use result_file::read_result;
use script::{Fields, mixed_bytes, mixed_numbers, value};
use std::io::Write;
use system_file::read_system;

// How many numbers and entries are lent for a text.
#[derive(Clone, Copy, Default)]
pub struct Lengths {
    pub numbers: usize,
    pub entries: usize,
}

// The lengths that line 1 calls for, and 0 where it is refused.
fn lengths_due(text: &[u8]) -> Lengths
    ensures { (result.numbers ≤ 65536) × (result.entries ≤ 4096) }
{
    match check_header(text, MOST_ORDER) {
        Ok(Shape { tiles, side }) => {
            let n = tiles * side;
            Lengths {
                numbers: n * n,
                entries: tiles * n,
            }
        }
        Err(_) => Lengths::default(),
    }
}

// The bytes whose digits are given, 0 past their end: in pairs as far as there are some, which takes half the time of reading digit by digit.
pub fn decode(digits: &[u8], text: &mut [u8]) {
    let n = text.len().min(digits.len() / 2);
    let (front, back) = text.split_at_mut(n);
    for (b, pair) in front.iter_mut().zip(digits.chunks_exact(2)) {
        *b = value(pair[0]) << 4 | value(pair[1]);
    }
    let mut fields = Fields::of(&digits[2 * n..]);
    for b in back.iter_mut() {
        *b = fields.byte();
    }
}

// Writes what a reading tells and the digest of what it left to the front of out; the length of that.
fn put_read(out: &mut [u8], told: ReadTold, digest: u64) -> usize {
    let ReadTold {
        number,
        place,
        kind,
        at,
        ..
    } = told;
    let whole = out.len();
    let mut rest = out;
    let _ = writeln!(
        rest,
        "{number:02X}{place:016X}{kind:02X}{at:04X}{digest:016X}"
    );
    whole.saturating_sub(rest.len())
}

// The line for a text that is read as a system, at the front of out; its length.
pub fn judge_system(text: &[u8], numbers: &mut [f64], out: &mut [u8]) -> usize
    requires { 65536 ≤ length numbers.old }
{
    let due = lengths_due(text);
    let numbers = &mut numbers[..due.numbers];
    let told = tell_read(read_system(text, numbers));
    put_read(out, told, mixed_numbers(1, numbers))
}

// The line for a text that is read as a result, at the front of out; its length.
pub fn judge_result(text: &[u8], numbers: &mut [f64], entries: &mut [u8], out: &mut [u8]) -> usize
    requires { (65536 ≤ length numbers.old) × (4096 ≤ length entries.old) }
{
    let due = lengths_due(text);
    let numbers = &mut numbers[..due.numbers];
    let entries = &mut entries[..due.entries];
    let told = tell_read(read_result(text, numbers, entries));
    put_read(out, told, mixed_bytes(mixed_numbers(1, numbers), entries))
}
