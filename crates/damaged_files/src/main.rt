// Judges texts from standard input, damaged ones among them, as systems and as results. The lines and their answers are as the reference has
// them: what a text is read as (2 digits), its count of bytes (8 digits), then its bytes (2 digits each).
#![tactic(auto)]

use judge::{decode, judge_result, judge_system};
use script::{Fields, room};
use std::io;
use std::io::{ErrorKind, Read, Write};

// The line for a text that is read as a system, or as a result, at the front of out; its length. What it is read as stays a code: it is tested here
// alone, and an enum would be made for this one test.
fn judge_bytes(what: u8, text: &[u8], out: &mut [u8]) -> usize {
    let mut numbers = room::<f64, 65536>(0.0);
    if what == 0 {
        return judge_system(text, &mut numbers, out);
    }
    let mut entries = room::<u8, 4096>(0);
    judge_result(text, &mut numbers, &mut entries, out)
}

// Judges the text of so many bytes whose digits come next. An error if it is too long, or the answer cannot be written.
fn judge_text(
    what: u8,
    count: usize,
    from: &mut impl Read,
    out: &mut impl Write,
    digits: &mut [u8],
    text: &mut [u8],
) -> io::Result<()> {
    let text = text.get_mut(..count).ok_or(ErrorKind::InvalidInput)?;
    let line = digits
        .get_mut(..2 * count + 1)
        .ok_or(ErrorKind::InvalidInput)?;
    let _ = from.read_exact(line);
    decode(line, text);
    let n = judge_bytes(what, text, digits);
    let answer = digits.get(..n).ok_or(ErrorKind::InvalidInput)?;
    out.write_all(answer)
}

// Judges the next line. An error at the end of the input.
fn judge_line(from: &mut impl Read, out: &mut impl Write) -> io::Result<()> {
    let mut front = [0; 10];
    from.read_exact(&mut front)?;
    let mut fields = Fields::of(&front);
    let what = fields.byte();
    let count = u32::from_be_bytes(fields.bytes()) as usize;
    let mut digits = room::<u8, 131072>(0);
    let mut text = room::<u8, 65536>(0);
    judge_text(what, count, from, out, &mut digits, &mut text)
}

fn main(rt: HostRuntime) {
    for _ in 0..100000 {
        if judge_line(&mut rt.stdin(), &mut io::writer(&rt)).is_err() {
            return;
        }
    }
}
