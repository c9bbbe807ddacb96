// The program: reads a system on standard input, runs it with one worker and prints the result, or the line of a refusal. Every decision is
// in printing and input_due; here bytes are only moved, and what cannot be moved is said on standard error. What is said of bytes holds for
// readers and writers that tell theirs, as those over memory: of standard input and output no contract can tell.
#![tactic(auto)]

ghost use Rattle.std.specs.Prelude.{◌≡◌, ◌≤◌, IfErr, IfOk, IfSome, OnOk, length};
ghost use Rattle.std.specs.Io.KnownBytes.{Appends, WriteAppends};
ghost use Rattle.model.specs.Read.{program};
ghost use Rattle.solumivaf.specs.Input.{Decides, Filled, QuietWhereUnread, Took, Within};

use input_due::bytes_due;
use printing::print_result;
use std::io::{ErrorKind, Read, Write};
use std::{io, str};

// Why no result, or not all of one, was printed: a read or a write failed.
#[derive(Clone, Copy)]
pub enum Failure {
    Unread(io::Error),
    Incomplete(io::Error),
}

// One read, of at least a byte unless the input ends. A read that a signal interrupts is tried again; a proved loop ends, so this one counts its
// turns, up to more than a run can use up.
fn read_some<R: Read>(from: &mut R, part: &mut [u8]) -> io::Result<usize>
    ensures within { Within (length part.old) result }
    ensures bytes { Took (R.remaining from.old) (R.remaining from.new) part.new result }
{
    for _ in 0..u64::MAX {
        match from.read(part) {
            Err(why) if why.kind() == ErrorKind::Interrupted => {}
            read => return read,
        }
    }
    Err(io::Error::from(ErrorKind::Interrupted))
}

// Reads until the part is full or the input ends: a turn goes on by as many bytes as were read.
fn read_full<R: Read>(from: &mut R, part: &mut [u8]) -> io::Result<usize>
    ensures within { Within (length part.new) result }
    ensures bytes { Filled (R.remaining from.old) (R.remaining from.new) part.new result }
{
    let mut done = 0;
    while done < part.len() {
        let n = read_some(from, &mut part[done..])?;
        if n == 0 {
            return Ok(done);
        }
        done += n;
    }
    Ok(done)
}

// Reads the input as far as it decides what is printed.
fn read_due<R: Read>(from: &mut R, buffer: &mut [u8]) -> io::Result<usize>
    requires { 38664 ≤ length buffer.old }
    ensures within { Within (length buffer.old) result }
    ensures decides { Decides (R.remaining from.old) buffer.new result }
{
    let front = read_full(from, &mut buffer[..7])?;
    if front < 7 {
        return Ok(front);
    }
    let due = bytes_due(&buffer[..7]);
    let n = read_full(from, &mut buffer[7..due])?;
    Ok(7 + n)
}

// One write, of at least a byte unless it fails, tried again like a read.
fn write_some<W: Write>(to: &mut W, part: &[u8]) -> io::Result<usize>
    ensures within { IfOk result (λ n. n ≤ length part.now) }
    ensures bytes { WriteAppends (W.contents to.old) (W.contents to.new) result part.now }
{
    for _ in 0..u64::MAX {
        match to.write(part) {
            Err(why) if why.kind() == ErrorKind::Interrupted => {}
            put => return put,
        }
    }
    Err(io::Error::from(ErrorKind::Interrupted))
}

// Writes all of the text, or tells why it could not: a turn goes on by as many bytes as were written.
fn write_full<W: Write>(to: &mut W, text: &[u8]) -> io::Result<()>
    ensures { OnOk result (Appends (W.contents to.old) (W.contents to.new) text.now) }
{
    let mut done = 0;
    while done < text.len() {
        let put = write_some(to, &text[done..])?;
        if put == 0 {
            return Err(io::Error::from(ErrorKind::WriteZero));
        }
        done += put;
    }
    Ok(())
}

// Prints what a text gives.
fn print<W: Write>(to: &mut W, text: &[u8]) -> io::Result<()>
    ensures { OnOk result (Appends (W.contents to.old) (W.contents to.new) (program text.now)) }
{
    let mut output = [0; 65536];
    match print_result(text, &mut output) {
        Ok(k) => write_full(to, &output[..k]),
        // Never: the buffer has room for all that is printed.
        Err(_) => Ok(()),
    }
}

// Reads a text as far as is due, and prints what it gives.
pub fn answer<R: Read, W: Write>(from: &mut R, to: &mut W) -> Result<(), Failure>
    ensures printed { OnOk result (IfSome (R.remaining from.old) (λ text. Appends (W.contents to.old) (W.contents to.new) (program text))) }
    ensures quiet { IfErr result (QuietWhereUnread (W.contents to.old) (W.contents to.new)) }
{
    let mut input = [0; 65536];
    let n = read_due(from, &mut input).map_err(Failure::Unread)?;
    print(to, &input[..n]).map_err(Failure::Incomplete)
}

// Says in one line on standard error what went wrong, and why in the system's words, without the number that the system gives it.
fn say(rt: &impl Eprint, what: &str, why: io::Error) {
    let mut line = [b' '; 256];
    let mut room: &mut [u8] = &mut line;
    let _ = write!(room, "{why}");
    let words = str::from_utf8(&line).unwrap_or("").trim_end();
    let reason = words.split(" (os error ").next().unwrap_or(words);
    let _ = eprintln!(rt; "solumivaf: {what}: {reason}");
}

fn main(rt: HostRuntime) {
    match answer(&mut rt.stdin(), &mut rt.stdout()) {
        Ok(()) => {}
        Err(Failure::Unread(why)) => say(&rt, "standard input could not be read", why),
        Err(Failure::Incomplete(why)) => say(&rt, "the output is incomplete", why),
    }
}
