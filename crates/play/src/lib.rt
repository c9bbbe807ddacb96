// For test programs: plays a script of calls, one a line, and answers each with a line (reference/README.md has the format). What is lent
// are the fronts of the rooms given; what a line lends beyond them is dropped.
#![tactic(auto)]

ghost use Rattle.std.specs.Prelude.{◌≡◌, length, IsOk};

use host_answers::{tell, tell_outcome, tell_run};
use play_answers::{write_digest, write_numbers, write_told};
use play_fields::{Command, argument, sizes};
use play_lends::{Lent, Rooms, lend_items};
use script::{Fields, room};
use std::io;
use std::io::Write;
use worker::Workers;

// Room for an answer's line: call_script's longest, of a solve with 300 answers, has 4,853 bytes.
const ANSWER: usize = 8192;

// Makes the call that a line asks for, and writes its answer. A line that asks for none changes nothing.
fn play_call(
    command: Option<Command>,
    fields: &mut Fields<'_>,
    rooms: Rooms<'_>,
    counts: &mut Lent,
    out: &mut impl Write,
) -> io::Result<()> {
    let Rooms {
        matrix,
        lists,
        records,
        right,
        answers,
    } = rooms;
    let matrix = front(matrix, counts.matrix);
    let lists = front(lists, counts.lists);
    let records = front(records, counts.records);
    let workers = &mut counts.workers;
    let z = sizes(fields);
    let told = match command {
        Some(Command::Open) => {
            let reply = opening::open(z, matrix, lists, records, *workers);
            *workers = reply.workers;
            tell(reply.answer)
        }
        Some(Command::Take) => {
            let w = argument(fields) as usize;
            let p = argument(fields) as usize;
            let reply = taking::take(z, matrix, lists, records, *workers, w, p);
            *workers = reply.workers;
            tell(reply.answer)
        }
        Some(Command::Column) => {
            let w = argument(fields) as usize;
            let reply = working::column(z, matrix, lists, records, *workers, w);
            *workers = reply.workers;
            tell(reply.answer)
        }
        Some(Command::Run) => {
            let budget = argument(fields);
            let reply = runs::run(z, matrix, lists, records, *workers, budget);
            *workers = reply.workers;
            tell_run(reply.answer)
        }
        Some(Command::Outcome) => {
            tell_outcome(outcomes::outcome(z, matrix, lists, records, *workers))
        }
        Some(Command::Solve) => {
            let right = lend_items(fields, right);
            let answers = lend_items(fields, answers);
            let answer = solving::solve(z, matrix, lists, records, *workers, right, answers);
            write_told(out, tell(answer))?;
            write_numbers(out, answers)?;
            return write_digest(out, matrix, lists, records, *workers);
        }
        Some(Command::Lend) | None => tell(Ok(())),
    };
    write_told(out, told)?;
    write_digest(out, matrix, lists, records, *workers)
}

// The first n items that are lent, or all.
fn front<T>(items: &mut [T], n: usize) -> &mut [T] {
    let n = n.min(items.len());
    &mut items[..n]
}

// Plays a line on the fronts of the rooms that are lent, and writes its answer. What it lends counts at once.
fn play_line(
    line: &[u8],
    mut rooms: Rooms<'_>,
    counts: &mut Lent,
    out: &mut impl Write,
) -> io::Result<()> {
    let mut fields = Fields::of(line);
    let command = Command::from_code(fields.byte());
    if let Some(Command::Lend) = command {
        *counts = Lent::read(&mut fields, &mut rooms);
    }
    play_call(command, &mut fields, rooms, counts, out)
}

// Plays every line of a text, and writes the answers, of any length. The first that cannot be written ends it, and its error is told.
pub fn play(text: &[u8], rooms: Rooms<'_>, out: &mut impl Write) -> io::Result<()>
    ensures { length text.now ≡ 0 → IsOk result }
{
    let Rooms {
        matrix,
        lists,
        records,
        right,
        answers,
    } = rooms;
    let mut counts = Lent::nothing();
    let lines = text.split_inclusive(|b| *b == b'\n');
    for line in lines {
        let rooms = Rooms {
            matrix,
            lists,
            records,
            right,
            answers,
        };
        play_line(line, rooms, &mut counts, out)?;
    }
    Ok(())
}

// Plays every line of a text, and writes each answer at once. An answer longer than ANSWER is cut there; after one that cannot be written the play goes on.
pub fn play_on(text: &[u8], rooms: Rooms<'_>, out: &mut impl Write) {
    let Rooms {
        matrix,
        lists,
        records,
        right,
        answers,
    } = rooms;
    let mut counts = Lent::nothing();
    let mut answer = room::<u8, ANSWER>(0);
    for line in text.split_inclusive(|b| *b == b'\n') {
        let rooms = Rooms {
            matrix,
            lists,
            records,
            right,
            answers,
        };
        let mut rest = &mut answer[..];
        let _ = play_line(line, rooms, &mut counts, &mut rest);
        let n = ANSWER.saturating_sub(rest.len());
        let _ = out.write_all(&answer[..n]);
    }
}

#[cfg(test)]
mod tests {
    use super::*;
    use std::io::ErrorKind;

    // Plays a script on a matrix of one number, with room for 600 answers; how many bytes of out were written.
    fn play_into(script: &[u8], matrix: &mut [f64], out: &mut [u8]) -> io::Result<usize> {
        let rooms = Rooms {
            matrix,
            lists: &mut [],
            records: &mut [],
            right: &mut [],
            answers: &mut room::<f64, 600>(0.0),
        };
        let whole = out.len();
        let mut rest = out;
        play(script, rooms, &mut rest)?;
        whole
            .checked_sub(rest.len())
            .ok_or(ErrorKind::InvalidInput.into())
    }

    // A solve that is refused for its sizes tells all answers that it was lent: 600, the last of them 1. The reference program gave the digits.
    #[test]
    fn tells_a_long_answer(rt: HostRuntime) {
        let mut script = room::<u8, 9667>(b'0');
        for (at, bytes) in [
            (0, b"15".as_slice()),
            (63, b"258".as_slice()),
            (9650, b"3FF0".as_slice()),
            (9666, b"\n".as_slice()),
        ] {
            for (b, digit) in script.iter_mut().skip(at).zip(bytes) {
                *b = *digit;
            }
        }
        let mut out = room::<u8, 9653>(b' ');
        let written = play_into(&script, &mut [0.0], &mut out);
        assert_eq!(rt; written.unwrap_or(0), 9653);
        assert_eq!(rt; &out[..2], b"01".as_slice());
        assert!(rt; out[2..9620].iter().all(|b| *b == b'0'));
        assert_eq!(rt;
            &out[9620..],
            b"3FF0000000000000000000003FA1C1DA\n".as_slice()
        );
        let mut short = room::<u8, 9652>(b' ');
        assert!(rt; play_into(&script, &mut [0.0], &mut short).is_err());
    }

    // The second line lends the number 1. It is played only where the first answer, of 53 bytes, is written.
    #[test]
    fn ends_at_an_answer_that_is_not_written(rt: HostRuntime) {
        let script = b"00\n10000000013FF0000000000000\n";
        for (bytes, number, all) in [(52, 0.0, false), (53, 1.0, false), (106, 1.0, true)] {
            let mut matrix = [0.0];
            let mut out = room::<u8, 106>(b' ');
            assert!(rt; bytes <= out.len());
            let written = play_into(script, &mut matrix, &mut out[..bytes]);
            assert_eq!(rt; written.is_ok(), all, "{bytes}");
            assert!(rt; matrix[0] == number, "{bytes}");
        }
    }

    #[test]
    fn writes_nothing_of_an_empty_script(rt: HostRuntime) {
        let mut out = room::<u8, 1>(b' ');
        let written = play_into(b"", &mut [0.0], &mut out);
        assert_eq!(rt; written.unwrap_or(1), 0);
    }
}
