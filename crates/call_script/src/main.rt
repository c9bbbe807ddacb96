// Plays a script of calls from standard input and prints the answers: the script in stdin and the answers in stdout come from the
// reference program. Right side and answers of a solve have at most 300 numbers.
#![tactic(auto)]

ghost use Rattle.std.specs.Prelude.{◌≤◌, length};

use play_lends::Rooms;
use records::{RECORD, Record};
use script::room;
use std::io;
use std::io::{Read, Write};

// Reads until the text is full, the input ends or a read fails, and tells how many bytes it read.
fn read_full(from: &mut impl Read, text: &mut [u8]) -> usize
    ensures { result ≤ length text.new }
{
    let whole = text.len();
    let mut rest = text;
    while let Ok(n @ 1..) = from.read(rest) {
        rest = &mut rest[n..];
    }
    whole - rest.len()
}

// Reads the script to text, and plays it.
fn play_script(from: &mut impl Read, text: &mut [u8], out: &mut impl Write) {
    let n = read_full(from, text);
    let rooms = Rooms {
        matrix: &mut room::<f64, 65600>(0.0),
        lists: &mut room::<u8, 4200>(0),
        records: &mut room::<Record, 1500>([0; RECORD]),
        right: &mut room::<f64, 300>(0.0),
        answers: &mut room::<f64, 300>(0.0),
    };
    play::play_on(&text[..n], rooms, out);
}

fn main(rt: HostRuntime) {
    let mut text = room::<u8, 3700000>(0);
    play_script(&mut rt.stdin(), &mut text, &mut io::writer(&rt));
}
