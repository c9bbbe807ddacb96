// How much of its input the program has to read.
#![tactic(auto)]

ghost use Rattle.std.specs.Prelude.{◌≡◌, List, ℕ, ◌≤◌, take};
ghost use Rattle.model.specs.Read.{program};
ghost use Rattle.input_due.specs.Due.{bytes_due};

use header_read::{Shape, check_header};
use model::PROGRAM_ORDER;

// How many bytes decide what the program prints, told from the first 7, or from all where there are fewer: what comes after them plays no
// part. It is one byte more than a system with this header has, and 7 where the header is refused.
pub fn bytes_due(front: &[u8]) -> usize
    ensures value { result ≡ bytes_due front.now }
    ensures by_index { (text : List ℕ) → take 7 text ≡ take 7 front.now → program (take result text) ≡ program text }
    ensures lower_bound { (7 ≤ result) × (result ≤ 38664) }
{
    match check_header(front, PROGRAM_ORDER) {
        Ok(Shape { tiles, side }) => 8 + tiles * (tiles * (7 + side * side * 16)),
        Err(_) => 7,
    }
}
