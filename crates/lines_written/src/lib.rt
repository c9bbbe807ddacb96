// One line of a file, the frame of each kind, written into a lent text from a place on; the rest of the text stays.
#![tactic(auto)]

ghost use Rattle.std.specs.Prelude.{◌≡◌, map, ◌++◌, ◌+◌, ◌*◌, ◌≤◌, length};
ghost use Rattle.model.specs.Lists.{joined, part, with_part};
ghost use Rattle.model.specs.Text.{hex, bits, line, outcome_frame, refusal_frame};

use digits_written::{put_entries, put_hex, put_numbers};
use model::Outcome;

// Writes three numbers of two digits.
fn put_three(text: &mut [u8], at: usize, a: u64, b: u64, c: u64)
    requires { at + 6 ≤ length text.old }
    ensures { text.new ≡ with_part at 6 (hex 2 a ++ hex 2 b ++ hex 2 c) text.old }
{
    put_hex(text, at, 2, a);
    put_hex(text, at + 2, 2, b);
    put_hex(text, at + 4, 2, c);
}

// Writes a line of a kind, a number of two digits and one of four.
fn put_short(text: &mut [u8], at: usize, kind: u64, a: u64, b: u64)
    requires { at + 9 ≤ length text.old }
    ensures { text.new ≡ with_part at 9 (line (hex 2 kind ++ hex 2 a ++ hex 4 b)) text.old }
{
    put_hex(text, at, 2, kind);
    put_hex(text, at + 2, 2, a);
    put_hex(text, at + 4, 4, b);
    text[at + 8] = 10;
}

// Writes the header of n by n tiles, t by t each.
pub fn put_header(text: &mut [u8], at: usize, n: usize, t: usize)
    requires { at + 7 ≤ length text.old }
    ensures { text.new ≡ with_part at 7 (line (hex 2 1 ++ hex 2 n ++ hex 2 t)) text.old }
{
    put_three(text, at, 1, n as u64, t as u64);
    text[at + 6] = 10;
}

// Writes tile (i,j), whose n numbers stand in m from start on.
pub fn put_tile(text: &mut [u8], at: usize, m: &[f64], start: usize, n: usize, i: usize, j: usize)
    requires n_in_bounds { at + (7 + n * 16) ≤ length text.old }
    requires n_in_bounds_2 { start + n ≤ length m.now }
    ensures { text.new ≡ with_part at (7 + n * 16) (line (hex 2 2 ++ hex 2 i ++ hex 2 j ++ joined (map bits (part start n m.now)))) text.old }
{
    put_three(text, at, 2, i as u64, j as u64);
    put_numbers(text, at + 6, m, start, n);
    text[at + 6 + n * 16] = 10;
}

// Writes row list (i,j), whose n entries stand in l from start on. It is put_tile with another type, kind and writer: one form for both needs a trait that
// has these and the digits of an element, with a law of their count, and is longer than three calls.
pub fn put_list(text: &mut [u8], at: usize, l: &[u8], start: usize, n: usize, i: usize, j: usize)
    requires n_in_bounds { at + (7 + n * 2) ≤ length text.old }
    requires n_in_bounds_2 { start + n ≤ length l.now }
    ensures { text.new ≡ with_part at (7 + n * 2) (line (hex 2 3 ++ hex 2 i ++ hex 2 j ++ joined (map (hex 2) (part start n l.now)))) text.old }
{
    put_three(text, at, 3, i as u64, j as u64);
    put_entries(text, at + 6, l, start, n);
    text[at + 6 + n * 2] = 10;
}

// Writes the outcome.
#[tactic(auto, unfolding(model::specs::Text::outcome_frame))]
pub fn put_outcome(text: &mut [u8], at: usize, outcome: Outcome)
    requires { at + 9 ≤ length text.old }
    ensures { text.new ≡ with_part at 9 (outcome_frame outcome) text.old }
{
    match outcome {
        Outcome::Good => put_short(text, at, 4, 0, 0),
        Outcome::Overflow(p) => put_short(text, at, 4, 1, u64::from(p)),
        Outcome::Singular(x) => put_short(text, at, 4, 2, u64::from(x)),
    }
}

// Writes a refusal: its number and the four lowest digits of its place.
#[tactic(auto, unfolding(model::specs::Text::refusal_frame))]
pub fn put_refusal(text: &mut [u8], at: usize, number: u8, place: usize)
    requires { at + 9 ≤ length text.old }
    ensures { text.new ≡ with_part at 9 (refusal_frame number place) text.old }
{
    put_short(text, at, 5, u64::from(number), place as u64);
}
