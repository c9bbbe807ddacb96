// The tests of one line: refusals 12, 13 and 3. The line is as long as the kind that is due says.
#![tactic(auto)]

ghost use Rattle.std.specs.Prelude.{◌≡◌, ◌+◌, ◌*◌, ◌≤◌, length};
ghost use Rattle.model.specs.declared.Refusal.{Refusal};
ghost use Rattle.model.specs.Answer.{accepted};
ghost use Rattle.model.specs.Limits.{most_side};
ghost use Rattle.model.specs.Read.{not_digits, wrong_frame, not_finite_in, line_length, line_answer};
ghost use Rattle.lines_read.specs.Line.{LineOfDigits, kind_number, frame_of, malformed, bad_entries, bad_outcome};

use digits_read::{all_digits, field_at, finite_at};
use model::{Answer, Rule};

// The kinds of frames.
#[derive(Clone, Copy, PartialEq, Eq, Debug)]
pub enum Kind {
    Header,
    Tile,
    List,
    Outcome,
    Refusal,
}

impl Kind {
    // The number that a line of this kind begins with.
    pub fn number(self) -> usize
        ensures { result ≡ kind_number self }
    {
        match self {
            Kind::Header => 1,
            Kind::Tile => 2,
            Kind::List => 3,
            Kind::Outcome => 4,
            Kind::Refusal => 5,
        }
    }
}

// The frame that is due on a line: its kind, and its I and J where it has them.
#[derive(Clone, Copy)]
pub struct Due {
    // The number that its line begins with.
    pub kind: usize,
    pub i: usize,
    pub j: usize,
}

// The line isn't digits ended by 0A.
#[tactic(auto, unfolding(model::specs::Read::not_digits))]
fn not_digits(line: &[u8]) -> bool
    requires { 1 ≤ length line.now }
    ensures { result ≡ not_digits line.now }
{
    let last = line.len() - 1;
    if line[last] != 10 {
        return true;
    }
    !all_digits(&line[..last])
}

// An entry of a list's line exceeds t.
fn bad_entries(line: &[u8], t: usize) -> bool
    requires line_of_digits { LineOfDigits line.now }
    requires t_le_most_side { t ≤ most_side }
    ensures { result ≡ bad_entries t line.now }
{
    if line.len() != 7 + 2 * t {
        return false;
    }
    (0..t).any(|x| t < field_at(line, 6 + 2 * x, 2))
}

// An outcome exceeds 02, or good has a place other than 0.
#[tactic(auto, unfolding(crate::specs::Line::bad_outcome))]
fn bad_outcome(line: &[u8]) -> bool
    requires { LineOfDigits line.now }
    ensures { result ≡ bad_outcome line.now }
{
    if line.len() != 9 {
        return false;
    }
    let outcome = field_at(line, 2, 2);
    if 2 < outcome {
        return true;
    }
    if outcome != 0 {
        return false;
    }
    field_at(line, 4, 4) != 0
}

// 12: other bytes than digits before the 0A, no 0A, a kind that no frame has, or contents that its kind does not allow.
#[tactic(auto, unfolding(crate::specs::Line::malformed, model::specs::Read::bad_content, model::specs::Read::kind_in, model::specs::Read::line_length, model::specs::Refusal::inside))]
pub fn is_malformed(line: &[u8], t: usize) -> bool
    requires in_bounds { 7 ≤ length line.now }
    requires t_le_most_side { t ≤ most_side }
    ensures { result ≡ malformed t line.now }
{
    if not_digits(line) {
        return true;
    }
    match field_at(line, 0, 2) {
        1 | 2 | 5 => false,
        3 => bad_entries(line, t),
        4 => bad_outcome(line),
        _ => true,
    }
}

// 13: the frame isn't the one due.
#[tactic(auto, unfolding(model::specs::Read::wrong_frame, model::specs::Read::kind_in))]
fn wrong_frame(line: &[u8], due: Due) -> bool
    requires { LineOfDigits line.now }
    ensures { result ≡ wrong_frame (frame_of due) line.now }
{
    if field_at(line, 0, 2) != due.kind {
        return true;
    }
    if due.kind == Kind::Outcome.number() {
        return false;
    }
    if field_at(line, 2, 2) != due.i {
        return true;
    }
    field_at(line, 4, 2) != due.j
}

// 3: the frame due is a tile, and one of its numbers isn't finite.
fn not_finite(line: &[u8], t: usize, due: Due) -> bool
    requires line_of_digits { LineOfDigits line.now }
    requires line_len { length line.now ≡ line_length t due.kind }
    requires t_le_most_side { t ≤ most_side }
    ensures { result ≡ not_finite_in t (frame_of due) line.now }
{
    if due.kind != Kind::Tile.number() {
        return false;
    }
    (0..t * t).any(|x| !finite_at(line, 6 + 16 * x))
}

// What line x answers by itself, where the frame is due.
pub fn line_answer(line: &[u8], x: usize, t: usize, due: Due) -> Answer
    requires line_len { length line.now ≡ line_length t due.kind }
    requires t_le_most_side { t ≤ most_side }
    ensures { result ≡ line_answer t x (frame_of due) line.now accepted }
{
    if is_malformed(line, t) {
        return Err(Rule::Malformed.at(x));
    }
    if wrong_frame(line, due) {
        return Err(Rule::WrongFrame.at(x));
    }
    if not_finite(line, t, due) {
        return Err(Rule::NotFinite.at(x));
    }
    Ok(())
}
