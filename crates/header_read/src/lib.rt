// Line 1 of a text: the header.
#![tactic(auto)]

ghost use Rattle.std.specs.Prelude.{◌≡◌, ◌||◌, ◌*◌, ltb};
ghost use Rattle.model.specs.Text.{bad_shape};
ghost use Rattle.header_read.specs.Heads.{header_of, sizes_in, Foretells};

use digits_read::field_at;
use lines_read::is_malformed;
use model::{FileRead, MOST_ORDER, ReadAnswer, Refusal, Rule};
use shapes::bad_shape;

// N and t.
#[derive(Clone, Copy, Debug, PartialEq, Eq)]
pub struct Shape {
    pub tiles: usize,
    pub side: usize,
}

// N and t of an accepted header, or its refusal.
pub type Header = Result<Shape, Refusal>;

// 1: N or t outside its range, or n above the limit.
fn refused_shape(tiles: usize, side: usize, limit: usize) -> bool
    ensures { result ≡ (bad_shape tiles side || ltb limit (tiles * side)) }
{
    if bad_shape(tiles, side) {
        return true;
    }
    limit < tiles * side
}

// Line 1. A system larger than the limit is refused as a size.
pub fn check_header(text: &[u8], limit: usize) -> Header
    ensures { result ≡ header_of limit text.now }
{
    if text.is_empty() {
        return Err(Rule::WrongEnd.at(1));
    }
    if text.len() < 7 {
        return Err(Rule::Malformed.at(1));
    }
    let line = &text[..7];
    if is_malformed(line, 0) {
        return Err(Rule::Malformed.at(1));
    }
    if field_at(line, 0, 2) != 1 {
        return Err(Rule::WrongFrame.at(1));
    }
    let tiles = field_at(line, 2, 2);
    let side = field_at(line, 4, 2);
    if refused_shape(tiles, side, limit) {
        return Err(Rule::BadSizes.at(1));
    }
    Ok(Shape { tiles, side })
}

// N and t by line 1 of a system or of a result, whatever comes after it.
pub fn read_sizes(text: &[u8]) -> ReadAnswer
    ensures value { result ≡ sizes_in text.now }
    ensures foretells { Foretells text.now result }
{
    let shape = check_header(text, MOST_ORDER)?;
    Ok(FileRead::SystemRead(shape.tiles, shape.side))
}
