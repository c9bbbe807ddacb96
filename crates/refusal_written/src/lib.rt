// Writing the line of a refusal into a lent text: its front is filled, the length told, the rest left.
#![tactic(auto)]

ghost use Rattle.std.specs.Prelude.{◌≡◌};
ghost use Rattle.refusal_written.specs.Refusal.{write_refusal};

use lines_written::put_refusal;
use model::{Rule, WriteAnswer};

// Writes the line of a refusal: its number, and the four lowest digits of its place.
pub fn write_refusal(number: u8, place: usize, text: &mut [u8]) -> WriteAnswer
    ensures { record { answer = result; left = text.new } ≡ write_refusal number place text.old }
{
    if text.len() < 9 {
        return Err(Rule::NoRoom.at(0));
    }
    put_refusal(text, 0, number, place);
    Ok(9)
}
