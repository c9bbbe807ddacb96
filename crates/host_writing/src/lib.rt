// Writing system and result files, for hosts. hosts/solumivaf.h declares them.
#![tactic(auto)]

ghost use Rattle.std.specs.Prelude.{◌≡◌};
ghost use Rattle.model.specs.Text.{write_system, write_result};
ghost use Rattle.host_answers.specs.Answers.{write_told, outcome_from};

use host_answers::{Told, outcome_from, tell_written};
use result_written::write_result;
use system_written::write_system;

// Writes a system file into the front of the lent text; the count is its length.
#[unsafe(no_mangle)]
pub extern "C" fn solumivaf_write_system(
    tiles: usize,
    side: usize,
    matrix: &[f64],
    text: &mut [u8],
) -> Told
    ensures { (result ≡ write_told (write_system tiles side matrix.now text.old).answer)
        × (text.new ≡ (write_system tiles side matrix.now text.old).left) }
{
    let answer = write_system(tiles, side, matrix, text);
    tell_written(answer)
}

// Writes a result file, whose outcome is told as a kind and a place; the count is its length.
#[unsafe(no_mangle)]
pub extern "C" fn solumivaf_write_result(
    tiles: usize,
    side: usize,
    matrix: &[f64],
    lists: &[u8],
    kind: u8,
    place: u16,
    text: &mut [u8],
) -> Told
    ensures { (result ≡ write_told (write_result tiles side matrix.now lists.now (outcome_from kind place) text.old).answer)
        × (text.new ≡ (write_result tiles side matrix.now lists.now (outcome_from kind place) text.old).left) }
{
    let answer = write_result(tiles, side, matrix, lists, outcome_from(kind, place), text);
    tell_written(answer)
}
