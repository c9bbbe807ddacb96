// The tiles, the lists and the outcome of a result's checked text, into the lent buffers.
#![tactic(auto)]

ghost use Rattle.std.specs.Prelude.{◌≡◌, ◌*◌, length};
ghost use Rattle.result_loaded.specs.Results.{ResultLines, loaded_result};

use entries_read::load_lists;
use model::{FileRead, ReadAnswer};
use numbers_read::load_tiles;
use outcome_read::outcome_at;

// The buffers of a result whose text is accepted, and its answer.
pub fn load_result(
    text: &[u8],
    tiles: usize,
    side: usize,
    matrix: &mut [f64],
    lists: &mut [u8],
) -> ReadAnswer
    requires result_lines { ResultLines tiles side text.now }
    requires matrix_len { (length matrix.old ≡ tiles * tiles * (side * side)) × (length lists.old ≡ tiles * (tiles * side)) }
    ensures { record { answer = result; matrix = matrix.new; lists = lists.new } ≡ loaded_result tiles side text.now }
{
    let count = tiles * tiles;
    let numbers = side * side;
    load_tiles(text, 7, numbers, count, matrix);
    load_lists(text, 7 + count * (7 + 16 * numbers), tiles, side, lists);
    let from = text.len() - 9;
    let outcome = outcome_at(&text[from..]);
    Ok(FileRead::ResultRead(tiles, side, outcome))
}
