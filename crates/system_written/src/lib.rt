// Writing system files into a lent text: its front is filled, the length told, the rest left.
#![tactic(auto)]

ghost use Rattle.std.specs.Prelude.{◌≡◌, [], ◌*◌, ◌≤◌, length};
ghost use Rattle.model.specs.Limits.{most_tiles, most_side};
ghost use Rattle.model.specs.Lists.{with_part};
ghost use Rattle.model.specs.Plan.{plan};
ghost use Rattle.model.specs.Text.{system_text, write_system};
ghost use Rattle.rows_written.specs.Rows.{system_length};

use lines_written::put_header;
use model::{Rule, WriteAnswer};
use rows_written::put_tiles;
use rows_written::sizes::system_length;
use shapes::bad_shape;

// Writes the text of a system of n by n tiles, t by t each.
pub fn put_system(text: &mut [u8], m: &[f64], n: usize, t: usize)
    requires n_le_most_tiles { (n ≤ most_tiles) × (t ≤ most_side) }
    requires t_in_bounds { system_length n t ≤ length text.old }
    requires t_in_bounds_2 { n * n * (t * t) ≤ length m.now }
    ensures { text.new ≡ with_part 0 (system_length n t) (system_text (plan n t) (record { matrix = m.now; lists = [] })) text.old }
{
    put_header(text, 0, n, t);
    put_tiles(text, 7, m, n, t * t);
}

// Writes a system file: n by n tiles of a matrix, t by t each.
pub fn write_system(n: usize, t: usize, matrix: &[f64], text: &mut [u8]) -> WriteAnswer
    ensures { record { answer = result; left = text.new } ≡ write_system n t matrix.now text.old }
{
    if bad_shape(n, t) {
        return Err(Rule::BadSizes.at(0));
    }
    if matrix.len() != n * t * (n * t) {
        return Err(Rule::BadLengths.at(0));
    }
    let length = system_length(n, t);
    if text.len() < length {
        return Err(Rule::NoRoom.at(0));
    }
    put_system(text, matrix, n, t);
    Ok(length)
}
