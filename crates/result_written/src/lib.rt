// Writing result files into a lent text: its front is filled, the length told, the rest left.
#![tactic(auto)]

ghost use Rattle.std.specs.Prelude.{◌≡◌, ◌*◌, ◌≤◌, length};
ghost use Rattle.model.specs.Limits.{most_tiles, most_side};
ghost use Rattle.model.specs.Lists.{with_part};
ghost use Rattle.model.specs.Plan.{plan};
ghost use Rattle.model.specs.Text.{result_text, write_result};
ghost use Rattle.rows_written.specs.Rows.{result_length};

use lines_written::put_outcome;
use lists_written::put_lists;
use model::{Outcome, Rule, WriteAnswer};
use rows_written::sizes::{result_length, system_length};
use shapes::bad_shape;
use system_written::put_system;

// Writes the text of a result.
fn put_result(text: &mut [u8], m: &[f64], l: &[u8], n: usize, t: usize, outcome: Outcome)
    requires n_le_most_tiles { (n ≤ most_tiles) × (t ≤ most_side) }
    requires t_in_bounds { result_length n t ≤ length text.old }
    requires t_in_bounds_2 { n * n * (t * t) ≤ length m.now }
    requires t_in_bounds_3 { n * n * t ≤ length l.now }
    ensures { text.new ≡ with_part 0 (result_length n t) (result_text (plan n t) (record { matrix = m.now; lists = l.now }) outcome) text.old }
{
    put_system(text, m, n, t);
    put_lists(text, system_length(n, t), l, n, t);
    put_outcome(text, result_length(n, t) - 9, outcome);
}

// Writes a result file: a system's tiles, the row lists on and below the diagonal, and the outcome.
pub fn write_result(
    n: usize,
    t: usize,
    matrix: &[f64],
    lists: &[u8],
    outcome: Outcome,
    text: &mut [u8],
) -> WriteAnswer
    ensures { record { answer = result; left = text.new } ≡ write_result n t matrix.now lists.now outcome text.old }
{
    if bad_shape(n, t) {
        return Err(Rule::BadSizes.at(0));
    }
    if matrix.len() != n * t * (n * t) {
        return Err(Rule::BadLengths.at(0));
    }
    if lists.len() != n * n * t {
        return Err(Rule::BadLengths.at(0));
    }
    let length = result_length(n, t);
    if text.len() < length {
        return Err(Rule::NoRoom.at(0));
    }
    put_result(text, matrix, lists, n, t, outcome);
    Ok(length)
}
