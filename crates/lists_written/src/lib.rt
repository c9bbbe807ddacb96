// The row lists with I ≥ J, written row by row into a lent text.
#![tactic(auto)]

ghost use Rattle.std.specs.Prelude.{◌≡◌, ◌+◌, ◌*◌, ◌<◌, ◌≤◌, length};
ghost use Rattle.model.specs.Limits.{most_tiles, most_side};
ghost use Rattle.model.specs.Lists.{with_part};
ghost use Rattle.rows_written.specs.Rows.{list_row, list_rows, triangle};

use lines_written::put_list;

// Writes lists (i,0) to (i,i) of the n by n row lists of l, t entries each. The loops here and those of rows_written differ in type, writer and the length
// of a row: one that is given a closure for the writer is no shorter than a loop.
fn put_list_row(text: &mut [u8], at: usize, l: &[u8], n: usize, t: usize, i: usize)
    requires i_lt_n { (i < n) × (n ≤ most_tiles) × (t ≤ most_side) }
    requires t_in_bounds { at + (i + 1) * (7 + t * 2) ≤ length text.old }
    requires t_in_bounds_2 { n * n * t ≤ length l.now }
    ensures { text.new ≡ with_part at ((i + 1) * (7 + t * 2)) (list_row n t l.now i) text.old }
{
    let mut place = at;
    for j in 0..i + 1 {
        put_list(text, place, l, (i * n + j) * t, t, i, j);
        place += 7 + t * 2;
    }
}

// Writes the row lists with I ≥ J.
pub fn put_lists(text: &mut [u8], at: usize, l: &[u8], n: usize, t: usize)
    requires n_le_most_tiles { (n ≤ most_tiles) × (t ≤ most_side) }
    requires t_in_bounds { at + triangle n * (7 + t * 2) ≤ length text.old }
    requires t_in_bounds_2 { n * n * t ≤ length l.now }
    ensures { text.new ≡ with_part at (triangle n * (7 + t * 2)) (list_rows n t l.now) text.old }
{
    let mut place = at;
    for i in 0..n {
        put_list_row(text, place, l, n, t, i);
        place += (i + 1) * (7 + t * 2);
    }
}
