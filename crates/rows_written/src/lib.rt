// The tiles, written row by row into a lent text; the lengths of what writers write.
#![tactic(auto)]

pub mod sizes;

ghost use Rattle.std.specs.Prelude.{◌≡◌, ◌+◌, ◌*◌, ◌<◌, ◌≤◌, length};
ghost use Rattle.model.specs.Limits.{most_tiles, most_side};
ghost use Rattle.model.specs.Lists.{with_part};
ghost use Rattle.rows_written.specs.Rows.{tile_row, tile_rows};

use lines_written::put_tile;

// Writes row i of the n by n tiles of m, s numbers each.
fn put_tile_row(text: &mut [u8], at: usize, m: &[f64], n: usize, s: usize, i: usize)
    requires i_lt_n { (i < n) × (n ≤ most_tiles) × (s ≤ most_side * most_side) }
    requires s_in_bounds { at + n * (7 + s * 16) ≤ length text.old }
    requires s_in_bounds_2 { n * n * s ≤ length m.now }
    ensures { text.new ≡ with_part at (n * (7 + s * 16)) (tile_row n s m.now i) text.old }
{
    let mut place = at;
    for j in 0..n {
        put_tile(text, place, m, (i * n + j) * s, s, i, j);
        place += 7 + s * 16;
    }
}

// Writes the n by n tiles of m, s numbers each.
pub fn put_tiles(text: &mut [u8], at: usize, m: &[f64], n: usize, s: usize)
    requires n_le_most_tiles { (n ≤ most_tiles) × (s ≤ most_side * most_side) }
    requires s_in_bounds { at + n * (n * (7 + s * 16)) ≤ length text.old }
    requires s_in_bounds_2 { n * n * s ≤ length m.now }
    ensures { text.new ≡ with_part at (n * (n * (7 + s * 16))) (tile_rows n s m.now) text.old }
{
    let mut place = at;
    for i in 0..n {
        put_tile_row(text, place, m, n, s, i);
        place += n * (7 + s * 16);
    }
}
