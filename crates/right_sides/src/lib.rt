// Every T-2 and T-4 done to the right side, which is for them a tile column with one column of numbers.
#![tactic(auto)]

ghost use Rattle.std.specs.Prelude.{◌≡◌, ◌<◌, length};
ghost use Rattle.model.specs.Lists.{in_turn};
ghost use Rattle.model.specs.Plan.{plan_of};
ghost use Rattle.model.specs.Task.{after, tasks};
ghost use Rattle.model.specs.Solve.{going, applied, pass as passOf};
ghost use Rattle.progress.specs.Right.{Solvable, RightSide, ColumnPassed, Passing, apply_all, pair_all, stage_passed};

use apply_blocks::apply_right;
use block_starts::start_block;
use model::Sizes;
use places::{list_start, tile_start};
use right_pairs::pair;

// Column c of T-2(k) on the right side y. False where a computed number isn't finite.
fn apply_right_column(
    z: Sizes,
    matrix: &[f64],
    lists: &[u8],
    y: &mut [f64],
    k: usize,
    c: usize,
) -> bool
    requires solvable { Solvable z matrix.now lists.now }
    requires right_side { RightSide z y.old }
    requires k_lt_tiles { (k < z.tiles) × (c < z.side) }
    ensures { ColumnPassed k y.new result
        (applied (plan_of z) (record { matrix = matrix.now; lists = lists.now }) k c (going y.old)) }
{
    let n = z.tiles;
    let t = z.side;
    let f = tile_start(n, t, k, k);
    let p = list_start(n, t, k, k);
    let a = k * t;
    start_block(y, lists, t, 1, a, p, c);
    apply_right(y, matrix, t, f, a, c)
}

// T-2(k) on the right side y.
fn apply(z: Sizes, matrix: &[f64], lists: &[u8], y: &mut [f64], k: usize) -> Result<(), usize>
    requires solvable { Solvable z matrix.now lists.now }
    requires right_side { RightSide z y.old }
    requires k_lt_tiles { k < z.tiles }
    ensures { Passing result y.new
        (apply_all (plan_of z) (record { matrix = matrix.now; lists = lists.now }) k (going y.old)) }
{
    for c in 0..z.side {
        if !apply_right_column(z, matrix, lists, y, k, c) {
            return Err(k);
        }
    }
    Ok(())
}

// T-4(k,i) on the right side y for i rising.
fn pair_below(z: Sizes, matrix: &[f64], lists: &[u8], y: &mut [f64], k: usize) -> Result<(), usize>
    requires solvable { Solvable z matrix.now lists.now }
    requires right_side { RightSide z y.old }
    requires k_lt_tiles { k < z.tiles }
    ensures { Passing result y.new
        (in_turn (pair_all (plan_of z) (record { matrix = matrix.now; lists = lists.now }) k) (after z.tiles k) (going y.old)) }
{
    for i in k + 1..z.tiles {
        pair(z, matrix, lists, y, k, i)?;
    }
    Ok(())
}

// T-2(k), then T-4(k,i) for i rising, on the right side y.
fn stage(z: Sizes, matrix: &[f64], lists: &[u8], y: &mut [f64], k: usize) -> Result<(), usize>
    requires solvable { Solvable z matrix.now lists.now }
    requires right_side { RightSide z y.old }
    requires k_lt_tiles { k < z.tiles }
    ensures { Passing result y.new
        (stage_passed (plan_of z) (record { matrix = matrix.now; lists = lists.now }) k (going y.old)) }
{
    apply(z, matrix, lists, y, k)?;
    pair_below(z, matrix, lists, y, k)
}

// Passes the right side y through the T-2 and T-4 of all tasks in number order. Where a computed number isn't finite the place is told,
// k in a T-2 and i in a T-4, and what is left in y is free but for its length.
pub fn pass(z: Sizes, matrix: &[f64], lists: &[u8], y: &mut [f64]) -> Result<(), usize>
    requires solvable { Solvable z matrix.now lists.now }
    requires right_side { RightSide z y.old }
    ensures passing { Passing result y.new
        (in_turn (passOf (plan_of z) (record { matrix = matrix.now; lists = lists.now })) (tasks z.tiles) (going y.old)) }
    ensures y_len_unchanged { length y.new ≡ length y.old }
{
    for k in 0..z.tiles {
        stage(z, matrix, lists, y, k)?;
    }
    Ok(())
}
