// What a backward row subtracts from its number: products of the matrix and the numbers found below it.
#![tactic(auto)]

ghost use Rattle.std.specs.Prelude.{◌≡◌, List, ℕ, suc, ◌+◌, ◌-◌, ◌*◌, ◌<◌, ◌≤◌, length, get_or};
ghost use Rattle.std.specs.Float.{nan};
ghost use Rattle.model.specs.Lists.{run};
ghost use Rattle.model.specs.Num.{update as updated};
ghost use Rattle.model.specs.Plan.{plan_of};
ghost use Rattle.model.specs.Solve.{row_left};
ghost use Rattle.subtractions.specs.Subtracted.{subtracted, BackwardFits};

use model::Sizes;
use places::tile_start;

// What is left of d once u·y[p] is subtracted, or d itself where u is a zero. y is read only where u is none: that leaves a branch, which is
// predicted, and no subtraction waits for a choice.
fn subtract_one(d: f64, u: f64, y: &[f64], p: usize) -> f64
    requires { p < length y.now }
    ensures { result ≡ updated d u (get_or y.now p nan) }
{
    if u == 0.0 { d } else { d - u * y[p] }
}

// What is left of d once the products of the `count` numbers from a on in the matrix with those from b on in y are subtracted, left to
// right, skipped where the matrix has a zero.
pub fn subtract(matrix: &[f64], y: &[f64], a: usize, b: usize, count: usize, d: f64) -> f64
    requires { (a + count ≤ length matrix.now) × (b + count ≤ length y.now) }
    ensures { result ≡ subtracted (λ j. get_or matrix.now (a + j) nan) (λ j. get_or y.now (b + j) nan) 0 count d }
{
    let mut left = d;
    for j in 0..count {
        left = subtract_one(left, matrix[a + j], y, b + j);
    }
    left
}

// What is left of d once u·y is subtracted for the columns of the tiles right of the diagonal tile in row r of tile row i, left to right.
pub fn subtract_tiles(z: Sizes, matrix: &[f64], y: &[f64], i: usize, r: usize, d: f64) -> f64
    requires backward_fits { BackwardFits z matrix.now y.now }
    requires i_lt_tiles { (i < z.tiles) × (r < z.side) }
    ensures { (lists : List ℕ) → result ≡ row_left (plan_of z) (record { matrix = matrix.now; lists = lists }) (i * z.side + r) y.now
        (run (suc i * z.side) (z.tiles * z.side - suc i * z.side)) d }
{
    let n = z.tiles;
    let t = z.side;
    let mut left = d;
    for j in i + 1..n {
        left = subtract(matrix, y, tile_start(n, t, i, j) + r * t, j * t, t, left);
    }
    left
}
