// One backward row of a solve: the number that it computes, or that some number on the way is not finite.
#![tactic(auto)]

ghost use Rattle.std.specs.Prelude.{◌≡◌, List, ℕ, ◌+◌, ◌*◌, ◌<◌};
ghost use Rattle.model.specs.Plan.{plan_of};
ghost use Rattle.model.specs.Solve.{row as row_of};
ghost use Rattle.subtractions.specs.Subtracted.{BackwardFits};

use model::Sizes;
use numbers::is_finite;
use places::tile_start;
use subtractions::{subtract, subtract_tiles};

// Row i·t + r: its number is y's own, less u·y for the columns right of the diagonal, left to right, divided by the diagonal.
pub fn back_row(z: Sizes, matrix: &[f64], y: &[f64], i: usize, r: usize) -> Option<f64>
    requires backward_fits { BackwardFits z matrix.now y.now }
    requires i_lt_tiles { (i < z.tiles) × (r < z.side) }
    ensures { (lists : List ℕ) → result ≡ row_of (plan_of z) (record { matrix = matrix.now; lists = lists }) (i * z.side + r) y.now }
{
    let t = z.side;
    let x = i * t + r;
    let own = tile_start(z.tiles, t, i, i) + r * t;
    let beside = subtract(matrix, y, own + (r + 1), x + 1, t - (r + 1), y[x]);
    let left = subtract_tiles(z, matrix, y, i, r, beside);
    let v = left / matrix[own + r];
    if is_finite(v) { Some(v) } else { None }
}
