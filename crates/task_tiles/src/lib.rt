// Refusal 4's test of the tiles that a task touches: an element that isn't finite.
#![tactic(auto)]

ghost use Rattle.std.specs.Prelude.{◌≡◌, not, ◌&&◌, List, ℕ, ◌<◌};
ghost use Rattle.model.specs.Lengths.{MatrixFits};
ghost use Rattle.model.specs.Tile.{all_finite};
ghost use Rattle.model.specs.Plan.{plan_of};
ghost use Rattle.model.specs.Buffer.{tile as tile_of, finite_tiles};
ghost use Rattle.checks.specs.Checks.{Sized, Inside, task_from};

use finite_numbers::all_finite;
use model::{Sizes, TaskRecord};
use steps::{Step, step_of};
use tile_parts::tile;

// Whether every element of tile A(i,j) is finite.
fn finite_tile(z: Sizes, matrix: &[f64], i: usize, j: usize) -> bool
    requires { Sized z × MatrixFits z matrix.now × (i < z.tiles) × (j < z.tiles) }
    ensures { result ≡ all_finite (tile_of z.tiles z.side matrix.now i j) }
{
    all_finite(tile(z, matrix, i, j))
}

// Whether every element of tiles A(i,j) and A(k,l) is finite.
fn finite_pair(z: Sizes, matrix: &[f64], i: usize, j: usize, k: usize, l: usize) -> bool
    requires { Sized z × MatrixFits z matrix.now × ((i < z.tiles) × (j < z.tiles) × (k < z.tiles) × (l < z.tiles)) }
    ensures { result ≡ all_finite (tile_of z.tiles z.side matrix.now i j) && all_finite (tile_of z.tiles z.side matrix.now k l) }
{
    finite_tile(z, matrix, i, j) && finite_tile(z, matrix, k, l)
}

// Whether an element of a tile that the task touches isn't finite.
pub fn bad_tiles(z: Sizes, matrix: &[f64], task: TaskRecord) -> bool
    requires { Sized z × MatrixFits z matrix.now × Inside z.tiles task }
    ensures { (lists : List ℕ) → result ≡ not (finite_tiles (plan_of z) (task_from task) (record { matrix = matrix.now; lists = lists })) }
{
    let finite = match step_of(task) {
        Step::Factor { k } => finite_tile(z, matrix, k, k),
        Step::Apply { k, j } => finite_pair(z, matrix, k, k, k, j),
        Step::Couple { k, i } => finite_pair(z, matrix, k, k, i, k),
        Step::Pair { k, i, j } => finite_tile(z, matrix, i, k)
            && finite_pair(z, matrix, k, j, i, j),
    };
    !finite
}
