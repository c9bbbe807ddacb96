// What a failed or spoiled task leaves: +0 in its tiles, 0 in its lists.
#![tactic(auto)]

ghost use Rattle.std.specs.Prelude.{◌≡◌, ◌*◌, ◌<◌, replicate};
ghost use Rattle.model.specs.Lengths.{MatrixFits, ListsFit};
ghost use Rattle.model.specs.Tile.{zeros, upper_filled};
ghost use Rattle.model.specs.Plan.{plan_of};
ghost use Rattle.model.specs.Buffer.{tile, put_tile, put_rows, filled};
ghost use Rattle.checks.specs.Checks.{Sized, Inside, task_from};

use fills::fill_part;
use model::{Sizes, TaskRecord};
use places::{list_start, tile_start};
use steps::{Step, step_of};
use upper_fills::fill_upper;

// Fills tile (i,j).
fn fill_tile(z: Sizes, matrix: &mut [f64], i: usize, j: usize)
    requires { Sized z × MatrixFits z matrix.old × (i < z.tiles) × (j < z.tiles) }
    ensures { matrix.new ≡ put_tile z.tiles z.side i j (zeros (z.side * z.side)) matrix.old }
{
    let t = z.side;
    let start = tile_start(z.tiles, t, i, j);
    fill_part(matrix, start, t * t, 0.0);
}

// Fills the diagonal of tile (k,k), and all above it.
fn fill_upper_part(z: Sizes, matrix: &mut [f64], k: usize)
    requires { Sized z × MatrixFits z matrix.old × (k < z.tiles) }
    ensures { matrix.new ≡ put_tile z.tiles z.side k k (upper_filled z.side (tile z.tiles z.side matrix.old k k)) matrix.old }
{
    let t = z.side;
    let start = tile_start(z.tiles, t, k, k);
    fill_upper(matrix, start, t);
}

// Fills row list (i,j).
fn fill_list(z: Sizes, lists: &mut [u8], i: usize, j: usize)
    requires { Sized z × ListsFit z lists.old × (i < z.tiles) × (j < z.tiles) }
    ensures { lists.new ≡ put_rows z.tiles z.side i j (replicate z.side 0) lists.old }
{
    let t = z.side;
    let start = list_start(z.tiles, t, i, j);
    fill_part(lists, start, t, 0);
}

// Fills what the task writes.
pub fn fill_task(z: Sizes, matrix: &mut [f64], lists: &mut [u8], task: TaskRecord)
    requires { Sized z × MatrixFits z matrix.old × ListsFit z lists.old × Inside z.tiles task }
    ensures { record { matrix = matrix.new; lists = lists.new }
        ≡ filled (plan_of z) (task_from task) (record { matrix = matrix.old; lists = lists.old }) }
{
    match step_of(task) {
        Step::Factor { k } => {
            fill_tile(z, matrix, k, k);
            fill_list(z, lists, k, k);
        }
        Step::Apply { k, j } => fill_tile(z, matrix, k, j),
        Step::Couple { k, i } => {
            fill_tile(z, matrix, i, k);
            fill_upper_part(z, matrix, k);
            fill_list(z, lists, i, k);
        }
        Step::Pair { k, i, j } => {
            fill_tile(z, matrix, i, j);
            fill_tile(z, matrix, k, j);
        }
    }
}
