// A tile as a part of the matrix.
#![tactic(auto)]

ghost use Rattle.std.specs.Prelude.{◌≡◌, ◌*◌, ◌<◌, ◌≤◌};
ghost use Rattle.model.specs.Lengths.{MatrixFits};
ghost use Rattle.model.specs.Limits.{most_tiles, most_side};
ghost use Rattle.model.specs.Buffer.{tile as tile_of};

use model::Sizes;
use places::tile_start;

// The t² numbers of tile (i,j).
pub fn tile(z: Sizes, matrix: &[f64], i: usize, j: usize) -> &[f64]
    requires { (z.tiles ≤ most_tiles) × (z.side ≤ most_side) × (i < z.tiles) × (j < z.tiles) × MatrixFits z matrix.now }
    ensures { result.now ≡ tile_of z.tiles z.side matrix.now i j }
{
    let n = z.tiles;
    let t = z.side;
    let s = t * t;
    let a = tile_start(n, t, i, j);
    &matrix[a..a + s]
}
