// Where tiles and row lists stand in the lent slices.
#![tactic(auto)]

ghost use Rattle.std.specs.Prelude.{◌≡◌, ◌<◌, ◌≤◌};
ghost use Rattle.model.specs.Limits.{most_tiles, most_side};
ghost use Rattle.column_laws.specs.Steps.{tile_start, list_start};

// Where tile (i,j) starts in the matrix.
pub fn tile_start(n: usize, t: usize, i: usize, j: usize) -> usize
    requires { (n ≤ most_tiles) × (t ≤ most_side) × (i < n) × (j < n) }
    ensures { result ≡ tile_start n t i j }
{
    (i * n + j) * (t * t)
}

// Where row list (i,j) starts in the lists.
pub fn list_start(n: usize, t: usize, i: usize, j: usize) -> usize
    requires { (n ≤ most_tiles) × (t ≤ most_side) × (i < n) × (j < n) }
    ensures { result ≡ list_start n t i j }
{
    (i * n + j) * t
}
