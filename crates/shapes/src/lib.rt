// The test of N and t that calls, readers and writers share.
#![tactic(auto)]

ghost use Rattle.std.specs.Prelude.{◌≡◌};
ghost use Rattle.model.specs.Text.{bad_shape};

use model::{MOST_SIDE, MOST_TILES};

// Whether N or t is outside its range.
pub fn bad_shape(n: usize, t: usize) -> bool
    ensures { result ≡ bad_shape n t }
{
    let tiles_fit = (1 <= n) & (n <= MOST_TILES);
    let side_fits = (1 <= t) & (t <= MOST_SIDE);
    !(tiles_fit & side_fits)
}
