// What a failed T-3 leaves, on two tiles of one slice and a row list, given by where they start.
#![tactic(auto)]

ghost use Rattle.std.specs.Prelude.{◌≡◌, ◌+◌, ◌*◌, ◌≤◌, length, replicate};
ghost use Rattle.model.specs.Limits.{most_side};
ghost use Rattle.model.specs.Lists.{part, with_part};
ghost use Rattle.model.specs.Tile.{zeros, upper_filled};

use fills::fill_part;
use upper_fills::fill_upper;

// Fills the lower tile at d, the upper part of the tile at u, and the list at p.
pub fn fill_coupled(matrix: &mut [f64], lists: &mut [u8], t: usize, u: usize, d: usize, p: usize)
    requires { (t ≤ most_side) × (u + t * t ≤ length matrix.old) × (d + t * t ≤ length matrix.old) × (p + t ≤ length lists.old) }
    ensures matrix_after { matrix.new ≡ with_part u (t * t) (upper_filled t (part u (t * t) (with_part d (t * t) (zeros (t * t)) matrix.old)))
        (with_part d (t * t) (zeros (t * t)) matrix.old) }
    ensures lists_after { lists.new ≡ with_part p t (replicate t 0) lists.old }
{
    fill_part(matrix, d, t * t, 0.0);
    fill_upper(matrix, u, t);
    fill_part(lists, p, t, 0);
}
