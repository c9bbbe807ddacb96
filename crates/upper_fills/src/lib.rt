// Filling the upper part of a tile with +0.
#![tactic(auto)]

ghost use Rattle.std.specs.Prelude.{◌≡◌, ◌+◌, ◌*◌, ◌≤◌, length};
ghost use Rattle.model.specs.Limits.{most_side};
ghost use Rattle.model.specs.Lists.{part, with_part};
ghost use Rattle.model.specs.Tile.{upper_filled};

use fills::fill_part;

// Sets the diagonal of the tile at start, and all above it, to +0.
pub fn fill_upper(m: &mut [f64], start: usize, t: usize)
    requires { (t ≤ most_side) × (start + t * t ≤ length m.old) }
    ensures { m.new ≡ with_part start (t * t) (upper_filled t (part start (t * t) m.old)) m.old }
{
    for r in 0..t {
        fill_part(m, start + r * t + r, t - r, 0.0);
    }
}
