// A column of T-1 on a tile of one slice, given by where it starts.
#![tactic(auto)]

ghost use Rattle.std.specs.Prelude.{◌≡◌, true, ℕ, ◌*◌, ◌<◌};
ghost use Rattle.model.specs.Lists.{part};
ghost use Rattle.model.specs.Num.{finite, quotient};
ghost use Rattle.model.specs.Tile.{at, all_finite};
ghost use Rattle.column_laws.specs.Steps.{exchanged_at, TileFactored};
ghost use Rattle.column_laws.specs.Room.{Block};

use elimination::eliminate;
use exchanges::exchange;

// T-1, column c, on the tile at a, with the pivot in row y. False where a computed number isn't finite.
pub fn factor_rows(m: &mut [f64], t: usize, a: usize, c: usize, y: usize) -> bool
    requires block { Block t t a m.old }
    requires c_lt_t { (c < t) × (y < t) × (all_finite (part a (t * t) m.old) ≡ true) }
    requires by_index { (r : ℕ) → c < r → r < t → finite (quotient (at t (exchanged_at t c y a m.old) r c) (at t (exchanged_at t c y a m.old) c c)) ≡ true }
    ensures { TileFactored t c y a m.old m.new result }
{
    exchange(m, a + c * t, a + y * t, t);
    eliminate(m, t, a + (c + 1) * t, a + c * t, t - (c + 1), c)
}
