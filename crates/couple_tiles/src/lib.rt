// A column of T-3 on two tiles of one slice, given by where they start.
#![tactic(auto)]

ghost use Rattle.std.specs.Prelude.{◌≡◌, true, ℕ, ◌*◌, ◌<◌, ◌≤◌};
ghost use Rattle.model.specs.Lists.{part};
ghost use Rattle.model.specs.Num.{finite, quotient};
ghost use Rattle.model.specs.Tile.{at, all_finite};
ghost use Rattle.column_laws.specs.Steps.{upper_at, lower_at, TilesCoupled};
ghost use Rattle.column_laws.specs.Room.{TwoBlocks};

use elimination::eliminate;
use entry_exchanges::exchange_entry;

// T-3, column c, on the tiles at u and d, with list entry e. False where a computed number isn't finite.
pub fn couple_rows(m: &mut [f64], t: usize, u: usize, d: usize, c: usize, e: usize) -> bool
    requires two_blocks { TwoBlocks t t u d m.old }
    requires c_lt_t { (c < t) × (e ≤ t) × (all_finite (part u (t * t) m.old) ≡ true) × (all_finite (part d (t * t) m.old) ≡ true) }
    requires by_index { (r : ℕ) → r < t → finite (quotient (at t (lower_at t t c c e u d m.old) r c) (at t (upper_at t t c c e u d m.old) c c)) ≡ true }
    ensures { TilesCoupled t c e u d m.old m.new result }
{
    exchange_entry(m, t, t, c, u, d, c, e);
    eliminate(m, t, d, u + c * t, t, c)
}
