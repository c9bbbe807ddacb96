// The pivot of a column of T-1 and of T-3, on tiles of one slice, given by where they start.
#![tactic(auto)]

ghost use Rattle.std.specs.Prelude.{◌≡◌, true, ◌*◌, ◌<◌};
ghost use Rattle.model.specs.Lists.{part};
ghost use Rattle.model.specs.Tile.{all_finite};
ghost use Rattle.model.specs.Best.{FactorTold, CoupleTold};
ghost use Rattle.column_laws.specs.Room.{Block, TwoBlocks};

use model::Pivot;
use pivot_search::search_pivot;

// T-1's pivot of column c of the tile at a, told by the tile's row.
pub fn factor_pivot(m: &[f64], t: usize, a: usize, c: usize) -> Pivot
    requires block { Block t t a m.now }
    requires c_lt_t { (c < t) × (all_finite (part a (t * t) m.now) ≡ true) }
    ensures { FactorTold t c (part a (t * t) m.now) result }
{
    let best = search_pivot(m, a + (c * t + c), a + ((c + 1) * t + c), t, t - (c + 1));
    Pivot {
        place: c + best.place,
        ..best
    }
}

// T-3's pivot of column c of the upper tile at u and the lower tile at d, told by the list entry: 0, or r + 1 for lower row r.
pub fn couple_pivot(m: &[f64], t: usize, u: usize, d: usize, c: usize) -> Pivot
    requires two_blocks { TwoBlocks t t u d m.now }
    requires c_lt_t { (c < t) × (all_finite (part u (t * t) m.now) ≡ true) × (all_finite (part d (t * t) m.now) ≡ true) }
    ensures { CoupleTold t c (part u (t * t) m.now) (part d (t * t) m.now) result }
{
    search_pivot(m, u + (c * t + c), d + c, t, t)
}
