// A column of T-4 on two blocks of one slice, given by where they start. A tile is a block of width t, a right side one of width 1.
#![tactic(auto)]

ghost use Rattle.std.specs.Prelude.{◌≡◌, true, ◌+◌, ◌*◌, ◌<◌, ◌≤◌};
ghost use Rattle.model.specs.Lists.{part};
ghost use Rattle.model.specs.Tile.{at, all_finite};
ghost use Rattle.column_laws.specs.Steps.{RowsPaired};
ghost use Rattle.column_laws.specs.Room.{Block, TwoBlocks};

use entry_exchanges::exchange_entry;
use row_updates::{update_column, update_rows};

// T-4, column c, on the tiles at u and d: exchanged by entry e, then the lower one updated. The multipliers are column c of the tile at f, which
// stands between them. False where a computed number isn't finite.
pub fn pair_rows(m: &mut [f64], t: usize, f: usize, u: usize, d: usize, c: usize, e: usize) -> bool
    requires two_blocks { TwoBlocks t t u d m.old }
    requires c_lt_t { (c < t) × (e ≤ t) × (u + t * t ≤ f) × (f + t * t ≤ d) }
    requires m_value { (all_finite (part u (t * t) m.old) ≡ true) × (all_finite (part d (t * t) m.old) ≡ true) }
    ensures { RowsPaired t t c e u d (λ i. at t (part f (t * t) m.old) i c) m.old m.new result }
{
    exchange_entry(m, t, t, 0, u, d, c, e);
    update_rows(m, d, u + c * t, t, 0, t, f + c)
}

// The same on the parts at u and d of a right side y, by the tile at f of the slice m. Not one function with pair_rows: there the multipliers stand in
// the slice that is changed, and a slice that is lent to be changed cannot be lent again to be read.
pub fn pair_right(
    y: &mut [f64],
    m: &[f64],
    t: usize,
    f: usize,
    u: usize,
    d: usize,
    c: usize,
    e: usize,
) -> bool
    requires two_blocks { TwoBlocks t 1 u d y.old }
    requires block { Block t t f m.now }
    requires c_lt_t { (c < t) × (e ≤ t) }
    requires y_value { (all_finite (part u (t * 1) y.old) ≡ true) × (all_finite (part d (t * 1) y.old) ≡ true) }
    ensures { RowsPaired t 1 c e u d (λ i. at t (part f (t * t) m.now) i c) y.old y.new result }
{
    exchange_entry(y, t, 1, 0, u, d, c, e);
    update_column(y, d, u + c, t, m, f + c, t)
}
