// A column of T-2 on a block of one slice, given by where it starts. A tile is a block of width t, a right side one of width 1.
#![tactic(auto)]

ghost use Rattle.std.specs.Prelude.{◌≡◌, true, ◌+◌, ◌*◌, ◌<◌, ◌≤◌};
ghost use Rattle.model.specs.Lists.{part};
ghost use Rattle.model.specs.Tile.{at, all_finite};
ghost use Rattle.column_laws.specs.Steps.{RowsApplied};
ghost use Rattle.column_laws.specs.Room.{Block};

use row_updates::{update_column, update_rows};

// T-2, column c, on the tile at a: the rows below row c updated by row c. The multipliers are column c of the tile at f, which stands before it.
// False where a computed number isn't finite.
pub fn apply_rows(m: &mut [f64], t: usize, f: usize, a: usize, c: usize) -> bool
    requires block { Block t t a m.old }
    requires c_lt_t { (c < t) × (f + t * t ≤ a) × (all_finite (part a (t * t) m.old) ≡ true) }
    ensures { RowsApplied t t c a (λ i. at t (part f (t * t) m.old) i c) m.old m.new result }
{
    update_rows(
        m,
        a + (c + 1) * t,
        a + c * t,
        t,
        0,
        t - (c + 1),
        f + ((c + 1) * t + c),
    )
}

// The same on a right side y, by the tile at f of the slice m. Not one function with apply_rows: there the multipliers stand in the slice that is
// changed, and a slice that is lent to be changed cannot be lent again to be read.
pub fn apply_right(y: &mut [f64], m: &[f64], t: usize, f: usize, a: usize, c: usize) -> bool
    requires block { Block t 1 a y.old }
    requires block_2 { Block t t f m.now }
    requires c_lt_t { (c < t) × (all_finite (part a (t * 1) y.old) ≡ true) }
    ensures { RowsApplied t 1 c a (λ i. at t (part f (t * t) m.now) i c) y.old y.new result }
{
    update_column(
        y,
        a + (c + 1),
        a + c,
        t - (c + 1),
        m,
        f + ((c + 1) * t + c),
        t,
    )
}
