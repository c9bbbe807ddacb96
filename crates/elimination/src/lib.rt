// The elimination of the pivot row from other rows of one slice, T-1's and T-3's.
#![tactic(auto)]

ghost use Rattle.std.specs.Prelude.{◌≡◌, true, ℕ, ◌+◌, ◌*◌, ◌<◌, get_or};
ghost use Rattle.std.specs.Float.{nan};
ghost use Rattle.model.specs.Lists.{part};
ghost use Rattle.model.specs.Num.{finite, quotient};
ghost use Rattle.model.specs.Tile.{at, all_finite};
ghost use Rattle.column_laws.specs.Steps.{RowsEliminated};
ghost use Rattle.column_laws.specs.Room.{Rows};

use row_updates::update_row;

// Eliminates the pivot row at top from the rows of width t from `start` on: in each the number in column c becomes the multiplier, and those right
// of it are updated while it is at hand. False where a computed number isn't finite.
pub fn eliminate(m: &mut [f64], t: usize, start: usize, top: usize, rows: usize, c: usize) -> bool
    requires rows { Rows rows t c start top m.old }
    requires m_value { all_finite (part start (rows * t) m.old) ≡ true }
    requires by_index { (i : ℕ) → i < rows → finite (quotient (at t (part start (rows * t) m.old) i c) (get_or m.old (top + c) nan)) ≡ true }
    ensures { RowsEliminated rows t c start top m.old m.new result }
{
    let pivot = m[top + c];
    for r in 0..rows {
        let at = start + r * t;
        let by = m[at + c] / pivot;
        m[at + c] = by;
        if by == 0.0 {
            continue;
        }
        if !update_row(m, at, top, t, c + 1, by) {
            return false;
        }
    }
    true
}
