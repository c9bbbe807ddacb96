// A column of T-3, on the lent matrix and row lists where they lie.
#![tactic(auto)]

ghost use Rattle.std.specs.Prelude.{◌≡◌};
ghost use Rattle.model.specs.Task.{t_3};
ghost use Rattle.model.specs.Plan.{plan_of};
ghost use Rattle.model.specs.Buffer.{ended_with, column_ends};
ghost use Rattle.column_laws.specs.Workable.{Workable};

use column_ends::column_end;
use couple_fills::fill_coupled;
use couple_tiles::couple_rows;
use model::{ColumnEnd, Sizes};
use pivots::couple_pivot;
use places::{list_start, tile_start};

// Works column c of T-3(k,i).
pub fn couple_column(
    z: Sizes,
    matrix: &mut [f64],
    lists: &mut [u8],
    k: usize,
    i: usize,
    c: usize,
) -> ColumnEnd
    requires { Workable z (t_3 k i) c matrix.old lists.old }
    ensures { ended_with result (record { matrix = matrix.new; lists = lists.new })
        ≡ column_ends (plan_of z) (t_3 k i) c (record { matrix = matrix.old; lists = lists.old }) }
{
    let n = z.tiles;
    let t = z.side;
    let u = tile_start(n, t, k, k);
    let d = tile_start(n, t, i, k);
    let p = list_start(n, t, i, k);
    let found = couple_pivot(matrix, t, u, d, c);
    let e = found.place;
    lists[p + c] = e as u8;
    let magnitude = found.magnitude;
    if magnitude == 0.0 {
        return column_end(t, c, found.ties);
    }
    if couple_rows(matrix, t, u, d, c, e) {
        return column_end(t, c, found.ties);
    }
    fill_coupled(matrix, lists, t, u, d, p);
    ColumnEnd::Failed
}
