// A column of T-1, on the lent matrix and row lists where they lie.
#![tactic(auto)]

ghost use Rattle.std.specs.Prelude.{◌≡◌};
ghost use Rattle.model.specs.Task.{t_1};
ghost use Rattle.model.specs.Plan.{plan_of};
ghost use Rattle.model.specs.Buffer.{ended_with, column_ends};
ghost use Rattle.column_laws.specs.Workable.{Workable};

use column_ends::column_end;
use factor_tiles::factor_rows;
use fills::fill_part;
use model::{ColumnEnd, Sizes};
use pivots::factor_pivot;
use places::{list_start, tile_start};

// Works column c of T-1(k).
pub fn factor_column(
    z: Sizes,
    matrix: &mut [f64],
    lists: &mut [u8],
    k: usize,
    c: usize,
) -> ColumnEnd
    requires { Workable z (t_1 k) c matrix.old lists.old }
    ensures { ended_with result (record { matrix = matrix.new; lists = lists.new })
        ≡ column_ends (plan_of z) (t_1 k) c (record { matrix = matrix.old; lists = lists.old }) }
{
    let n = z.tiles;
    let t = z.side;
    let a = tile_start(n, t, k, k);
    let p = list_start(n, t, k, k);
    let found = factor_pivot(matrix, t, a, c);
    let y = found.place;
    lists[p + c] = y as u8;
    let magnitude = found.magnitude;
    if magnitude == 0.0 {
        return column_end(t, c, found.ties);
    }
    if factor_rows(matrix, t, a, c, y) {
        return column_end(t, c, found.ties);
    }
    fill_part(matrix, a, t * t, 0.0);
    fill_part(lists, p, t, 0);
    ColumnEnd::Failed
}
