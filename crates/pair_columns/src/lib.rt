// A column of T-4, on the lent matrix and row lists where they lie.
#![tactic(auto)]

ghost use Rattle.std.specs.Prelude.{◌≡◌};
ghost use Rattle.model.specs.Task.{t_4};
ghost use Rattle.model.specs.Plan.{plan_of};
ghost use Rattle.model.specs.Buffer.{ended_with, column_ends};
ghost use Rattle.column_laws.specs.Workable.{Workable};

use column_ends::column_end;
use fills::fill_part;
use model::{ColumnEnd, Sizes};
use pair_blocks::pair_rows;
use places::{list_start, tile_start};

// Works column c of T-4(k,i,j).
pub fn pair_column(
    z: Sizes,
    matrix: &mut [f64],
    lists: &[u8],
    k: usize,
    i: usize,
    j: usize,
    c: usize,
) -> ColumnEnd
    requires { Workable z (t_4 k i j) c matrix.old lists.now }
    ensures { ended_with result (record { matrix = matrix.new; lists = lists.now })
        ≡ column_ends (plan_of z) (t_4 k i j) c (record { matrix = matrix.old; lists = lists.now }) }
{
    let n = z.tiles;
    let t = z.side;
    let s = t * t;
    let u = tile_start(n, t, k, j);
    let d = tile_start(n, t, i, j);
    let f = tile_start(n, t, i, k);
    let p = list_start(n, t, i, k);
    let e = usize::from(lists[p + c]);
    if pair_rows(matrix, t, f, u, d, c, e) {
        return column_end(t, c, 0);
    }
    fill_part(matrix, d, s, 0.0);
    fill_part(matrix, u, s, 0.0);
    ColumnEnd::Failed
}
