// A column of T-2, on the lent matrix and row lists where they lie.
#![tactic(auto)]

ghost use Rattle.std.specs.Prelude.{◌≡◌};
ghost use Rattle.model.specs.Task.{t_2};
ghost use Rattle.model.specs.Plan.{plan_of};
ghost use Rattle.model.specs.Buffer.{ended_with, column_ends};
ghost use Rattle.column_laws.specs.Workable.{Workable};

use apply_blocks::apply_rows;
use block_starts::start_block;
use column_ends::column_end;
use fills::fill_part;
use model::{ColumnEnd, Sizes};
use places::{list_start, tile_start};

// Works column c of T-2(k,j).
pub fn apply_column(
    z: Sizes,
    matrix: &mut [f64],
    lists: &[u8],
    k: usize,
    j: usize,
    c: usize,
) -> ColumnEnd
    requires { Workable z (t_2 k j) c matrix.old lists.now }
    ensures { ended_with result (record { matrix = matrix.new; lists = lists.now })
        ≡ column_ends (plan_of z) (t_2 k j) c (record { matrix = matrix.old; lists = lists.now }) }
{
    let n = z.tiles;
    let t = z.side;
    let a = tile_start(n, t, k, j);
    let f = tile_start(n, t, k, k);
    let p = list_start(n, t, k, k);
    start_block(matrix, lists, t, t, a, p, c);
    if apply_rows(matrix, t, f, a, c) {
        return column_end(t, c, 0);
    }
    fill_part(matrix, a, t * t, 0.0);
    ColumnEnd::Failed
}
