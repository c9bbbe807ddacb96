// What bench/ calls from Rust besides the library for hosts: a column of each of the four steps. Each answers the mark that its task has
// afterwards, and the column's ties.
#![tactic(auto)]

ghost use Rattle.std.specs.Prelude.{◌≡◌, ◌+◌, ◌*◌};
ghost use Rattle.model.specs.Task.{t_1, t_2, t_3, t_4};
ghost use Rattle.model.specs.Plan.{sizes, plan_of};
ghost use Rattle.model.specs.Buffer.{mark_after, ties_after, column_ends};
ghost use Rattle.column_laws.specs.Workable.{Workable};
ghost use Rattle.bench_host.specs.Ends.{Tells};

use apply_columns::apply_column;
use column_marks::{mark_after, ties_after};
use couple_columns::couple_column;
use factor_columns::factor_column;
use model::{ColumnEnd, Sizes};
use pair_columns::pair_column;

// A column's end as one number: the mark, and 256 times the ties.
fn told(end: ColumnEnd) -> u32
    ensures { result ≡ mark_after end + ties_after end * 256 }
{
    mark_after(end) as u32 + ties_after(end) as u32 * 256
}

// Column c of T-1(k).
#[unsafe(no_mangle)]
pub extern "C" fn bench_factor_column(
    tiles: usize,
    side: usize,
    matrix: &mut [f64],
    lists: &mut [u8],
    k: usize,
    c: usize,
) -> u32
    requires { Workable (sizes tiles side 1) (t_1 k) c matrix.old lists.old }
    ensures { Tells (column_ends (plan_of (sizes tiles side 1)) (t_1 k) c (record { matrix = matrix.old; lists = lists.old }))
        (record { matrix = matrix.new; lists = lists.new }) result }
{
    let z = Sizes {
        tiles,
        side,
        workers: 1,
    };
    told(factor_column(z, matrix, lists, k, c))
}

// Column c of T-2(k,j).
#[unsafe(no_mangle)]
pub extern "C" fn bench_apply_column(
    tiles: usize,
    side: usize,
    matrix: &mut [f64],
    lists: &[u8],
    k: usize,
    j: usize,
    c: usize,
) -> u32
    requires { Workable (sizes tiles side 1) (t_2 k j) c matrix.old lists.now }
    ensures { Tells (column_ends (plan_of (sizes tiles side 1)) (t_2 k j) c (record { matrix = matrix.old; lists = lists.now }))
        (record { matrix = matrix.new; lists = lists.now }) result }
{
    let z = Sizes {
        tiles,
        side,
        workers: 1,
    };
    told(apply_column(z, matrix, lists, k, j, c))
}

// Column c of T-3(k,i).
#[unsafe(no_mangle)]
pub extern "C" fn bench_couple_column(
    tiles: usize,
    side: usize,
    matrix: &mut [f64],
    lists: &mut [u8],
    k: usize,
    i: usize,
    c: usize,
) -> u32
    requires { Workable (sizes tiles side 1) (t_3 k i) c matrix.old lists.old }
    ensures { Tells (column_ends (plan_of (sizes tiles side 1)) (t_3 k i) c (record { matrix = matrix.old; lists = lists.old }))
        (record { matrix = matrix.new; lists = lists.new }) result }
{
    let z = Sizes {
        tiles,
        side,
        workers: 1,
    };
    told(couple_column(z, matrix, lists, k, i, c))
}

// Column c of T-4(k,i,j).
#[unsafe(no_mangle)]
pub extern "C" fn bench_pair_column(
    tiles: usize,
    side: usize,
    matrix: &mut [f64],
    lists: &[u8],
    k: usize,
    i: usize,
    j: usize,
    c: usize,
) -> u32
    requires { Workable (sizes tiles side 1) (t_4 k i j) c matrix.old lists.now }
    ensures { Tells (column_ends (plan_of (sizes tiles side 1)) (t_4 k i j) c (record { matrix = matrix.old; lists = lists.now }))
        (record { matrix = matrix.new; lists = lists.now }) result }
{
    let z = Sizes {
        tiles,
        side,
        workers: 1,
    };
    told(pair_column(z, matrix, lists, k, i, j, c))
}
