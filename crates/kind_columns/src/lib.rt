// A column of a task by the step that its record asks for.
#![tactic(auto)]

ghost use Rattle.std.specs.Prelude.{◌≡◌};
ghost use Rattle.model.specs.Plan.{plan_of};
ghost use Rattle.model.specs.Buffer.{ended_with, column_ends};
ghost use Rattle.column_laws.specs.Workable.{Workable};
ghost use Rattle.checks.specs.Checks.{task_from};

use apply_columns::apply_column;
use couple_columns::couple_column;
use factor_columns::factor_column;
use model::{ColumnEnd, Sizes, TaskRecord};
use pair_columns::pair_column;
use steps::{Step, step_of};

// Works column c of a task that is not spoiled, and tells how it ends.
pub fn work_column(
    z: Sizes,
    matrix: &mut [f64],
    lists: &mut [u8],
    task: TaskRecord,
    c: usize,
) -> ColumnEnd
    requires { Workable z (task_from task) c matrix.old lists.old }
    ensures { ended_with result (record { matrix = matrix.new; lists = lists.new })
        ≡ column_ends (plan_of z) (task_from task) c (record { matrix = matrix.old; lists = lists.old }) }
{
    match step_of(task) {
        Step::Factor { k } => factor_column(z, matrix, lists, k, c),
        Step::Apply { k, j } => apply_column(z, matrix, lists, k, j, c),
        Step::Couple { k, i } => couple_column(z, matrix, lists, k, i, c),
        Step::Pair { k, i, j } => pair_column(z, matrix, lists, k, i, j, c),
    }
}
