// A column of a task by its record: worked, or filled where the task is spoiled.
#![tactic(auto)]

ghost use Rattle.std.specs.Prelude.{◌≡◌, List, ℕ};
ghost use Rattle.worker.specs.declared.Worker.{Worker as SomeWorker};
ghost use Rattle.model.specs.Plan.{plan_of};
ghost use Rattle.model.specs.Buffer.{ended_with};
ghost use Rattle.model.specs.Calls.{column_of};
ghost use Rattle.records.specs.Records.{lent};
ghost use Rattle.task_columns.specs.Due.{ColumnDue};

use column_marks::spoiled_at;
use filling::fill_task;
use kind_columns::work_column;
use model::{ColumnEnd, Sizes};
use records::{Record, record_at};

// Works column c of task p, or fills what it writes where it is spoiled, and tells how it ends.
pub fn work_task(
    z: Sizes,
    matrix: &mut [f64],
    lists: &mut [u8],
    records: &[Record],
    p: usize,
    c: usize,
) -> ColumnEnd
    requires { ColumnDue z p c matrix.old lists.old records.now }
    ensures { (slots : List SomeWorker) (number : ℕ) → ended_with result (record { matrix = matrix.new; lists = lists.new })
        ≡ column_of (plan_of z) (lent matrix.old lists.old records.now slots z.workers number) p c }
{
    let task = record_at(records, p);
    if spoiled_at(z, records, p, c) {
        fill_task(z, matrix, lists, task);
        return ColumnEnd::Spoiled;
    }
    work_column(z, matrix, lists, task, c)
}
