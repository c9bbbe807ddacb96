// A busy worker does the next column of the task it holds.
#![tactic(auto)]

ghost use Rattle.std.specs.Prelude.{◌≡◌, ◌<◌};
ghost use Rattle.model.specs.Limits.{most_workers};
ghost use Rattle.model.specs.Plan.{plan_of};
ghost use Rattle.model.specs.Calls.{advanced};
ghost use Rattle.records.specs.Records.{all_lent, OthersKept};
ghost use Rattle.task_columns.specs.Due.{ColumnDue};
ghost use Rattle.advancing.specs.Advancing.{Advanced, Working};

use column_marks::{mark_after, moved_on, ties_after};
use model::Sizes;
use record_changes::add_column;
use records::Record;
use task_columns::work_task;
use worker::{Worker, Workers};

// The worker h, which is worker w, does the next column of the task it holds by call `number`, and is handed back as it goes on.
pub fn advance(
    z: Sizes,
    matrix: &mut [f64],
    lists: &mut [u8],
    records: &mut [Record],
    h: Worker,
    w: usize,
    number: u32,
) -> Worker
    requires { ColumnDue z h.task h.column matrix.old lists.old records.old × (w < most_workers) }
    ensures { Advanced z h w number matrix.old lists.old records.old matrix.new lists.new records.new result }
{
    let p = h.task as usize;
    let end = work_task(z, matrix, lists, records, p, h.column as usize);
    let mark = mark_after(end);
    add_column(records, p, w as u8, number, mark, ties_after(end));
    moved_on(h, mark)
}

// Worker w does the next column of the task it holds.
pub fn advance_worker(
    z: Sizes,
    matrix: &mut [f64],
    lists: &mut [u8],
    records: &mut [Record],
    workers: Workers,
    w: usize,
) -> Workers
    requires { Working z w matrix.old lists.old records.old workers.slots workers.number × (workers.count ≡ z.workers) }
    ensures result_after { all_lent matrix.new lists.new records.new result
        ≡ advanced (plan_of z) w (all_lent matrix.old lists.old records.old workers) }
    ensures others_kept { OthersKept workers result }
{
    let mut slots = workers.slots;
    let h = slots[w];
    let number = workers.number + 1;
    slots[w] = advance(z, matrix, lists, records, h, w, number);
    Workers {
        slots,
        number,
        ..workers
    }
}
