// A column call, for hosts. hosts/solumivaf.h declares it.
#![tactic(auto)]

ghost use Rattle.model.specs.Refusal.{column_call};
ghost use Rattle.model.specs.Plan.{sizes};
ghost use Rattle.host_calls.specs.Hosted.{hosted, Called};

use host_answers::{Told, tell};
use host_workers::{gather, scatter};
use model::Sizes;
use records::Record;
use worker::SLOTS;

// Worker w does the next column of the task it holds.
#[unsafe(no_mangle)]
pub extern "C" fn solumivaf_column(
    tiles: usize,
    side: usize,
    workers: usize,
    matrix: &mut [f64],
    lists: &mut [u8],
    records: &mut [Record],
    busy: &mut [u8; SLOTS],
    task: &mut [u16; SLOTS],
    column: &mut [u8; SLOTS],
    count: usize,
    number: &mut u32,
    w: usize,
) -> Told
    ensures { Called (column_call (sizes tiles side workers) w)
        (hosted matrix.old lists.old records.old busy.old task.old column.old count number.old)
        (hosted matrix.new lists.new records.new busy.new task.new column.new count number.new) result }
{
    let z = Sizes {
        tiles,
        side,
        workers,
    };
    let given = gather(*busy, *task, *column, count, *number);
    let reply = working::column(z, matrix, lists, records, given, w);
    let left = reply.workers;
    scatter(left, busy, task, column);
    *number = left.number;
    let answer = reply.answer;
    tell(answer)
}
