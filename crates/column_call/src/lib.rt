// A worker does the next column of its task, over task records that are lent as a slice of structs. The records that the call looks at are copied, the call works on the
// copies, and those that it may have changed are copied back.
#![tactic(auto)]

ghost use Rattle.std.specs.Prelude.{◌≡◌, get_or};
ghost use Rattle.worker.specs.Holding.{idle};
ghost use Rattle.model.specs.Refusal.{column_call};
ghost use Rattle.records.specs.Records.{OthersKept};
ghost use Rattle.copies.specs.Whole.{whole};

use column_part::column_part;
use loading::load;
use model::{Answer, CallReply, Sizes, TaskRecord};
use records::RECORD;
use storing::store;
use task_records::{COPIES, looked_at, past};
use worker::{SLOTS, Workers};

// The task of worker w; 0 if there is no such slot.
fn task_held(workers: Workers, w: usize) -> usize
    ensures { result ≡ (get_or workers.slots w idle).task }
{
    if w < SLOTS {
        let slots = workers.slots;
        let h = slots[w];
        return h.task as usize;
    }
    0
}

// Worker w does the next column of the task it holds.
pub fn column(
    z: Sizes,
    matrix: &mut [f64],
    lists: &mut [u8],
    records: &mut [TaskRecord],
    workers: Workers,
    w: usize,
) -> CallReply<Answer>
    ensures { (record {
      answer = result.answer;
      left = whole matrix.new lists.new records.new result.workers;
    } ≡ column_call z w (whole matrix.old lists.old records.old workers))
        × OthersKept workers result.workers }
{
    let mut flat = [[0; RECORD]; COPIES];
    let n = looked_at(records.len());
    load(records, &mut flat, n);
    let reply = column_part(z, matrix, lists, &mut flat, n, workers, w);
    let p = task_held(workers, w);
    store(records, &flat, p, past(p, n));
    reply
}
