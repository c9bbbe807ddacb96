// A worker takes a task, over task records that are lent as a slice of structs. The records that the call looks at are copied, the call works on the
// copies, and those that it may have changed are copied back.
#![tactic(auto)]

ghost use Rattle.std.specs.Prelude.{◌≡◌};
ghost use Rattle.model.specs.Refusal.{take_call};
ghost use Rattle.records.specs.Records.{OthersKept};
ghost use Rattle.copies.specs.Whole.{whole};

use loading::load;
use model::{Answer, CallReply, Sizes, TaskRecord};
use records::RECORD;
use storing::store;
use take_part::take_part;
use task_records::{COPIES, looked_at, past};
use worker::Workers;

// Worker w takes task p.
pub fn take(
    z: Sizes,
    matrix: &[f64],
    lists: &[u8],
    records: &mut [TaskRecord],
    workers: Workers,
    w: usize,
    p: usize,
) -> CallReply<Answer>
    ensures { (record {
      answer = result.answer;
      left = whole matrix.now lists.now records.new result.workers;
    } ≡ take_call z w p (whole matrix.now lists.now records.old workers))
        × OthersKept workers result.workers }
{
    let mut flat = [[0; RECORD]; COPIES];
    let n = looked_at(records.len());
    load(records, &mut flat, n);
    let reply = take_part(z, matrix, lists, &mut flat, n, workers, w, p);
    store(records, &flat, p, past(p, n));
    reply
}
