// Opening a system, over task records that are lent as a slice of structs. The records that the call looks at are copied, the call works on the
// copies, and those that it may have changed are copied back.
#![tactic(auto)]

ghost use Rattle.std.specs.Prelude.{◌≡◌};
ghost use Rattle.model.specs.Refusal.{open_call};
ghost use Rattle.records.specs.Records.{OthersKept};
ghost use Rattle.copies.specs.Whole.{whole};

use loading::load;
use model::{Answer, CallReply, Sizes, TaskRecord};
use open_part::open_part;
use records::RECORD;
use storing::store;
use task_records::{COPIES, looked_at};
use worker::Workers;

// Opens a system.
pub fn open(
    z: Sizes,
    matrix: &[f64],
    lists: &mut [u8],
    records: &mut [TaskRecord],
    workers: Workers,
) -> CallReply<Answer>
    ensures { (record {
      answer = result.answer;
      left = whole matrix.now lists.new records.new result.workers;
    } ≡ open_call z (whole matrix.now lists.old records.old workers))
        × OthersKept workers result.workers }
{
    let mut flat = [[0; RECORD]; COPIES];
    let n = looked_at(records.len());
    load(records, &mut flat, n);
    let reply = open_part(z, matrix, lists, &mut flat, n, workers);
    store(records, &flat, 0, n);
    reply
}
