// The whole run, over task records that are lent as a slice of structs. The records that the call looks at are copied, the call works on the
// copies, and those that it may have changed are copied back.
#![tactic(auto)]

ghost use Rattle.std.specs.Prelude.{◌≡◌};
ghost use Rattle.model.specs.Refusal.{run_call};
ghost use Rattle.records.specs.Records.{OthersKept};
ghost use Rattle.copies.specs.Whole.{whole};

use loading::load;
use model::{CallReply, RunAnswer, Sizes, TaskRecord};
use records::RECORD;
use run_part::run_part;
use storing::store;
use task_records::{COPIES, looked_at};
use worker::Workers;

// Runs a system for at most `budget` calls. The answer has the count of the calls made.
pub fn run(
    z: Sizes,
    matrix: &mut [f64],
    lists: &mut [u8],
    records: &mut [TaskRecord],
    workers: Workers,
    budget: u64,
) -> CallReply<RunAnswer>
    ensures { (record {
      answer = result.answer;
      left = whole matrix.new lists.new records.new result.workers;
    } ≡ run_call z budget (whole matrix.old lists.old records.old workers))
        × OthersKept workers result.workers }
{
    let mut flat = [[0; RECORD]; COPIES];
    let n = looked_at(records.len());
    load(records, &mut flat, n);
    let reply = run_part(z, matrix, lists, &mut flat, n, workers, budget);
    store(records, &flat, 0, n);
    reply
}
