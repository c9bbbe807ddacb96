// Opening a system: everything is checked, then the lists, the records and the workers are set.
#![tactic(auto)]

ghost use Rattle.std.specs.Prelude.{◌≡◌};
ghost use Rattle.model.specs.Refusal.{open_call};
ghost use Rattle.records.specs.Records.{all_lent, OthersKept};

use answers::accepted;
use model::{Answer, CallReply, Sizes};
use open_checks::open_answer;
use opened::{idle_workers, number_records};
use records::Record;
use worker::Workers;

// Opens a system. The slots of other workers stay as they are.
pub fn open(
    z: Sizes,
    matrix: &[f64],
    lists: &mut [u8],
    records: &mut [Record],
    workers: Workers,
) -> CallReply<Answer>
    ensures workers_after { record {
      answer = result.answer;
      left = all_lent matrix.now lists.new records.new result.workers;
    } ≡ open_call z (all_lent matrix.now lists.old records.old workers) }
    ensures others_kept { OthersKept workers result.workers }
{
    let answer = open_answer(z, matrix, lists, records, workers.count);
    if !accepted(answer) {
        return CallReply { answer, workers };
    }
    lists.fill(0);
    number_records(z, records);
    let left = idle_workers(workers);
    CallReply {
        answer,
        workers: left,
    }
}
