// A worker does the next column of its task.
#![tactic(auto)]

ghost use Rattle.std.specs.Prelude.{◌≡◌};
ghost use Rattle.model.specs.Refusal.{column_call};
ghost use Rattle.records.specs.Records.{all_lent, OthersKept};

use advancing::advance_worker;
use answers::accepted;
use column_checks::column_answer;
use model::{Answer, CallReply, Sizes};
use records::Record;
use worker::Workers;

// Worker w does the next column of the task it holds.
pub fn column(
    z: Sizes,
    matrix: &mut [f64],
    lists: &mut [u8],
    records: &mut [Record],
    workers: Workers,
    w: usize,
) -> CallReply<Answer>
    ensures workers_after { record {
      answer = result.answer;
      left = all_lent matrix.new lists.new records.new result.workers;
    } ≡ column_call z w (all_lent matrix.old lists.old records.old workers) }
    ensures others_kept { OthersKept workers result.workers }
{
    let answer = column_answer(z, matrix, lists, records, workers, w);
    if !accepted(answer) {
        return CallReply { answer, workers };
    }
    let left = advance_worker(z, matrix, lists, records, workers, w);
    CallReply {
        answer,
        workers: left,
    }
}
