// A worker takes a task.
#![tactic(auto)]

ghost use Rattle.std.specs.Prelude.{◌≡◌};
ghost use Rattle.model.specs.Refusal.{take_call};
ghost use Rattle.records.specs.Records.{all_lent, OthersKept};

use answers::accepted;
use model::{Answer, CallReply, Sizes};
use record_changes::take_record;
use records::Record;
use take_checks::take_answer;
use worker::Workers;

// Worker w takes task p.
pub fn take(
    z: Sizes,
    matrix: &[f64],
    lists: &[u8],
    records: &mut [Record],
    workers: Workers,
    w: usize,
    p: usize,
) -> CallReply<Answer>
    ensures workers_after { record {
      answer = result.answer;
      left = all_lent matrix.now lists.now records.new result.workers;
    } ≡ take_call z w p (all_lent matrix.now lists.now records.old workers) }
    ensures others_kept { OthersKept workers result.workers }
{
    let answer = take_answer(z, matrix, lists, records, workers, w, p);
    if !accepted(answer) {
        return CallReply { answer, workers };
    }
    let number = workers.number + 1;
    take_record(records, p, number);
    let mut slots = workers.slots;
    let h = slots[w];
    slots[w] = h.take(p as u16);
    let left = Workers {
        slots,
        count: workers.count,
        number,
    };
    CallReply {
        answer,
        workers: left,
    }
}
