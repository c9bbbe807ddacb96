// The refusals of a take.
#![tactic(auto)]

ghost use Rattle.std.specs.Prelude.{◌≡◌};
ghost use Rattle.model.specs.Refusal.{take_answer};
ghost use Rattle.records.specs.Records.{all_lent};

use model::{Answer, Rule, Sizes};
use readiness::is_ready;
use records::Record;
use states::state_answer;
use task_counts::task_count;
use worker::Workers;

// What the take of task p by worker w answers.
pub fn take_answer(
    z: Sizes,
    matrix: &[f64],
    lists: &[u8],
    records: &[Record],
    workers: Workers,
    w: usize,
    p: usize,
) -> Answer
    ensures { result ≡ take_answer z w p (all_lent matrix.now lists.now records.now workers) }
{
    state_answer(z, matrix, lists, records, workers)?;
    if z.workers <= w {
        return Err(Rule::WrongWorker.at(w));
    }
    let slots = workers.slots;
    let h = slots[w];
    if h.busy {
        return Err(Rule::WrongWorker.at(w));
    }
    if task_count(z.tiles) <= p {
        return Err(Rule::NoTask.at(0));
    }
    if !is_ready(z.tiles, records, p) {
        return Err(Rule::NotReady.at(p));
    }
    Ok(())
}
