// The refusals of a column call.
#![tactic(auto)]

ghost use Rattle.std.specs.Prelude.{◌≡◌};
ghost use Rattle.model.specs.Refusal.{column_answer};
ghost use Rattle.records.specs.Records.{all_lent};

use model::{Answer, Rule, Sizes};
use records::{Record, record_at};
use states::state_answer;
use task_tiles::bad_tiles;
use worker::Workers;

// What a column call of worker w answers. 5 is tested before 4's tiles: a worker that is idle or doesn't exist has no tiles to test, and a busy one
// is never refused with 5.
pub fn column_answer(
    z: Sizes,
    matrix: &[f64],
    lists: &[u8],
    records: &[Record],
    workers: Workers,
    w: usize,
) -> Answer
    ensures { result ≡ column_answer z w (all_lent matrix.now lists.now records.now workers) }
{
    state_answer(z, matrix, lists, records, workers)?;
    if z.workers <= w {
        return Err(Rule::WrongWorker.at(w));
    }
    let slots = workers.slots;
    let h = slots[w];
    if !h.busy {
        return Err(Rule::WrongWorker.at(w));
    }
    let p = h.task as usize;
    if bad_tiles(z, matrix, record_at(records, p)) {
        return Err(Rule::Damaged.at(0));
    }
    Ok(())
}
