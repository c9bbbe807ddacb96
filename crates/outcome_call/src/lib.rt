// The outcome of a system, over task records that are lent as a slice of structs. The call works on copies of them.
#![tactic(auto)]

ghost use Rattle.std.specs.Prelude.{◌≡◌};
ghost use Rattle.model.specs.Refusal.{outcome_call};
ghost use Rattle.copies.specs.Whole.{whole};

use loading::load;
use model::{OutcomeAnswer, Sizes, TaskRecord};
use outcome_part::outcome_part;
use records::RECORD;
use task_records::{COPIES, looked_at};
use worker::Workers;

// The outcome once every task is finished, and before that the lowest unfinished task. Nothing is changed.
pub fn outcome(
    z: Sizes,
    matrix: &[f64],
    lists: &[u8],
    records: &[TaskRecord],
    workers: Workers,
) -> OutcomeAnswer
    ensures { result ≡ outcome_call z (whole matrix.now lists.now records.now workers) }
{
    let mut flat = [[0; RECORD]; COPIES];
    let n = looked_at(records.len());
    load(records, &mut flat, n);
    outcome_part(z, matrix, lists, &flat, n, workers)
}
