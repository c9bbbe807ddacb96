// The refusals of a run.
#![tactic(auto)]

ghost use Rattle.std.specs.Prelude.{◌≡◌};
ghost use Rattle.model.specs.Refusal.{run_answer};
ghost use Rattle.records.specs.Records.{all_lent};

use finite_numbers::all_finite;
use model::{Answer, Rule, Sizes};
use records::Record;
use states::state_answer;
use worker::Workers;

// What a run answers before its first call.
pub fn run_answer(
    z: Sizes,
    matrix: &[f64],
    lists: &[u8],
    records: &[Record],
    workers: Workers,
) -> Answer
    ensures { result ≡ run_answer z (all_lent matrix.now lists.now records.now workers) }
{
    state_answer(z, matrix, lists, records, workers)?;
    if !all_finite(matrix) {
        return Err(Rule::Damaged.at(0));
    }
    Ok(())
}
