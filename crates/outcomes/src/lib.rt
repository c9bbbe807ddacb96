// The outcome of a system.
#![tactic(auto)]

ghost use Rattle.std.specs.Prelude.{◌≡◌};
ghost use Rattle.model.specs.Refusal.{outcome_call};
ghost use Rattle.records.specs.Records.{all_lent};

use checks::{bad_lengths, bad_sizes};
use failures::outcome_of;
use model::{OutcomeAnswer, Rule, Sizes, Standing};
use records::Record;
use unfinished::first_unfinished;
use worker::Workers;

// The outcome once every task is finished, and before that the lowest unfinished task. Nothing is changed.
pub fn outcome(
    z: Sizes,
    matrix: &[f64],
    lists: &[u8],
    records: &[Record],
    workers: Workers,
) -> OutcomeAnswer
    ensures { result ≡ outcome_call z (all_lent matrix.now lists.now records.now workers) }
{
    if bad_sizes(z) {
        return Err(Rule::BadSizes.at(0));
    }
    if bad_lengths(z, matrix, lists, records, workers.count) {
        return Err(Rule::BadLengths.at(0));
    }
    let task = first_unfinished(records);
    match task {
        Some(p) => Ok(Standing::Unfinished(p)),
        None => Ok(Standing::Known(outcome_of(z, matrix, records))),
    }
}
