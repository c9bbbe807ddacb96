// Refusals 1, 2 and 4 but for elements: what a take, a column and a run look at first.
#![tactic(auto)]

ghost use Rattle.std.specs.Prelude.{◌≡◌};
ghost use Rattle.records.specs.Records.{all_lent};
ghost use Rattle.states.specs.States.{state_answer};

use checks::{bad_lengths, bad_sizes};
use damage::damaged;
use model::{Answer, Rule, Sizes};
use records::Record;
use worker::Workers;

// The first of these refusals that holds of what is lent.
pub fn state_answer(
    z: Sizes,
    matrix: &[f64],
    lists: &[u8],
    records: &[Record],
    workers: Workers,
) -> Answer
    ensures { result ≡ state_answer z (all_lent matrix.now lists.now records.now workers) }
{
    if bad_sizes(z) {
        return Err(Rule::BadSizes.at(0));
    }
    if bad_lengths(z, matrix, lists, records, workers.count) {
        return Err(Rule::BadLengths.at(0));
    }
    let slots = workers.slots;
    if damaged(z, lists, records, slots, workers.number) {
        return Err(Rule::Damaged.at(0));
    }
    Ok(())
}
