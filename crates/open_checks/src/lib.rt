// The refusals of an opening.
#![tactic(auto)]

ghost use Rattle.std.specs.Prelude.{◌≡◌, List, ℕ};
ghost use Rattle.worker.specs.declared.Worker.{Worker as SomeWorker};
ghost use Rattle.model.specs.Refusal.{open_answer};
ghost use Rattle.records.specs.Records.{lent};

use checks::{bad_lengths, bad_sizes};
use finite_numbers::first_not_finite;
use model::{Answer, Rule, Sizes};
use records::Record;

// What the opening answers, lent `count` workers.
pub fn open_answer(
    z: Sizes,
    matrix: &[f64],
    lists: &[u8],
    records: &[Record],
    count: usize,
) -> Answer
    ensures { (slots : List SomeWorker) (number : ℕ)
        → result ≡ open_answer z (lent matrix.now lists.now records.now slots count number) }
{
    if bad_sizes(z) {
        return Err(Rule::BadSizes.at(0));
    }
    if bad_lengths(z, matrix, lists, records, count) {
        return Err(Rule::BadLengths.at(0));
    }
    let found = first_not_finite(matrix);
    match found {
        Some(x) => Err(Rule::NotFinite.at(x)),
        None => Ok(()),
    }
}
