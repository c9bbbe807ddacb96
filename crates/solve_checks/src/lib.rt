// What a solve checks before it computes: refusals 1, 2, 4, 8, 9, 10 and 3, in this order.
#![tactic(auto)]

ghost use Rattle.std.specs.Prelude.{◌≡◌, not, List, ℕ};
ghost use Rattle.worker.specs.declared.Worker.{Worker as SomeWorker};
ghost use Rattle.model.specs.Answer.{accepted};
ghost use Rattle.model.specs.declared.Rule.TheVariants.{NotFinite};
ghost use Rattle.model.specs.Lengths.{MatrixFits, RecordsFit};
ghost use Rattle.model.specs.Tile.{all_finite};
ghost use Rattle.model.specs.Refusal.{refuse, first_not_finite};
ghost use Rattle.model.specs.Solve.{solve_answer};
ghost use Rattle.records.specs.Records.{lent, all_lent};
ghost use Rattle.checks.specs.Checks.{Sized};
ghost use Rattle.solve_checks.specs.Rest.{rest_answer};

use checks::{bad_lengths, bad_sizes};
use damage::damaged;
use failures::outcome_of;
use finite_numbers::{all_finite, first_not_finite};
use model::{Answer, Outcome, Rule, Sizes};
use records::Record;
use unfinished::first_unfinished;
use worker::Workers;

// Refusal 3.
fn right_answer(right: &[f64]) -> Answer
    ensures { result ≡ refuse NotFinite (first_not_finite right.now) (not (all_finite right.now)) accepted }
{
    let offset = first_not_finite(right);
    match offset {
        Some(x) => Err(Rule::NotFinite.at(x)),
        None => Ok(()),
    }
}

// Refusals 8, 9, 10 and 3.
fn rest_answer(z: Sizes, matrix: &[f64], records: &[Record], right: &[f64]) -> Answer
    requires { Sized z × MatrixFits z matrix.now × RecordsFit z records.now }
    ensures { (lists : List ℕ) (slots : List SomeWorker) (count number : ℕ) → result
        ≡ rest_answer z (lent matrix.now lists records.now slots count number) right.now }
{
    let task = first_unfinished(records);
    if let Some(p) = task {
        return Err(Rule::NotFinished.at(p));
    }
    let end = outcome_of(z, matrix, records);
    match end {
        Outcome::Overflow(p) => Err(Rule::TaskOverflow.at(p as usize)),
        Outcome::Singular(x) => Err(Rule::RowSingular.at(x as usize)),
        Outcome::Good => right_answer(right),
    }
}

// The first of these refusals that holds.
pub fn solve_answer(
    z: Sizes,
    matrix: &[f64],
    lists: &[u8],
    records: &[Record],
    workers: Workers,
    right: &[f64],
    answers: &[f64],
) -> Answer
    ensures { result ≡ solve_answer z (all_lent matrix.now lists.now records.now workers) right.now answers.now }
{
    if bad_sizes(z) {
        return Err(Rule::BadSizes.at(0));
    }
    if bad_lengths(z, matrix, lists, records, workers.count) {
        return Err(Rule::BadLengths.at(0));
    }
    let order = z.tiles * z.side;
    if right.len() != order {
        return Err(Rule::BadLengths.at(0));
    }
    if answers.len() != order {
        return Err(Rule::BadLengths.at(0));
    }
    let slots = workers.slots;
    if damaged(z, lists, records, slots, workers.number) {
        return Err(Rule::Damaged.at(0));
    }
    if !all_finite(matrix) {
        return Err(Rule::Damaged.at(0));
    }
    rest_answer(z, matrix, records, right)
}
