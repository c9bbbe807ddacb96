// What decides the outcome of a finished system: failed tasks and zeros on the diagonal, the lowest of each.
#![tactic(auto)]

ghost use Rattle.std.specs.Prelude.{◌≡◌, List, ℕ, ◌*◌, ◌<◌, Some, None};
ghost use Rattle.model.specs.Lengths.{MatrixFits, RecordsFit};
ghost use Rattle.model.specs.Lists.{first_or};
ghost use Rattle.model.specs.Plan.{plan_of};
ghost use Rattle.model.specs.Buffer.{element};
ghost use Rattle.model.specs.Loops.{failed_tasks, zero_rows, outcome as outcome_of};
ghost use Rattle.records.specs.Records.{marks_from, ties_from};
ghost use Rattle.checks.specs.Checks.{Sized};

use marks::FAILED;
use model::{Outcome, Sizes};
use records::{Record, mark_of};

// The lowest task that failed.
fn first_failed(records: &[Record]) -> Option<usize>
    ensures { result ≡ first_or (failed_tasks (marks_from records.now)) Some None }
{
    for p in 0..records.len() {
        if mark_of(records, p) == FAILED {
            return Some(p);
        }
    }
    None
}

// The element of row x on the diagonal.
fn diagonal(z: Sizes, matrix: &[f64], x: usize) -> f64
    requires { Sized z × MatrixFits z matrix.now × (x < z.tiles * z.side) }
    ensures { result ≡ element z.tiles z.side matrix.now x x }
{
    let t = z.side;
    let i = x / t;
    let r = x % t;
    matrix[(i * z.tiles + i) * (t * t) + (r * t + r)]
}

// The lowest row with a zero on the diagonal.
fn first_zero_row(z: Sizes, matrix: &[f64]) -> Option<usize>
    requires { Sized z × MatrixFits z matrix.now }
    ensures { result ≡ first_or (zero_rows (plan_of z) matrix.now) Some None }
{
    let order = z.tiles * z.side;
    for x in 0..order {
        if diagonal(z, matrix, x) == 0.0 {
            return Some(x);
        }
    }
    None
}

// The outcome by the marks and the diagonal that stand now: what it is once every task is finished.
pub fn outcome_of(z: Sizes, matrix: &[f64], records: &[Record]) -> Outcome
    requires { Sized z × MatrixFits z matrix.now × RecordsFit z records.now }
    ensures { (lists : List ℕ) → result ≡ outcome_of (plan_of z) (record {
      buffers = record { matrix = matrix.now; lists = lists };
      marks = marks_from records.now;
      ties = ties_from records.now;
    }) }
{
    let task = first_failed(records);
    if let Some(p) = task {
        return Outcome::Overflow(p as u16);
    }
    let row = first_zero_row(z, matrix);
    match row {
        Some(x) => Outcome::Singular(x as u16),
        None => Outcome::Good,
    }
}
