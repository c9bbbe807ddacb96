// Solving: n right-hand numbers in, n answers out.
#![tactic(auto)]

ghost use Rattle.std.specs.Prelude.{◌≡◌, true, ◌*◌, length};
ghost use Rattle.model.specs.Answer.{accepted};
ghost use Rattle.model.specs.Limits.{most_order};
ghost use Rattle.model.specs.Tile.{all_finite};
ghost use Rattle.model.specs.Plan.{plan_of};
ghost use Rattle.model.specs.Solve.{answered, solved, solve_call};
ghost use Rattle.records.specs.Records.{all_lent};
ghost use Rattle.progress.specs.Right.{Solvable, RightSide};

use model::{Answer, MOST_ORDER, Sizes};
use records::Record;
use solutions::solve_in;
use solve_checks::solve_answer;
use worker::Workers;

// Solves in the front of the work slice, which has room for the largest order.
fn solve_with(
    z: Sizes,
    matrix: &[f64],
    lists: &[u8],
    right: &[f64],
    answers: &mut [f64],
    work: &mut [f64],
) -> Answer
    requires solvable { Solvable z matrix.now lists.now }
    requires right_side { RightSide z right.now }
    requires matrix_value { (all_finite matrix.now ≡ true) × (length answers.old ≡ z.tiles * z.side) × (length work.old ≡ most_order) }
    ensures { record { answer = result; left = answers.new }
        ≡ answered accepted answers.old (solved (plan_of z) (record { matrix = matrix.now; lists = lists.now }) right.now) }
{
    let order = z.tiles * z.side;
    solve_in(z, matrix, lists, right, answers, &mut work[..order])
}

// Solves a factored system for one right side. The right side passes through the tasks as one more tile column, of width 1, then the
// rows run from last to first. Only the answers are changed, and only where the call is accepted.
pub fn solve(
    z: Sizes,
    matrix: &[f64],
    lists: &[u8],
    records: &[Record],
    workers: Workers,
    right: &[f64],
    answers: &mut [f64],
) -> Answer
    ensures { record { answer = result; left = answers.new }
        ≡ solve_call z (all_lent matrix.now lists.now records.now workers) right.now answers.old }
{
    solve_answer(z, matrix, lists, records, workers, right, answers)?;
    let mut work = [0.0; MOST_ORDER];
    solve_with(z, matrix, lists, right, answers, &mut work)
}
