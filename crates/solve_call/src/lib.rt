// A solve, over task records that are lent as a slice of structs. The call works on copies of them.
#![tactic(auto)]

ghost use Rattle.std.specs.Prelude.{◌≡◌};
ghost use Rattle.model.specs.Solve.{solve_call};
ghost use Rattle.copies.specs.Whole.{whole};

use loading::load;
use model::{Answer, Sizes, TaskRecord};
use records::RECORD;
use solve_part::solve_part;
use task_records::{COPIES, looked_at};
use worker::Workers;

// Solves a factored system for one right side. Only the answers are changed, and only where the call is accepted.
pub fn solve(
    z: Sizes,
    matrix: &[f64],
    lists: &[u8],
    records: &[TaskRecord],
    workers: Workers,
    right: &[f64],
    answers: &mut [f64],
) -> Answer
    ensures { record { answer = result; left = answers.new }
        ≡ solve_call z (whole matrix.now lists.now records.now workers) right.now answers.old }
{
    let mut flat = [[0; RECORD]; COPIES];
    let n = looked_at(records.len());
    load(records, &mut flat, n);
    solve_part(z, matrix, lists, &flat, n, workers, right, answers)
}
