// A solve over the first task records of a slice.
#![tactic(auto)]

ghost use Rattle.std.specs.Prelude.{◌≡◌, ◌≤◌, length, take as up_to};
ghost use Rattle.model.specs.Solve.{solve_call};
ghost use Rattle.records.specs.Records.{all_lent};

use model::{Answer, Sizes};
use records::Record;
use worker::Workers;

// A solve, over the first n of a slice of records.
pub fn solve_part(
    z: Sizes,
    matrix: &[f64],
    lists: &[u8],
    records: &[Record],
    n: usize,
    workers: Workers,
    right: &[f64],
    answers: &mut [f64],
) -> Answer
    requires { n ≤ length records.now }
    ensures { record { answer = result; left = answers.new }
        ≡ solve_call z (all_lent matrix.now lists.now (up_to n records.now) workers) right.now answers.old }
{
    solving::solve(z, matrix, lists, &records[..n], workers, right, answers)
}
