// The solution for one right side, of a system that a solve has checked.
#![tactic(auto)]

ghost use Rattle.std.specs.Prelude.{◌≡◌, true, ◌*◌, length};
ghost use Rattle.model.specs.Answer.{accepted};
ghost use Rattle.model.specs.Tile.{all_finite};
ghost use Rattle.model.specs.Plan.{plan_of};
ghost use Rattle.model.specs.Solve.{answered, solved};
ghost use Rattle.progress.specs.Right.{Solvable, RightSide};

use backward::back_rows;
use model::{Answer, Rule, Sizes};
use right_sides::pass;

// Solves in y, which is as long as the right side, and where what is left is free. The answers are written where all of them are computed.
pub fn solve_in(
    z: Sizes,
    matrix: &[f64],
    lists: &[u8],
    right: &[f64],
    answers: &mut [f64],
    y: &mut [f64],
) -> Answer
    requires solvable { Solvable z matrix.now lists.now }
    requires right_side { RightSide z right.now }
    requires matrix_value { (all_finite matrix.now ≡ true) × (length answers.old ≡ z.tiles * z.side) × (length y.old ≡ z.tiles * z.side) }
    ensures { record { answer = result; left = answers.new }
        ≡ answered accepted answers.old (solved (plan_of z) (record { matrix = matrix.now; lists = lists.now }) right.now) }
{
    y.copy_from_slice(right);
    let forward = pass(z, matrix, lists, y);
    if let Err(place) = forward {
        return Err(Rule::NotSolved.at(place));
    }
    let back = back_rows(z, matrix, y);
    if let Err(row) = back {
        return Err(Rule::NotSolved.at(row));
    }
    answers.copy_from_slice(y);
    Ok(())
}
