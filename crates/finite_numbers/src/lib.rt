// Numbers that aren't finite: whether there are any, and the lowest of them. Refusals 3 and 4 test elements by this.
#![tactic(auto)]

ghost use Rattle.std.specs.Prelude.{◌≡◌, cond, Some, None};
ghost use Rattle.model.specs.Tile.{all_finite};
ghost use Rattle.model.specs.Refusal.{first_not_finite};

use numbers::is_finite;

// The lowest offset of a number that isn't finite, where there is one. Mostly there is none, and the loop without a branch tells so sooner.
pub fn first_not_finite(numbers: &[f64]) -> Option<usize>
    ensures { result ≡ cond (all_finite numbers.now) None (Some (first_not_finite numbers.now)) }
{
    if all_finite(numbers) {
        return None;
    }
    for x in 0..numbers.len() {
        if !is_finite(numbers[x]) {
            return Some(x);
        }
    }
    None
}

// Whether every number is finite. All are looked at, so that the loop has no branch.
pub fn all_finite(numbers: &[f64]) -> bool
    ensures { result ≡ all_finite numbers.now }
{
    let mut good = true;
    for number in numbers {
        good &= is_finite(*number);
    }
    good
}
