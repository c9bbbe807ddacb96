// Answers of calls. The proofs have the laws of a chain of refusals.
#![tactic(auto)]

ghost use Rattle.std.specs.Prelude.{◌≡◌};
ghost use Rattle.answers.specs.Answers.{accepts};

use model::Answer;

// Whether the call is accepted.
pub fn accepted(answer: Answer) -> bool
    ensures { result ≡ accepts answer }
{
    answer.is_ok()
}
