// K2: the two parts of a diagonal tile change which tasks wait for which, and nothing of what they leave. Proved in proofs/.
#![tactic(auto)]

ghost use Rattle.old_loops.specs.Claim.{K2};

// Does nothing: its contract is what K2 claims of the system told z, so that the crate is not proved where that is not.
pub fn like_the_old_loops(z: model::Sizes)
    ensures { K2 z }
{}
