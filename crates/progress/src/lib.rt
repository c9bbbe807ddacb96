// How far a right side has come through the tasks: what the passing needs and answers, and laws of things done in turn. A passing answers Ok where the
// right side goes on, and else the place where a computed number wasn't finite. Specs and proofs only.
#![tactic(auto)]
