// From a call over copies of the task records to the call over all of them: laws in proofs/.
#![tactic(auto)]
