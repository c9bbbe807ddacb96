// What an undamaged state gives the calls: records that name their tasks, and workers that hold them. Proofs only.
#![tactic(auto)]
