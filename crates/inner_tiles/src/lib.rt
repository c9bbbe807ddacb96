// K5 on tiles: what columns of T-3 and T-4 with inner block size b leave, against those with b = 1. Definitions and proofs; no code.
#![tactic(auto)]
