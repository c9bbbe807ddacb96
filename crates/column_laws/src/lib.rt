// Laws of the columns on a flat matrix: from parts of the matrix to the definitions on tiles. Definitions and proofs; no code.
#![tactic(auto)]
