// The tasks' numbering, links, latest writers, readiness and spoiling in closed form, for every N. Definitions and proofs; no code.
#![tactic(auto)]
