// K5 over abstract numbers: T-3 and T-4 by panels of b columns leave what single columns leave. specs/ states it, proofs/ proves it. No code.
#![tactic(auto)]
