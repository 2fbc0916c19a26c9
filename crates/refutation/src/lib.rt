// Refutations: the walk over a list of node records. Definitions and theorems only (specs/, proofs/).
#![tactic(auto)]
