// The equality logic of condition sheets: meaning, node rule, search tree. Definitions and theorems only (specs/, proofs/).
#![tactic(auto)]
