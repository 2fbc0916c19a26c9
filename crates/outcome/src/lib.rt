// What a search comes to: its records, its answer, both buffers afterwards. Definitions and theorems only (specs/, proofs/).
#![tactic(auto)]
