// The canonical bytes of lots and conditions: what writers of sheets write. Definitions and theorems only (specs/, proofs/).
#![tactic(auto)]
