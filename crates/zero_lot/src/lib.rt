// Lot 0, where nothing names it: definitions and theorems, no code. specs/Unnamed.antt says when a sheet or a list never names it, and which answers it had;
// proofs/Unnamed.antt that it gets them.
#![tactic(auto)]
