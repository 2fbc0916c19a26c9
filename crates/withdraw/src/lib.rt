// Withdrawing a condition: definitions and theorems, no code. specs/Withdraw.antt says what is done to a sheet's bytes; proofs/Withdraw.antt what comes of it.
#![tactic(auto)]
