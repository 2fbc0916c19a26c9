// The count of unmet conditions, and a lot given another number: definitions and theorems, no code. specs/Count.antt says what is counted, specs/Reassign.antt
// what one reassignment comes to, specs/Moves.antt what a list of them does.
#![tactic(auto)]
