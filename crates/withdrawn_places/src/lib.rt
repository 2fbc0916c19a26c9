// Withdrawn conditions keep their places in a merge: definitions and theorems, no code. specs/Changes.antt says where that changes a merge; proofs/Changes.antt
// that it changes there and nowhere else; specs/Numbers.antt and proofs/Numbers.antt have the numbers under which withdrawn conditions stand.
#![tactic(auto)]
