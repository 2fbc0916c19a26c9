// A limit on the classes: definitions and theorems, no code. specs/Meaning.antt says which assignments keep it, specs/Rule.antt what it makes of a node and
// specs/Search.antt of a search.
#![tactic(auto)]
