// The services on trial in the program `compare`: what they answer, in the second solver's terms, and whether their answers bear each other out; damaged
// refutations and sheets, beside the second solver and the second statement of the checks; and what of all this is counted.
#![tactic(auto)]

pub mod damage; // damage.rt: damaged refutations and sheets, and conditions withdrawn
pub mod services; // services.rt: search, checker and evaluator
pub mod splits; // splits.rt: lists with splits on a path, and grounds alone
pub mod tally; // tally.rt: what is counted
