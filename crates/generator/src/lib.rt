// Sheets for the program `compare`: from a generator, and with conditions withdrawn; and numbers in a line of its input. It works on a sheet's bytes as they
// stand, and shares no code with the services, nor with what they stand on.
#![tactic(auto)]

pub mod blanks; // blanks.rt: withdrawn conditions and vacant records
pub mod generate; // generate.rt: sheets from a generator
pub mod line; // line.rt: numbers in a line
