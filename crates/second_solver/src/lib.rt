// What the program `compare` holds the services to: a second solver, and checks 1 to 8 and 17 stated a second time. It works on a sheet's bytes as they stand,
// and shares no code with the services, nor with what they stand on.
#![tactic(auto)]

pub mod partitions; // partitions.rt: the second solver
mod sheet; // sheet.rt: a sheet's bytes, as both read them
pub mod table; // table.rt: checks 1 to 8 and 17, a second time

// What a search comes to that refuses nothing.
#[derive(Clone, Copy, Debug, PartialEq, Eq)]
pub enum Answer {
    Met { count: u32 },
    Cannot { count: u32 },
    Full { capacity: u32 },
}

// A check that refuses, and the place that it gives. Checks are numbers here, as the table's lines state them; the services' own type for them isn't
// shared.
#[derive(Clone, Copy, Debug, PartialEq, Eq)]
pub struct Refusal {
    pub check: u32,
    pub place: u32,
}
