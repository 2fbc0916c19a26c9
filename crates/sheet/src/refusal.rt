// Refusals: the checks of documents 01 and 02 that can fail, each with what its place is made of.
ghost use Rattle.std.specs.Prelude.{◌≡◌};

use crate::{Condition, Record};
use std::fmt;

// The first check that fails. What the documents give for it are its number and its place: `check` and `place`.
#[derive(Clone, Copy, Debug, PartialEq, Eq)]
pub enum Refusal {
    // A sheet: its header and length,
    ShortHeader,
    TooManyLots,
    TooManyConditions,
    TooManyRecords,
    WrongLength,
    // its heads and records, and the chains that these are read along.
    HeadTooHigh(Condition),
    IllFormed(Record),
    ReachedTwice(Record),
    NeverReached(Record),
    VacantReached(Record),
    // What is lent beside it: a grouping by the lots that it needs, a store by the records that it holds, an output by the bytes that it needs.
    ShortGrouping(u16),
    FullStore(u32),
    ShortForPacked(u32),
    ShortForMerged(u32),
    // A list of records: its length, a record, the splits above one, and its end.
    IllSized,
    NoSuchRecord(u32),
    LeafStands(u32),
    WrongNext(u32),
    WrongEnd(u32),
    TooDeep(u32),
    // Two sheets merged.
    TooManyMergedConditions,
    TooManyMergedRecords,
    // Numbers that are asked for.
    NoSuchLimit(u32),
    NoSuchLot(u32),
    WrongCount(u32),
}

impl Refusal {
    ghost use Rattle.sheet.specs.Refusals.{check_of, place_of};

    // The number of the check in the documents' tables.
    pub fn check(self) -> u32
        ensures { result ≡ check_of self }
    {
        match self {
            Refusal::ShortHeader => 1,
            Refusal::TooManyLots | Refusal::TooManyConditions | Refusal::TooManyRecords => 2,
            Refusal::WrongLength => 3,
            Refusal::HeadTooHigh(_) => 4,
            Refusal::IllFormed(_) => 5,
            Refusal::ReachedTwice(_) => 6,
            Refusal::NeverReached(_) => 7,
            Refusal::ShortGrouping(_) => 8,
            Refusal::FullStore(_) => 9,
            Refusal::IllSized => 10,
            Refusal::NoSuchRecord(_) => 11,
            Refusal::LeafStands(_) => 12,
            Refusal::WrongNext(_) => 13,
            Refusal::WrongEnd(_) => 14,
            Refusal::TooDeep(_) => 15,
            Refusal::ShortForPacked(_) => 16,
            Refusal::VacantReached(_) => 17,
            Refusal::TooManyMergedConditions | Refusal::TooManyMergedRecords => 18,
            Refusal::ShortForMerged(_) => 19,
            Refusal::NoSuchLimit(_) => 20,
            Refusal::NoSuchLot(_) => 21,
            Refusal::WrongCount(_) => 22,
        }
    }

    // The place that it gives.
    pub fn place(self) -> u32
        ensures { result ≡ place_of self }
    {
        match self {
            Refusal::ShortHeader | Refusal::WrongLength | Refusal::IllSized => 0,
            Refusal::TooManyLots => 1,
            Refusal::TooManyConditions | Refusal::TooManyMergedConditions => 2,
            Refusal::TooManyRecords | Refusal::TooManyMergedRecords => 3,
            Refusal::HeadTooHigh(c) => u32::from(c.0),
            Refusal::IllFormed(r)
            | Refusal::ReachedTwice(r)
            | Refusal::NeverReached(r)
            | Refusal::VacantReached(r) => u32::from(r.0),
            Refusal::ShortGrouping(lots) => u32::from(lots),
            Refusal::NoSuchRecord(r)
            | Refusal::LeafStands(r)
            | Refusal::WrongNext(r)
            | Refusal::WrongEnd(r)
            | Refusal::TooDeep(r) => r,
            Refusal::ShortForPacked(needed) | Refusal::ShortForMerged(needed) => needed,
            Refusal::FullStore(most) => most,
            Refusal::NoSuchLimit(x) | Refusal::NoSuchLot(x) | Refusal::WrongCount(x) => x,
        }
    }
}

impl fmt::Display for Refusal {
    fn fmt<W: fmt::Write>(&self, f: &mut fmt::Formatter<W>) -> fmt::Result {
        write!(f, "refused {} {}", self.check(), self.place())
    }
}
