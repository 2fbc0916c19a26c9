// Condition sheets: the format's words, and the reader of a chain.
#![tactic(auto)]

pub mod format; // format.rt: numbers, heads and records in a sheet's bytes
pub mod chain; // chain.rt: the reader of a chain
mod refusal; // refusal.rt: the checks that can fail

ghost use Rattle.std.specs.Prelude.{◌≡◌};
ghost use Rattle.sheet.specs.Format.{lowest_lot};
ghost use Rattle.sheet.specs.Checks.{lot_in_range};

pub use refusal::Refusal;

// Lot numbers, condition numbers and record numbers each count from 1 on their own; none is ever used for another. Lot 0 may be named too; a sheet's number of
// lots doesn't count it.
#[derive(Clone, Copy, Debug, PartialEq, Eq)]
pub struct Lot(pub u16);

#[derive(Clone, Copy, Debug, PartialEq, Eq)]
pub struct Condition(pub u16);

#[derive(Clone, Copy, Debug, PartialEq, Eq)]
pub struct Record(pub u16);

// Lots 0 to 128: what is kept for each lot that there can be has so many entries.
pub const LOT_ENTRIES: usize = 129;

// The signs of a term: bytes and no enum, since a vacant record has neither, and `term_at` promises the byte that stands there.
pub const SAME: u8 = 1;

pub const APART: u8 = 2;

// A term record, without its spare byte.
#[derive(Clone, Copy, Debug, PartialEq, Eq)]
pub struct Term {
    pub sign: u8,
    pub a: Lot,
    pub b: Lot,
    pub next: Record,
}

// The counts of a sheet's header.
#[derive(Clone, Copy, Debug, PartialEq, Eq)]
pub struct Header {
    pub lots: u16,
    pub conditions: u16,
    pub records: u16,
}

// Whether a lot is lot 0 or one of n, and so one that a term or a split may name.
pub fn in_lots(n: u16, lot: Lot) -> bool
    ensures { result ≡ lot_in_range lowest_lot n lot.0 }
{
    lot.0 <= n
}
