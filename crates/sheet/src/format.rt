// Numbers, heads and records in a sheet's bytes.
ghost use Rattle.std.specs.Prelude.{◌≡◌, ◌+◌, ◌*◌, ◌≤◌, length};
ghost use Rattle.sheet.specs.Format.{record_place, head_at, spare_at, vacant};
ghost use Rattle.sheet.specs.Inner.{header_at, term_record_at, sign_spare_at, HasRecord};

use crate::{Condition, Header, Lot, Record, Term};

// The counts of the header.
pub fn header_of(sheet: &[u8]) -> Header
    requires { 6 ≤ length sheet.now }
    ensures { result ≡ header_at sheet.now }
{
    Header {
        lots: buffers::number_at(sheet, 0),
        conditions: buffers::number_at(sheet, 2),
        records: buffers::number_at(sheet, 4),
    }
}

// The record of a condition's first term; zero: it has no term, and is withdrawn.
pub fn head_at(sheet: &[u8], c: Condition) -> Record
    requires { (1 ≤ c.0) × (6 + 2 * c.0 ≤ length sheet.now) }
    ensures { result.0 ≡ head_at sheet.now c.0 }
{
    let n = c.0 as usize;
    Record(buffers::number_at(sheet, 6 + 2 * (n - 1)))
}

// Where a record begins, after the header and m heads.
pub fn record_place(m: u16, r: Record) -> usize
    requires { 1 ≤ r.0 }
    ensures { result ≡ record_place m r.0 }
{
    let n = r.0 as usize;
    6 + 2 * (m as usize) + 8 * (n - 1)
}

// The spare byte of a record.
pub fn spare_at(sheet: &[u8], m: u16, r: Record) -> u8
    requires { HasRecord sheet.now m r.0 }
    ensures { result ≡ spare_at sheet.now r.0 }
{
    let p = record_place(m, r);
    sheet[p + 1]
}

// The sign and the spare byte of a record, as one number.
pub fn sign_spare_at(sheet: &[u8], m: u16, r: Record) -> u16
    requires { HasRecord sheet.now m r.0 }
    ensures { result ≡ sign_spare_at sheet.now r.0 }
{
    let p = record_place(m, r);
    buffers::number_at(sheet, p)
}

// The term at a record.
pub fn term_at(sheet: &[u8], m: u16, r: Record) -> Term
    requires { HasRecord sheet.now m r.0 }
    ensures { result ≡ term_record_at sheet.now r.0 }
{
    let p = record_place(m, r);
    Term {
        sign: sheet[p],
        a: Lot(buffers::number_at(sheet, p + 2)),
        b: Lot(buffers::number_at(sheet, p + 4)),
        next: Record(buffers::number_at(sheet, p + 6)),
    }
}

// Whether a record is vacant. Its fields are all of its eight bytes.
pub fn is_vacant(sheet: &[u8], m: u16, r: Record) -> bool
    requires { HasRecord sheet.now m r.0 }
    ensures { result ≡ vacant sheet.now r.0 }
{
    let t = term_at(sheet, m, r);
    if t.sign != 0 {
        return false;
    }
    if spare_at(sheet, m, r) != 0 {
        return false;
    }
    if t.a.0 != 0 {
        return false;
    }
    if t.b.0 != 0 {
        return false;
    }
    t.next.0 == 0
}
