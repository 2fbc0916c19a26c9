// The parts of which writers of canonical sheets are made: the header, then condition after condition, each with its terms one by one, from wherever they come.
// A term that is added gets next zero, and its number goes where the term before it, or the head, leads on.
#![tactic(auto)]

ghost use Rattle.std.specs.Prelude.{◌≡◌, ◌+◌, ◌*◌, ◌≤◌, length};
ghost use Rattle.sheet.specs.Format.{header_length, condition_count, sheet_length};
ghost use Rattle.sheet.specs.Conditions.{term_of, terms_from, condition_at};
ghost use Rattle.sheet.specs.Inner.{HasConditions, OnChain};
ghost use Rattle.writer.specs.Drafts.{draft, begun, with_condition, with_term, with_terms, KnownSign, RoomFor};

use sheet::{Condition, Lot, Record};

// Where a writer stands in the bytes that it writes.
#[derive(Clone, Copy)]
pub struct Writer {
    // Where the next head goes.
    pub head: usize,
    // Where the next record goes, and its number.
    pub place: usize,
    pub number: Record,
    // Where the number of the next term's record goes: the latest condition's head, or the next of its last record. Before the first condition, 0, as `draft` has it.
    pub link: usize,
}

// The length of a sheet with so many conditions and terms.
pub fn length_of(m: u16, k: u16) -> u32
    ensures { result ≡ sheet_length m k }
{
    6 + 2 * (m as u32) + 8 * (k as u32)
}

// Writes the header. Behind it come the heads of m conditions, and behind these the records.
pub fn begin(out: &mut [u8], n: u16, m: u16, k: u16) -> Writer
    requires { header_length + 2 * m ≤ length out.old }
    ensures { draft out.new result ≡ begun n m k out.old }
{
    buffers::put_number(out, 0, n);
    buffers::put_number(out, 2, m);
    buffers::put_number(out, 4, k);
    Writer {
        head: 6,
        place: 6 + 2 * (m as usize),
        number: Record(1),
        link: 0,
    }
}

// Begins a condition, which has no term yet.
pub fn begin_condition(out: &mut [u8], w: Writer) -> Writer
    requires { RoomFor 1 0 (draft out.old w) }
    ensures { draft out.new result ≡ with_condition (draft out.old w) }
{
    let number = w.number;
    buffers::put_number(out, w.head, 0);
    Writer {
        head: w.head + 2,
        place: w.place,
        number,
        link: w.head,
    }
}

// Adds a term to the latest condition.
pub fn add_term(out: &mut [u8], w: Writer, sign: u8, a: Lot, b: Lot) -> Writer
    requires { KnownSign sign × RoomFor 0 1 (draft out.old w) }
    ensures { draft out.new result ≡ with_term (term_of sign a.0 b.0) (draft out.old w) }
{
    let place = w.place;
    let number = w.number;
    buffers::put_fields(out, place, sign, a.0, b.0);
    buffers::put_number(out, place + 6, 0);
    buffers::put_number(out, w.link, number.0);
    Writer {
        head: w.head,
        place: place + 8,
        number: Record(number.0 + 1),
        link: place + 6,
    }
}

// Adds the terms of a sheet's chain, from its head to the zero.
pub fn add_chain(sheet: &[u8], m: u16, head: Record, out: &mut [u8], w: Writer) -> Writer
    requires { HasConditions sheet.now m × OnChain sheet.now head.0
        × RoomFor 0 (length (terms_from sheet.now head.0)) (draft out.old w) }
    ensures { draft out.new result ≡ with_terms (terms_from sheet.now head.0) (draft out.old w) }
{
    let mut at = head;
    let mut next = w;
    while at.0 != 0 {
        let t = sheet::chain::term_at(sheet, at, m);
        next = add_term(out, next, t.sign, t.a, t.b);
        at = t.next;
    }
    next
}

// Adds a condition of a sheet.
pub fn add_condition(sheet: &[u8], m: u16, c: Condition, out: &mut [u8], w: Writer) -> Writer
    requires { HasConditions sheet.now m × (1 ≤ c.0) × (c.0 ≤ condition_count sheet.now)
        × RoomFor 1 (length (condition_at sheet.now c.0)) (draft out.old w) }
    ensures { draft out.new result ≡ with_terms (condition_at sheet.now c.0) (with_condition (draft out.old w)) }
{
    let head = sheet::format::head_at(sheet, c);
    let begun = begin_condition(out, w);
    add_chain(sheet, m, head, out, begun)
}
