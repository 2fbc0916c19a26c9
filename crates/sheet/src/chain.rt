// A chain reader: it holds a sheet's bytes and the record of the term to read next. `format::term_at`, which does the work, takes the slice and the number
// and is covered; the two functions here are thin.
ghost use Rattle.std.specs.Prelude.{◌≡◌};
ghost use Rattle.sheet.specs.Inner.{term_record_at, HasRecord};
ghost use Rattle.sheet.specs.Chains.{moved_on};

use crate::{Record, Term, format};

#[derive(Drop)]
pub struct Chain<'a> {
    pub sheet: &'a [u8],
    pub next: Record,
}

// The term that is next; the reader moves on to the term's next.
pub fn advance<'s, 'a>(c: &'s mut Chain<'a>, m: u16) -> Term
    requires { HasRecord c.old.sheet.now m c.old.next.0 }
    ensures { (result ≡ term_record_at c.old.sheet.now c.old.next.0) × (c.new ≡ moved_on c.old) }
{
    let t = format::term_at(c.sheet, m, c.next);
    c.next = t.next;
    t
}

// The term at a record, for loops that hold the slice and the number: the reader is made, lent for one step, and given up.
pub fn term_at(sheet: &[u8], next: Record, m: u16) -> Term
    requires { HasRecord sheet.now m next.0 }
    ensures { result ≡ term_record_at sheet.now next.0 }
{
    let mut c = Chain { sheet, next };
    advance(&mut c, m)
}
