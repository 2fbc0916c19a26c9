// The terms of a chain: their digest, and whether two chains have the same.
ghost use Rattle.std.specs.Prelude.{◌≡◌, ◌≤◌, ◌<◌};
ghost use Rattle.sheet.specs.Format.{most_lots, apart_sign, condition_count};
ghost use Rattle.sheet.specs.Conditions.{terms_from};
ghost use Rattle.sheet.specs.Inner.{HasConditions, OnChain};
ghost use Rattle.repeats.specs.Repeats.{equal_conditions};
ghost use Rattle.repeats.specs.Inner.{digest_limit, digest_fields, equal_fields, SoughtAt};

use sheet::{Condition, Lot, Record, Term};

// A condition that is looked for: the record of its first term, the digest of its terms, and their number.
#[derive(Clone, Copy)]
pub struct Sought {
    pub head: Record,
    pub digest: u32,
    pub terms: u16,
}

// The digest of terms is a polynomial over a prime, so that conditions of equally many terms which differ in one of them have different ones. No answer depends
// on that.
const FACTOR: u32 = 40503;

const PRIME: u32 = 65521;

// One more than the most lots: a term's sign and lots are the digits of one number.
const BASE: u32 = 129;

// The digest of terms, with one more, which has this sign and these lots.
fn digest_with(digest: u32, sign: u8, a: Lot, b: Lot) -> u32
    requires { (digest < digest_limit) × (sign ≤ apart_sign) × (a.0 ≤ most_lots) × (b.0 ≤ most_lots) }
    ensures { result ≡ digest_fields digest sign a.0 b.0 }
{
    let term = ((sign as u32) * BASE + (b.0 as u32)) * BASE + (a.0 as u32);
    (digest * FACTOR + term) % PRIME
}

// The condition c of a sheet, as it is looked for.
pub fn condition_at(sheet: &[u8], m: u16, c: Condition) -> Sought
    requires { HasConditions sheet.now m × (1 ≤ c.0) × (c.0 ≤ condition_count sheet.now) }
    ensures { SoughtAt sheet.now c.0 result }
{
    let head = sheet::format::head_at(sheet, c);
    let mut digest: u32 = 0;
    let mut terms: u16 = 0;
    let mut at = head;
    while at.0 != 0 {
        let t = sheet::chain::term_at(sheet, at, m);
        digest = digest_with(digest, t.sign, t.a, t.b);
        terms += 1;
        at = t.next;
    }
    Sought {
        head,
        digest,
        terms,
    }
}

// Whether two terms have the same sign, and the same lots in the same order.
fn equal_terms(t: Term, u: Term) -> bool
    ensures { result ≡ equal_fields t u }
{
    t.sign == u.sign && t.a.0 == u.a.0 && t.b.0 == u.b.0
}

// Whether two chains, of two sheets with so many conditions each, have the same terms in the same order, each from a record on.
pub fn equal_chains(
    first: &[u8],
    m1: u16,
    head: Record,
    second: &[u8],
    m2: u16,
    other: Record,
) -> bool
    requires { HasConditions first.now m1 × OnChain first.now head.0 × HasConditions second.now m2 × OnChain second.now other.0 }
    ensures { result ≡ equal_conditions (terms_from first.now head.0) (terms_from second.now other.0) }
{
    let mut p = head;
    let mut q = other;
    while p.0 != 0 {
        if q.0 == 0 {
            return false;
        }
        let t = sheet::chain::term_at(first, p, m1);
        let u = sheet::chain::term_at(second, q, m2);
        if !equal_terms(t, u) {
            return false;
        }
        p = t.next;
        q = u.next;
    }
    q.0 == 0
}
