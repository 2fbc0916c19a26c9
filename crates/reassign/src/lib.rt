// A lot given another number in a grouping, with the count of unmet conditions kept up: only the conditions that name the lot are weighed.
#![tactic(auto)]

ghost use Rattle.std.specs.Prelude.{◌≡◌};
ghost use Rattle.sheet.specs.Conditions.{term_of, terms_from, conditions};
ghost use Rattle.sheet.specs.Inner.{HasConditions, OnChain};
ghost use Rattle.sheet.specs.Answers.{answered, answer_of};
ghost use Rattle.evaluator.specs.Numbers.{number_at, Evaluable};
ghost use Rattle.reassignment.specs.Reassign.{term_names, names, ill_lot, ill_count, check22, with_value, new_count, reassign_answer, written_if, reassign_grouping};
ghost use Rattle.counter.specs.Answers.{counting_answer};
ghost use Rattle.reassign.specs.Weights.{weight_of, weight_all, weight_in, Reassignable};
ghost use Rattle.reassign.specs.Promises.{StaysCounted, RightGoesThrough};

use sheet::{Condition, Lot, Record, Refusal, Term};

// How many of the conditions that name a lot are unmet before it gets another number, and how many after.
#[derive(Clone, Copy, Debug, PartialEq, Eq)]
pub struct Weight {
    before: u32,
    after: u32,
}

// Whether a term names a lot, in either field.
fn term_names(t: Term, lot: Lot) -> bool
    ensures { result ≡ term_names lot.0 (term_of t.sign t.a.0 t.b.0) }
{
    t.a == lot || t.b == lot
}

// Whether the condition whose chain begins at a record names a lot. The loop ends at the first term that does.
fn names_lot(sheet: &[u8], m: u16, head: Record, lot: Lot) -> bool
    requires { HasConditions sheet.now m × OnChain sheet.now head.0 }
    ensures { result ≡ names lot.0 (terms_from sheet.now head.0) }
{
    let mut at = head;
    while at.0 != 0 {
        let t = sheet::chain::term_at(sheet, at, m);
        if term_names(t, lot) {
            return true;
        }
        at = t.next;
    }
    false
}

// What the condition whose chain begins at a record counts for. One that doesn't name the lot counts for nothing, and isn't evaluated.
fn weigh_one(sheet: &[u8], m: u16, before: &[u8], after: &[u8], lot: Lot, head: Record) -> Weight
    requires { Evaluable sheet.now before.now m × Evaluable sheet.now after.now m × OnChain sheet.now head.0 }
    ensures { result ≡ weight_of (number_at before.now) (number_at after.now) lot.0 (terms_from sheet.now head.0) }
{
    if !names_lot(sheet, m, head, lot) {
        return Weight {
            before: 0,
            after: 0,
        };
    }
    let was = counter::unmet_one(sheet, m, before, head);
    let is = counter::unmet_one(sheet, m, after, head);
    Weight {
        before: was,
        after: is,
    }
}

// What all conditions count for: one walk over them, in which those that name the lot are found and weighed.
fn weigh(sheet: &[u8], m: u16, before: &[u8], after: &[u8], lot: Lot) -> Weight
    requires { Evaluable sheet.now before.now m × Evaluable sheet.now after.now m }
    ensures { result ≡ weight_all (number_at before.now) (number_at after.now) lot.0 (conditions sheet.now) }
{
    let mut was: u32 = 0;
    let mut is: u32 = 0;
    for c in 0..m {
        let head = sheet::format::head_at(sheet, Condition(c + 1));
        let one = weigh_one(sheet, m, before, after, lot, head);
        was += one.before;
        is += one.after;
    }
    Weight {
        before: was,
        after: is,
    }
}

// What all conditions of an accepted sheet with n lots and m conditions count for, by a grouping of at least n bytes, in which a lot gets another number. The
// grouping is not written.
fn weigh_grouping(sheet: &[u8], n: u16, m: u16, grouping: &[u8], lot: Lot, value: u8) -> Weight
    requires { Reassignable sheet.now grouping.now n m lot.0 }
    ensures { result ≡ weight_in sheet.now grouping.now lot.0 value }
{
    let mut before = [0u8; sheet::LOT_ENTRIES];
    evaluator::number_lots(&mut before, grouping, n as usize);
    let mut after = before;
    let i = lot.0 as usize;
    after[i] = value;
    weigh(sheet, m, &before, &after, lot)
}

// Whether a lot is none of lots 1 to n, by all of its 32 bits: "lot 0 or above n".
fn ill_lot(n: u16, lot: u32) -> bool
    ensures { result ≡ ill_lot n lot }
{
    lot == 0 || (n as u32) < lot
}

// Whether a running count can't be right: "kept count above m or below the unmet ones named".
fn ill_count(m: u16, before: u32, count: u32) -> bool
    ensures { result ≡ ill_count m before count }
{
    (m as u32) < count || count < before
}

// A lot of an accepted sheet gets another number, unless the running count can't be right.
fn reassign_lot(
    sheet: &[u8],
    n: u16,
    m: u16,
    grouping: &mut [u8],
    count: u32,
    lot: Lot,
    value: u8,
) -> Result<u32, Refusal>
    requires { Reassignable sheet.now grouping.old n m lot.0 }
    ensures answer { counting_answer result ≡ answer_of (check22 sheet.now grouping.old count lot.0)
        (answered (new_count sheet.now grouping.old count lot.0 value) 0 0) }
    ensures grouping { grouping.new ≡ written_if (check22 sheet.now grouping.old count lot.0)
        (with_value grouping.old lot.0 value) grouping.old }
{
    let i = (lot.0 - 1) as usize;
    let weight = weigh_grouping(sheet, n, m, grouping, lot, value);
    if ill_count(m, weight.before, count) {
        return Err(Refusal::WrongCount(count));
    }
    grouping[i] = value;
    Ok(count - weight.before + weight.after)
}

// A lot gets another number, for any bytes and numbers at all: the first check that fails, or the new count.
pub fn reassign(
    sheet: &[u8],
    grouping: &mut [u8],
    count: u32,
    lot: u32,
    value: u8,
) -> Result<u32, Refusal>
    ensures answer { counting_answer result ≡ reassign_answer sheet.now grouping.old count lot value }
    ensures grouping { grouping.new ≡ reassign_grouping sheet.now grouping.old count lot value }
    ensures counted { StaysCounted (counting_answer result) sheet.now grouping.old count grouping.new }
    ensures right { RightGoesThrough (counting_answer result) sheet.now grouping.old count lot value grouping.new }
{
    let h = reader::read(sheet)?;
    if grouping.len() < h.lots as usize {
        return Err(Refusal::ShortGrouping(h.lots));
    }
    if ill_lot(h.lots, lot) {
        return Err(Refusal::NoSuchLot(lot));
    }
    let lot = Lot(lot as u16);
    reassign_lot(sheet, h.lots, h.conditions, grouping, count, lot, value)
}
