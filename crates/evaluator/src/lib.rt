// The evaluator: whether the numbers that a grouping gives the lots meet a sheet.
#![tactic(auto)]

ghost use Rattle.std.specs.Prelude.{◌≡◌, ℕ, ◌+◌, ◌≤◌, ◌<◌, length, get_or};
ghost use Rattle.sheet.specs.Format.{lot_count};
ghost use Rattle.sheet.specs.Conditions.{term_of, terms_from, conditions};
ghost use Rattle.sheet.specs.Inner.{HasConditions, OnChain};
ghost use Rattle.equality.specs.Meaning.{holds, meets_condition};
ghost use Rattle.equality.specs.Evaluator.{number_in, lowest_unmet, evaluate_answer};
ghost use Rattle.evaluator.specs.Answers.{evaluation_answer, unmet_or, evaluate_case, Evaluated};
ghost use Rattle.evaluator.specs.Numbers.{number_at, Evaluable};

use sheet::{Condition, Lot, Record, Refusal, SAME, Term};

// Lots 1 to n get their numbers from a grouping, lot i from byte i − 1. The other entries stay.
pub fn number_lots(numbers: &mut [u8], grouping: &[u8], n: usize)
    requires { (n < length numbers.old) × (n ≤ length grouping.now) }
    ensures numbered { (i : ℕ) → i < n → get_or numbers.new (i + 1) 0 ≡ get_or grouping.now i 0 }
    ensures zero { get_or numbers.new 0 0 ≡ get_or numbers.old 0 0 }
    ensures above { (j : ℕ) → n < j → get_or numbers.new j 0 ≡ get_or numbers.old j 0 }
{
    numbers[1..=n].copy_from_slice(&grouping[..n]);
}

// A lot's number.
fn number_of(numbers: &[u8], lot: Lot) -> u8
    requires { lot.0 < length numbers.now }
    ensures { result ≡ number_at numbers.now lot.0 }
{
    let i = lot.0 as usize;
    numbers[i]
}

// Whether a term is true.
fn is_true(numbers: &[u8], t: Term) -> bool
    requires { (t.a.0 < length numbers.now) × (t.b.0 < length numbers.now) }
    ensures { result ≡ holds (number_at numbers.now) (term_of t.sign t.a.0 t.b.0) }
{
    let same = number_of(numbers, t.a) == number_of(numbers, t.b);
    if t.sign == SAME { same } else { !same }
}

// Whether the condition whose chain begins at a record is met. The loop ends at the first true term; every term that it has passed is false. A condition with
// no term is met: it is withdrawn.
pub fn is_met(sheet: &[u8], m: u16, numbers: &[u8], head: Record) -> bool
    requires { Evaluable sheet.now numbers.now m × OnChain sheet.now head.0 }
    ensures { result ≡ meets_condition (number_at numbers.now) (terms_from sheet.now head.0) }
{
    let mut at = head;
    let mut met = head.0 == 0;
    while at.0 != 0 {
        let t = sheet::chain::term_at(sheet, at, m);
        met = is_true(numbers, t);
        if met {
            break;
        }
        at = t.next;
    }
    met
}

// The lowest condition that is not met, if there is one.
fn first_unmet(sheet: &[u8], m: u16, numbers: &[u8]) -> Option<Condition>
    requires { Evaluable sheet.now numbers.now m }
    ensures { result ≡ unmet_or (lowest_unmet (number_at numbers.now) 1 (conditions sheet.now)) }
{
    for c in 0..m {
        let head = sheet::format::head_at(sheet, Condition(c + 1));
        if !is_met(sheet, m, numbers, head) {
            return Some(Condition(c + 1));
        }
    }
    None
}

// The evaluation of an accepted sheet with n lots and m conditions, by a grouping of at least n bytes. Lot 0 has the number 0. The numbers are copied to an
// entry for each lot, so that a term's lots, lot 0 among them, are looked up without a test.
fn evaluate_accepted(sheet: &[u8], n: u16, m: u16, grouping: &[u8]) -> Option<Condition>
    requires { HasConditions sheet.now m × (n ≡ lot_count sheet.now) × (n ≤ length grouping.now) }
    ensures { result ≡ unmet_or (lowest_unmet (number_in grouping.now) 1 (conditions sheet.now)) }
{
    let mut numbers = [0u8; sheet::LOT_ENTRIES];
    number_lots(&mut numbers, grouping, n as usize);
    first_unmet(sheet, m, &numbers)
}

// The evaluator, for any bytes at all: the first check that fails, or the lowest condition that isn't met, if there is one.
pub fn evaluate(sheet: &[u8], grouping: &[u8]) -> Result<Option<Condition>, Refusal>
    ensures case { result ≡ evaluate_case sheet.now grouping.now }
    ensures answer { evaluation_answer result ≡ evaluate_answer sheet.now grouping.now }
    ensures meaning { Evaluated (evaluation_answer result) sheet.now grouping.now }
{
    let h = reader::read(sheet)?;
    if grouping.len() < h.lots as usize {
        return Err(Refusal::ShortGrouping(h.lots));
    }
    Ok(evaluate_accepted(sheet, h.lots, h.conditions, grouping))
}
