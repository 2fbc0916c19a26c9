// The count of the conditions that the numbers of a grouping don't meet.
#![tactic(auto)]

ghost use Rattle.std.specs.Prelude.{◌≡◌, ◌≤◌, length};
ghost use Rattle.sheet.specs.Format.{lot_count};
ghost use Rattle.sheet.specs.Conditions.{terms_from, conditions};
ghost use Rattle.sheet.specs.Inner.{HasConditions, OnChain};
ghost use Rattle.equality.specs.Evaluator.{number_in};
ghost use Rattle.evaluator.specs.Numbers.{number_at, Evaluable};
ghost use Rattle.reassignment.specs.Count.{unmet_one, unmet_count, count_answer};
ghost use Rattle.counter.specs.Answers.{counting_answer, CountMeans};

use sheet::{Condition, Record, Refusal};

// What the condition whose chain begins at a record counts for: 1 where it isn't met, else 0.
pub fn unmet_one(sheet: &[u8], m: u16, numbers: &[u8], head: Record) -> u32
    requires { Evaluable sheet.now numbers.now m × OnChain sheet.now head.0 }
    ensures { result ≡ unmet_one (number_at numbers.now) (terms_from sheet.now head.0) }
{
    u32::from(!evaluator::is_met(sheet, m, numbers, head))
}

// The count over all conditions.
fn count_all(sheet: &[u8], m: u16, numbers: &[u8]) -> u32
    requires { Evaluable sheet.now numbers.now m }
    ensures { result ≡ unmet_count (number_at numbers.now) (conditions sheet.now) }
{
    let mut count: u32 = 0;
    for c in 0..m {
        let head = sheet::format::head_at(sheet, Condition(c + 1));
        count += unmet_one(sheet, m, numbers, head);
    }
    count
}

// The count for an accepted sheet with n lots and m conditions, by a grouping of at least n bytes.
fn count_accepted(sheet: &[u8], n: u16, m: u16, grouping: &[u8]) -> u32
    requires { HasConditions sheet.now m × (n ≡ lot_count sheet.now) × (n ≤ length grouping.now) }
    ensures { result ≡ unmet_count (number_in grouping.now) (conditions sheet.now) }
{
    let mut numbers = [0u8; sheet::LOT_ENTRIES];
    evaluator::number_lots(&mut numbers, grouping, n as usize);
    count_all(sheet, m, &numbers)
}

// The counting service, for any bytes at all: the first check that fails, or the count.
pub fn count_unmet(sheet: &[u8], grouping: &[u8]) -> Result<u32, Refusal>
    ensures answer { counting_answer result ≡ count_answer sheet.now grouping.now }
    ensures meaning { CountMeans (counting_answer result) sheet.now grouping.now }
{
    let h = reader::read(sheet)?;
    if grouping.len() < h.lots as usize {
        return Err(Refusal::ShortGrouping(h.lots));
    }
    Ok(count_accepted(sheet, h.lots, h.conditions, grouping))
}
