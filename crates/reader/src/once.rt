// Checks 17 and 6 along the chains: no vacant record is reached, and each record at most once; and with them check 7.
ghost use Rattle.std.specs.Prelude.{◌≡◌, List, [], ℕ, ◌≤◌};
ghost use Rattle.sheet.specs.Verdicts.{Passes};
ghost use Rattle.sheet.specs.Format.{lowest_lot, record_count};
ghost use Rattle.sheet.specs.Refusals.{verdict_of};
ghost use Rattle.sheet.specs.Checks.{walked, or_else, check4, check5, check17_and6, check7};
ghost use Rattle.sheet.specs.Inner.{HasHeader, Flags, Walkable, WalkedTo, one_chain};

use crate::checks;
use sheet::{Condition, Header, Record, Refusal, chain, format};

// One chain, from its head to the zero. A record without a sign is vacant, since check 5 has passed. The walk ends since each step flags a record that was not
// flagged before.
fn walk_chain(sheet: &[u8], h: Header, head: Record, flags: &mut [u8]) -> Result<(), Refusal>
    requires { Walkable sheet.now h flags.old × (head.0 ≤ record_count sheet.now) }
    ensures { (seen : List ℕ) → Flags flags.old seen
        → WalkedTo (one_chain sheet.now seen head.0) (verdict_of result) flags.new }
{
    let m = h.conditions;
    let mut at = head;
    while at.0 != 0 {
        let t = chain::term_at(sheet, at, m);
        if t.sign == 0 {
            return Err(Refusal::VacantReached(at));
        }
        let i = (at.0 - 1) as usize;
        if flags[i] == 1 {
            return Err(Refusal::ReachedTwice(at));
        }
        flags[i] = 1;
        at = t.next;
    }
    Ok(())
}

// The chains of all conditions, walked in order.
fn walk(sheet: &[u8], h: Header, flags: &mut [u8]) -> Result<(), Refusal>
    requires { Walkable sheet.now h flags.old × Flags flags.old [] }
    ensures { WalkedTo (walked sheet.now) (verdict_of result) flags.new }
{
    for c in 1..=h.conditions {
        let head = format::head_at(sheet, Condition(c));
        walk_chain(sheet, h, head, flags)?;
    }
    Ok(())
}

// Checks 17, 6 and 7: each record that isn't vacant is reached, and once, and no other is. No flag is set yet.
fn reached_once(sheet: &[u8], h: Header, flags: &mut [u8]) -> Result<(), Refusal>
    requires { Walkable sheet.now h flags.old × Flags flags.old [] }
    ensures { verdict_of result ≡ or_else (check17_and6 sheet.now) (check7 sheet.now) }
{
    walk(sheet, h, flags)?;
    checks::reached(sheet, h, flags)
}

// Checks 17, 6 and 7, once checks 1 to 5 have passed. A flag is a byte, of fixed memory: `Flags` speaks of numbers.
pub(crate) fn check(sheet: &[u8], h: Header) -> Result<(), Refusal>
    requires { HasHeader sheet.now h × (check4 sheet.now ≡ Passes) × (check5 lowest_lot sheet.now ≡ Passes) }
    ensures { verdict_of result ≡ or_else (check17_and6 sheet.now) (check7 sheet.now) }
{
    let k = h.records as usize;
    let mut flags = [0u8; 1024];
    reached_once(sheet, h, &mut flags[..k])
}
