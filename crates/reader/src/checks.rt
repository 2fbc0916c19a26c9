// Checks 1 to 5 and 7.
ghost use Rattle.std.specs.Prelude.{◌≡◌, not, ◌||◌, ◌≤◌, eqb, IfOk};
ghost use Rattle.sheet.specs.Format.{lowest_lot, record_count, same_sign, apart_sign, vacant};
ghost use Rattle.sheet.specs.Refusals.{verdict_of};
ghost use Rattle.sheet.specs.Checks.{first_refusal, header_checks, check4, check5, well_formed};
ghost use Rattle.sheet.specs.Inner.{HasHeader, HasRecord, Flaggable, header_at, is_flagged, unflagged_verdict};

use sheet::{APART, Condition, Header, Record, Refusal, SAME, format, in_lots};

// Checks 1 to 3: the header and the length. The header of a sheet that passes.
pub(crate) fn header(sheet: &[u8]) -> Result<Header, Refusal>
    ensures verdict { verdict_of result ≡ first_refusal (header_checks sheet.now) }
    ensures header { IfOk result (λ h. h ≡ header_at sheet.now) }
{
    if sheet.len() < 6 {
        return Err(Refusal::ShortHeader);
    }
    let h = format::header_of(sheet);
    if 128 < h.lots {
        return Err(Refusal::TooManyLots);
    }
    if 256 < h.conditions {
        return Err(Refusal::TooManyConditions);
    }
    if 1024 < h.records {
        return Err(Refusal::TooManyRecords);
    }
    if sheet.len() != 6 + 2 * (h.conditions as usize) + 8 * (h.records as usize) {
        return Err(Refusal::WrongLength);
    }
    Ok(h)
}

// Check 4: each head is at most k.
pub(crate) fn heads(sheet: &[u8], h: Header) -> Result<(), Refusal>
    requires { HasHeader sheet.now h }
    ensures { verdict_of result ≡ check4 sheet.now }
{
    for c in 1..=h.conditions {
        let head = format::head_at(sheet, Condition(c));
        if h.records < head.0 {
            return Err(Refusal::HeadTooHigh(Condition(c)));
        }
    }
    Ok(())
}

// Check 5: each record is vacant or well formed.
pub(crate) fn records(sheet: &[u8], h: Header) -> Result<(), Refusal>
    requires { HasHeader sheet.now h }
    ensures { verdict_of result ≡ check5 lowest_lot sheet.now }
{
    for r in 1..=h.records {
        if !vacant_or_formed(sheet, h, Record(r)) {
            return Err(Refusal::IllFormed(Record(r)));
        }
    }
    Ok(())
}

// A record is vacant or well formed. Most are well formed, so that is asked first.
fn vacant_or_formed(sheet: &[u8], h: Header, r: Record) -> bool
    requires { (h ≡ header_at sheet.now) × HasRecord sheet.now h.conditions r.0 }
    ensures { result ≡ (vacant sheet.now r.0 || well_formed lowest_lot sheet.now r.0) }
{
    if well_formed(sheet, h, r) {
        return true;
    }
    format::is_vacant(sheet, h.conditions, r)
}

// Sign, spare, both lots and next of a record are in range. Sign and spare are looked at as one number, which is quicker.
fn well_formed(sheet: &[u8], h: Header, r: Record) -> bool
    requires { (h ≡ header_at sheet.now) × HasRecord sheet.now h.conditions r.0 }
    ensures { result ≡ well_formed lowest_lot sheet.now r.0 }
{
    let t = format::term_at(sheet, h.conditions, r);
    if !sign_known(format::sign_spare_at(sheet, h.conditions, r)) {
        return false;
    }
    if !in_lots(h.lots, t.a) {
        return false;
    }
    if !in_lots(h.lots, t.b) {
        return false;
    }
    t.next.0 <= h.records
}

// Sign and spare byte, as one number, are "same" or "apart" and 0.
fn sign_known(x: u16) -> bool
    ensures { result ≡ (eqb x same_sign || eqb x apart_sign) }
{
    x == (SAME as u16) || x == (APART as u16)
}

// Check 7: each record is vacant or flagged as reached.
pub(crate) fn reached(sheet: &[u8], h: Header, flags: &[u8]) -> Result<(), Refusal>
    requires { Flaggable sheet.now h flags.now }
    ensures { verdict_of result ≡ unflagged_verdict sheet.now flags.now }
{
    for r in 1..=h.records {
        if left_out(sheet, h, flags, Record(r)) {
            return Err(Refusal::NeverReached(Record(r)));
        }
    }
    Ok(())
}

// A record is neither flagged nor vacant. Flag i is that of record i + 1; check 5 has passed, so a record without a sign is vacant.
fn left_out(sheet: &[u8], h: Header, flags: &[u8], r: Record) -> bool
    requires { Flaggable sheet.now h flags.now × (1 ≤ r.0) × (r.0 ≤ record_count sheet.now) }
    ensures { result ≡ not (vacant sheet.now r.0 || is_flagged flags.now r.0) }
{
    let i = (r.0 - 1) as usize;
    if flags[i] == 1 {
        return false;
    }
    let t = format::term_at(sheet, h.conditions, r);
    t.sign != 0
}
