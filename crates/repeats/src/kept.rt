// The conditions that stay, in lent numbers: an entry for each, which has the condition's number and the digest of its terms. The entries of the first sheet
// stand before those of the second.
ghost use Rattle.std.specs.Prelude.{◌≡◌, ◌++◌, ◌*◌, ◌≤◌, ◌<◌, length};
ghost use Rattle.buffers.specs.Lists.{All};
ghost use Rattle.sheet.specs.Format.{most_conditions};
ghost use Rattle.sheet.specs.Conditions.{terms_from};
ghost use Rattle.sheet.specs.Inner.{HasConditions};
ghost use Rattle.writer.specs.Drafts.{draft, with_conditions, RoomForAll};
ghost use Rattle.repeats.specs.Repeats.{repeats};
ghost use Rattle.repeats.specs.Inner.{digest_limit, SoughtIn, number_in, digest_in, EntryOf, kept_of, is_left_out, Gathered, Entered};

use crate::chains;
use crate::chains::Sought;
use sheet::Condition;
use writer::Writer;

// Two sheets have no more conditions than so many.
pub const ENTRIES: usize = 512;

// A condition's number is less than this, and stands in an entry below the digest: as a pair, 512 entries would take twice the memory.
const NUMBERS: u32 = 512;

// How far the entries of a sheet go, and how many terms their conditions have.
#[derive(Clone, Copy)]
pub struct Kept {
    pub upto: usize,
    pub terms: u16,
}

// How far the entries of the first sheet go, how far those of both, and how many terms their conditions have.
#[derive(Clone, Copy)]
pub struct Both {
    pub first: usize,
    pub upto: usize,
    pub terms: u16,
}

fn entry_of(c: Condition, digest: u32) -> u32
    requires { (c.0 ≤ most_conditions) × (digest < digest_limit) }
    ensures { (number_in result ≡ c.0) × (digest_in result ≡ digest) }
{
    digest * NUMBERS + (c.0 as u32)
}

fn number_in(entry: u32) -> Condition
    ensures { result.0 ≡ number_in entry }
{
    Condition((entry % NUMBERS) as u16)
}

fn digest_in(entry: u32) -> u32
    ensures { result ≡ digest_in entry }
{
    entry / NUMBERS
}

// Whether a condition of a sheet repeats one of those of another sheet, or of the same, that have an entry. Terms are compared only where digests are equal.
fn repeats_between(
    sheet: &[u8],
    m: u16,
    condition: Sought,
    other: &[u8],
    m2: u16,
    entries: &[u32],
) -> bool
    requires { HasConditions sheet.now m × SoughtIn sheet.now condition
        × HasConditions other.now m2 × All (EntryOf other.now) entries.now }
    ensures { result ≡ repeats (terms_from sheet.now condition.head.0) (kept_of other.now entries.now) }
{
    for &entry in entries {
        if digest_in(entry) != condition.digest {
            continue;
        }
        let at = sheet::format::head_at(other, number_in(entry));
        if chains::equal_chains(sheet, m, condition.head, other, m2, at) {
            return true;
        }
    }
    false
}

// Whether a condition of the second sheet is left out: it has a term, and repeats one of the first sheet that has an entry, or one of its own that has one.
fn left_out(
    first: &[u8],
    m1: u16,
    mine: &[u32],
    second: &[u8],
    m2: u16,
    condition: Sought,
    others: &[u32],
) -> bool
    requires { HasConditions first.now m1 × HasConditions second.now m2 × SoughtIn second.now condition
        × All (EntryOf first.now) mine.now × All (EntryOf second.now) others.now }
    ensures { result ≡ is_left_out (terms_from second.now condition.head.0)
        (kept_of first.now mine.now ++ kept_of second.now others.now) }
{
    if condition.head.0 == 0 {
        return false;
    }
    if repeats_between(second, m2, condition, first, m1, mine) {
        return true;
    }
    repeats_between(second, m2, condition, second, m2, others)
}

// Enters each condition of the second sheet that stays behind those of the first sheet that have an entry. Entries are counted by hand, since not every
// condition gets one.
fn gather(first: &[u8], m1: u16, mine: &[u32], second: &[u8], m2: u16, others: &mut [u32]) -> Kept
    requires { HasConditions first.now m1 × HasConditions second.now m2
        × All (EntryOf first.now) mine.now × (m2 ≤ length others.old) }
    ensures { Gathered first.now mine.now second.now others.new result }
{
    let mut upto: usize = 0;
    let mut terms: u16 = 0;
    for c in 1..=m2 {
        let condition = chains::condition_at(second, m2, Condition(c));
        if left_out(first, m1, mine, second, m2, condition, &others[..upto]) {
            continue;
        }
        others[upto] = entry_of(Condition(c), condition.digest);
        upto += 1;
        terms += condition.terms;
    }
    Kept { upto, terms }
}

// The entries of all conditions that stay.
pub fn gather_both(first: &[u8], m1: u16, second: &[u8], m2: u16, entries: &mut [u32]) -> Both
    requires { HasConditions first.now m1 × HasConditions second.now m2 × (2 * most_conditions ≤ length entries.old) }
    ensures { Entered first.now second.now entries.new result }
{
    let kept = gather(first, m1, &[], first, m1, entries);
    let (mine, others) = entries.split_at_mut(kept.upto);
    let more = gather(first, m1, mine, second, m2, others);
    Both {
        first: kept.upto,
        upto: kept.upto + more.upto,
        terms: kept.terms + more.terms,
    }
}

// Adds the conditions that have an entry to a sheet that is being written.
pub fn add(sheet: &[u8], m: u16, entries: &[u32], out: &mut [u8], w: Writer) -> Writer
    requires { HasConditions sheet.now m × All (EntryOf sheet.now) entries.now
        × RoomForAll (kept_of sheet.now entries.now) (draft out.old w) }
    ensures { draft out.new result ≡ with_conditions (kept_of sheet.now entries.now) (draft out.old w) }
{
    let mut next = w;
    for &entry in entries {
        next = writer::add_condition(sheet, m, number_in(entry), out, next);
    }
    next
}
