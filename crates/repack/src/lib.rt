// Repacking: an accepted sheet is written into another buffer in the one order of canonical sheets.
#![tactic(auto)]

ghost use mathlib.Core.List.{flatten};
ghost use Rattle.std.specs.Prelude.{◌≡◌, length};
ghost use Rattle.sheet.specs.Format.{record_count};
ghost use Rattle.sheet.specs.Conditions.{conditions};
ghost use Rattle.sheet.specs.Inner.{HasConditions};
ghost use Rattle.writer.specs.Answers.{written_answer, OfWritten};
ghost use Rattle.writer.specs.Drafts.{draft, with_conditions, RoomForAll};
ghost use Rattle.repack.specs.Repack.{repacked, repack_answer, repack_out};
ghost use Rattle.repack.specs.Promises.{Alike, ServedAlike};

use sheet::{Condition, Record, Refusal};
use writer::Writer;

// How many terms a sheet has: as many as records that aren't vacant, which the sign tells.
fn count_terms(sheet: &[u8], m: u16, k: u16) -> u16
    requires { HasConditions sheet.now m × (k ≡ record_count sheet.now) }
    ensures { result ≡ length (flatten (conditions sheet.now)) }
{
    let mut terms: u16 = 0;
    for r in 0..k {
        let t = sheet::format::term_at(sheet, m, Record(r + 1));
        if t.sign != 0 {
            terms += 1;
        }
    }
    terms
}

// Adds all conditions of a sheet.
fn add_conditions(sheet: &[u8], m: u16, out: &mut [u8], w: Writer) -> Writer
    requires { HasConditions sheet.now m × RoomForAll (conditions sheet.now) (draft out.old w) }
    ensures { draft out.new result ≡ with_conditions (conditions sheet.now) (draft out.old w) }
{
    let mut next = w;
    for c in 0..m {
        next = writer::add_condition(sheet, m, Condition(c + 1), out, next);
    }
    next
}

// Repacks a sheet, for any bytes and any buffer at all. What is written says what the sheet says, stays as it is when it is repacked again, and is answered as
// the sheet is, but for k, which counts no vacant record there. The sheet is read by the reader, its records once more for the count of its terms, and its
// chains once more by the writer.
pub fn repack(sheet: &[u8], out: &mut [u8]) -> Result<u32, Refusal>
    ensures answer { written_answer result ≡ repack_answer sheet.now out.old }
    ensures output { out.new ≡ repack_out sheet.now out.old }
    ensures says { OfWritten (λ w. Alike w sheet.now) (written_answer result) out.new }
    ensures again { OfWritten (λ w. repacked w ≡ w) (written_answer result) out.new }
    ensures alike { OfWritten (λ w. ServedAlike w sheet.now) (written_answer result) out.new }
{
    let h = reader::read(sheet)?;
    let terms = count_terms(sheet, h.conditions, h.records);
    let needed = writer::length_of(h.conditions, terms);
    if out.len() < needed as usize {
        return Err(Refusal::ShortForPacked(needed));
    }
    let w = writer::begin(out, h.lots, h.conditions, terms);
    add_conditions(sheet, h.conditions, out, w);
    Ok(needed)
}
