// Merging: two accepted sheets become one, which has the conditions of the first and then those of the second, without repeats, and with all that are
// withdrawn.
#![tactic(auto)]

ghost use Rattle.std.specs.Prelude.{◌≡◌, max};
ghost use Rattle.sheet.specs.Format.{lot_count};
ghost use Rattle.sheet.specs.Checks.{Accepted};
ghost use Rattle.sheet.specs.Conditions.{conditions};
ghost use Rattle.sheet.specs.Inner.{HasConditions};
ghost use Rattle.writer.specs.Answers.{OfWritten};
ghost use Rattle.repack.specs.Repack.{repacked};
ghost use Rattle.repeats.specs.Repeats.{has_terms, merged_conditions};
ghost use Rattle.merge.specs.Merge.{merged_lots, which_refused, merge_answer, merge_out};
ghost use Rattle.merge.specs.Answers.{merged_answer, sheet_refused};
ghost use Rattle.merge.specs.Promises.{MeetsBoth, Placed};

use repeats::kept;
use sheet::Refusal;

// Why a merge is refused, on which nothing is written: the first sheet is, or the second, or both together.
#[derive(Clone, Copy, Debug, PartialEq, Eq)]
pub enum MergeRefusal {
    First(Refusal),
    Second(Refusal),
    Both(Refusal),
}

// Merges two sheets that are accepted, with so many conditions each, into one of so many lots.
fn merge_both(
    first: &[u8],
    m1: u16,
    second: &[u8],
    m2: u16,
    lots: u16,
    out: &mut [u8],
) -> Result<u32, MergeRefusal>
    requires { HasConditions first.now m1 × HasConditions second.now m2 × (lots ≡ merged_lots first.now second.now) }
    ensures answer { merged_answer result ≡ merge_answer has_terms first.now second.now out.old }
    ensures sheet { sheet_refused result ≡ which_refused first.now second.now }
    ensures output { out.new ≡ merge_out has_terms first.now second.now out.old }
{
    let mut entries = [0u32; kept::ENTRIES];
    let both = kept::gather_both(first, m1, second, m2, &mut entries);
    let conditions = both.upto as u16;
    let terms = both.terms;
    if 256 < conditions {
        return Err(MergeRefusal::Both(Refusal::TooManyMergedConditions));
    }
    if 1024 < terms {
        return Err(MergeRefusal::Both(Refusal::TooManyMergedRecords));
    }
    let needed = writer::length_of(conditions, terms);
    if out.len() < needed as usize {
        return Err(MergeRefusal::Both(Refusal::ShortForMerged(needed)));
    }
    let begun = writer::begin(out, lots, conditions, terms);
    let half = kept::add(first, m1, &entries[..both.first], out, begun);
    kept::add(second, m2, &entries[both.first..both.upto], out, half);
    Ok(needed)
}

// Merges a sheet that is accepted with another.
fn merge_second(
    first: &[u8],
    lots: u16,
    m: u16,
    second: &[u8],
    out: &mut [u8],
) -> Result<u32, MergeRefusal>
    requires { HasConditions first.now m × (lots ≡ lot_count first.now) }
    ensures answer { merged_answer result ≡ merge_answer has_terms first.now second.now out.old }
    ensures sheet { sheet_refused result ≡ which_refused first.now second.now }
    ensures output { out.new ≡ merge_out has_terms first.now second.now out.old }
{
    let h = reader::read(second).map_err(MergeRefusal::Second)?;
    merge_both(first, m, second, h.conditions, lots.max(h.lots), out)
}

// Merges two sheets, for any bytes and any buffer at all; the two may be one slice. What is written is accepted and packed, has the larger number of lots and
// the conditions of both without repeats, and is met by exactly those who meet both sheets. Withdrawn conditions keep their places.
pub fn merge(first: &[u8], second: &[u8], out: &mut [u8]) -> Result<u32, MergeRefusal>
    ensures answer { merged_answer result ≡ merge_answer has_terms first.now second.now out.old }
    ensures sheet { sheet_refused result ≡ which_refused first.now second.now }
    ensures output { out.new ≡ merge_out has_terms first.now second.now out.old }
    ensures accepted { OfWritten (λ w. Accepted w) (merged_answer result) out.new }
    ensures packed { OfWritten (λ w. repacked w ≡ w) (merged_answer result) out.new }
    ensures lots { OfWritten (λ w. lot_count w ≡ max (lot_count first.now) (lot_count second.now))
        (merged_answer result) out.new }
    ensures conditions { OfWritten (λ w. conditions w ≡ merged_conditions has_terms first.now second.now)
        (merged_answer result) out.new }
    ensures meets { OfWritten (λ w. MeetsBoth w first.now second.now) (merged_answer result) out.new }
    ensures places { OfWritten (λ w. Placed w first.now second.now) (merged_answer result) out.new }
{
    let h = reader::read(first).map_err(MergeRefusal::First)?;
    merge_second(first, h.lots, h.conditions, second, out)
}
