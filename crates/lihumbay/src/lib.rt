// The services, with their answers as four numbers: what callers in C and Rust get. `lihumbay_c` exports each function for them.
#![tactic(auto)]

ghost use Rattle.std.specs.Prelude.{◌≡◌, max};
ghost use Rattle.sheet.specs.Format.{lot_count};
ghost use Rattle.sheet.specs.Checks.{Accepted};
ghost use Rattle.sheet.specs.Conditions.{conditions};
ghost use Rattle.sheet.specs.Answers.{read_answer};
ghost use Rattle.equality.specs.Evaluator.{evaluate_answer};
ghost use Rattle.reassignment.specs.Count.{count_answer};
ghost use Rattle.reassignment.specs.Reassign.{reassign_answer, reassign_grouping};
ghost use Rattle.outcome.specs.Outcome.{search_outcome};
ghost use Rattle.limit.specs.Meaning.{up_to};
ghost use Rattle.search.specs.Limited.{limited_outcome};
ghost use Rattle.refutation.specs.Refutation.{check_answer, limited_check_answer};
ghost use Rattle.repack.specs.Repack.{repacked, repack_answer, repack_out};
ghost use Rattle.repack.specs.Promises.{Alike, ServedAlike};
ghost use Rattle.repeats.specs.Repeats.{has_terms, merged_conditions};
ghost use Rattle.merge.specs.Merge.{which_refused, merge_answer, merge_out};
ghost use Rattle.merge.specs.Promises.{MeetsBoth, Placed};
ghost use Rattle.numbers.specs.Answers.{numbers_of, merge_numbers};
ghost use Rattle.lihumbay.specs.Promises.{ZeroExactly, NineExactly, OneExactly, OneMeets, OneZero, TwoExactly, TwoWhichever, TwoRefutes, NodesBounded, FirstUnmet, ZeroPassed, ZeroMeans, ZeroWritten};
ghost use Rattle.lihumbay.specs.Promises.{UnmetCounted, ZeroCounted, RightAccepted};
ghost use Rattle.lihumbay.specs.Promises.{NineExactlyUnder, OneExactlyUnder, OneMeetsUnder, OneZeroUnder, TwoExactlyUnder, TwoWhicheverUnder, TwoRefutesUnder, ZeroPassedUnder, ZeroMeansUnder};

use numbers::Numbers;

// The reader: lots, conditions and term records.
pub fn lihumbay_read(sheet: &[u8]) -> Numbers
    ensures answer { result ≡ numbers_of (read_answer sheet.now) }
    ensures accepted { ZeroExactly result sheet.now }
{
    Numbers::from(reader::read(sheet))
}

// The evaluator: 0 where all conditions are met, else the lowest that isn't.
pub fn lihumbay_evaluate(sheet: &[u8], grouping: &[u8]) -> Numbers
    ensures answer { result ≡ numbers_of (evaluate_answer sheet.now grouping.now) }
    ensures meaning { FirstUnmet result sheet.now grouping.now }
{
    Numbers::from(evaluator::evaluate(sheet, grouping))
}

// The count of unmet conditions.
pub fn lihumbay_count_unmet(sheet: &[u8], grouping: &[u8]) -> Numbers
    ensures answer { result ≡ numbers_of (count_answer sheet.now grouping.now) }
    ensures meaning { UnmetCounted result sheet.now grouping.now }
{
    Numbers::from(counter::count_unmet(sheet, grouping))
}

// A lot gets another number: the new count of unmet conditions.
pub fn lihumbay_reassign(
    sheet: &[u8],
    grouping: &mut [u8],
    count: u32,
    lot: u32,
    value: u8,
) -> Numbers
    ensures answer { result ≡ numbers_of (reassign_answer sheet.now grouping.old count lot value) }
    ensures grouping { grouping.new ≡ reassign_grouping sheet.now grouping.old count lot value }
    ensures counted { ZeroCounted result sheet.now grouping.old count grouping.new }
    ensures right { RightAccepted result sheet.now grouping.old count lot }
{
    Numbers::from(reassign::reassign(sheet, grouping, count, lot, value))
}

// The search: 1 for met or 2 for cannot, and the count of records.
pub fn lihumbay_search(sheet: &[u8], grouping: &mut [u8], store: &mut [u8]) -> Numbers
    ensures answer { result ≡ numbers_of (search_outcome sheet.now grouping.old store.old).answer }
    ensures grouping { grouping.new ≡ (search_outcome sheet.now grouping.old store.old).grouping }
    ensures store { store.new ≡ (search_outcome sheet.now grouping.old store.old).store }
    ensures full { NineExactly result sheet.now grouping.old store.old }
    ensures met { OneExactly result sheet.now }
    ensures meets { OneMeets result sheet.now grouping.new }
    ensures zero { OneZero result sheet.now grouping.new }
    ensures cannot { TwoExactly result sheet.now }
    ensures whichever { TwoWhichever result sheet.now }
    ensures refutes { TwoRefutes result sheet.now store.new }
    ensures count { NodesBounded result sheet.now }
{
    Numbers::from(search::search(sheet, grouping, store))
}

// The refutation checker: no value where the list passes.
pub fn lihumbay_check(sheet: &[u8], list: &[u8]) -> Numbers
    ensures answer { result ≡ numbers_of (check_answer sheet.now list.now) }
    ensures passed { ZeroPassed result sheet.now list.now }
    ensures meaning { ZeroMeans result sheet.now }
{
    Numbers::from(checker::check(sheet, list))
}

// The search under a limit on the classes: as the search.
pub fn lihumbay_search_limited(
    sheet: &[u8],
    limit: u32,
    grouping: &mut [u8],
    store: &mut [u8],
) -> Numbers
    ensures answer { result ≡ numbers_of (limited_outcome sheet.now limit grouping.old store.old).answer }
    ensures grouping { grouping.new ≡ (limited_outcome sheet.now limit grouping.old store.old).grouping }
    ensures store { store.new ≡ (limited_outcome sheet.now limit grouping.old store.old).store }
    ensures full { NineExactlyUnder (up_to limit) result sheet.now grouping.old store.old }
    ensures met { OneExactlyUnder (up_to limit) result sheet.now }
    ensures meets { OneMeetsUnder (up_to limit) result sheet.now grouping.new }
    ensures zero { OneZeroUnder (up_to limit) result sheet.now grouping.new }
    ensures cannot { TwoExactlyUnder (up_to limit) result sheet.now }
    ensures whichever { TwoWhicheverUnder (up_to limit) result sheet.now }
    ensures refutes { TwoRefutesUnder (up_to limit) result sheet.now store.new }
{
    Numbers::from(search::search_limited(sheet, limit, grouping, store))
}

// The refutation checker under a limit on the classes: as the checker.
pub fn lihumbay_check_limited(sheet: &[u8], limit: u32, list: &[u8]) -> Numbers
    ensures answer { result ≡ numbers_of (limited_check_answer sheet.now limit list.now) }
    ensures passed { ZeroPassedUnder (up_to limit) result sheet.now list.now }
    ensures meaning { ZeroMeansUnder (up_to limit) result sheet.now }
{
    Numbers::from(checker::check_limited(sheet, limit, list))
}

// Repacking: how many bytes of the output were written.
pub fn lihumbay_repack(sheet: &[u8], out: &mut [u8]) -> Numbers
    ensures answer { result ≡ numbers_of (repack_answer sheet.now out.old) }
    ensures output { out.new ≡ repack_out sheet.now out.old }
    ensures says { ZeroWritten (λ w. Alike w sheet.now) result out.new }
    ensures again { ZeroWritten (λ w. repacked w ≡ w) result out.new }
    ensures alike { ZeroWritten (λ w. ServedAlike w sheet.now) result out.new }
{
    Numbers::from(repack::repack(sheet, out))
}

// Merging: how many bytes of the output were written. A refusal from reading has 1 or 2 behind the place, for the sheet that it came from.
pub fn lihumbay_merge(first: &[u8], second: &[u8], out: &mut [u8]) -> Numbers
    ensures answer { result ≡ merge_numbers (merge_answer has_terms first.now second.now out.old)
        (which_refused first.now second.now) }
    ensures output { out.new ≡ merge_out has_terms first.now second.now out.old }
    ensures accepted { ZeroWritten (λ w. Accepted w) result out.new }
    ensures packed { ZeroWritten (λ w. repacked w ≡ w) result out.new }
    ensures lots { ZeroWritten (λ w. lot_count w ≡ max (lot_count first.now) (lot_count second.now)) result out.new }
    ensures conditions { ZeroWritten (λ w. conditions w ≡ merged_conditions has_terms first.now second.now)
        result out.new }
    ensures meets { ZeroWritten (λ w. MeetsBoth w first.now second.now) result out.new }
    ensures places { ZeroWritten (λ w. Placed w first.now second.now) result out.new }
{
    Numbers::from(merge::merge(first, second, out))
}
