// The search over a sheet: its answer, the grouping it finds and the nodes it visits.
#![tactic(auto)]

ghost use Rattle.std.specs.Prelude.{◌≡◌, ◌+◌, ◌≤◌, ◌<◌, length, IfOk, IfErr};
ghost use Rattle.sheet.specs.declared.refusal.Refusal.{Refusal};
ghost use Rattle.sheet.specs.Verdicts.{Passes};
ghost use Rattle.sheet.specs.Format.{lot_count};
ghost use Rattle.sheet.specs.Conditions.{conditions};
ghost use Rattle.equality.specs.Search.{search_tree};
ghost use Rattle.limit.specs.Meaning.{up_to};
ghost use Rattle.limit.specs.Scan.{limit_in};
ghost use Rattle.marks.specs.Marks.{table_length};
ghost use Rattle.sheet.specs.Inner.{HasConditions};
ghost use Rattle.store.specs.Records.{capacity};
ghost use Rattle.outcome.specs.Outcome.{result_of, search_outcome};
ghost use Rattle.outcome.specs.Limited.{tree_of};
ghost use Rattle.visit.specs.Limits.{pairs_room};
ghost use Rattle.search.specs.Answers.{search_answer};
ghost use Rattle.search.specs.Promises.{search_case, RefusedExactly, FullExactly, FullPlace, FullCase, MetExactly, MetGrouping, MetZero, CannotExactly, CannotWhichever, CannotRefutes, CountBounded};
ghost use Rattle.search.specs.Limited.{limited_case, limited_outcome, RefusedExactlyUnder, FullExactlyUnder, FullCaseUnder, MetExactlyUnder, MetGroupingUnder, MetZeroUnder, CannotExactlyUnder, CannotWhicheverUnder, CannotRefutesUnder};
ghost use Rattle.search.specs.Ends.{EndsAs};

use sheet::Refusal;
use visit::Visited;

// The bytes of the pairs that a path can set apart (`pairs_room`), without a limit and with one: two for each split that it can have.
const PAIRS_LENGTH: usize = 2048;

const LIMITED_PAIRS_LENGTH: usize = 16512;

// The bytes for them and, behind them, for the table of a node's marks.
const MARKS_LENGTH: usize = PAIRS_LENGTH + marks::TABLE_LENGTH;

const LIMITED_MARKS_LENGTH: usize = LIMITED_PAIRS_LENGTH + marks::TABLE_LENGTH;

// What a search found, with the count of its records: a grouping that meets the sheet, or that nobody can meet it.
#[derive(Clone, Copy, Debug, PartialEq, Eq)]
pub enum Found {
    Met { count: u32 },
    Cannot { count: u32 },
}

// The search of an accepted sheet with n lots and m conditions, in a grouping of at least n bytes and any store. Where the store is full, its first
// S records are zeroed. The visits have only the bytes that they may write.
fn search_accepted(
    sheet: &[u8],
    n: u16,
    m: u16,
    limit: Option<u16>,
    pairs: &mut [u8],
    grouping: &mut [u8],
    store: &mut [u8],
) -> Result<Found, Refusal>
    requires { HasConditions sheet.now m × (n ≡ lot_count sheet.now) × (n ≤ length grouping.old) × (length pairs.old ≡ pairs_room (limit_in limit) + table_length) }
    ensures { EndsAs n (result_of Passes (capacity store.old) (tree_of (limit_in limit) sheet.now))
        grouping.old grouping.new store.old store.new result }
{
    let capacity = store::capacity_of(store);
    let lots = n as usize;
    let visited = visit::start(
        sheet,
        m,
        limit,
        pairs,
        &mut grouping[..lots],
        &mut store[..store::RECORD_LENGTH * capacity],
    );
    match visited {
        Visited::Met(count) => Ok(Found::Met { count }),
        Visited::Cannot(count) => Ok(Found::Cannot { count }),
        Visited::Full => {
            store::clear(store, capacity);
            Err(Refusal::FullStore(capacity as u32))
        }
    }
}

// The same with the bytes that its paths can need and, behind them, those of a table: MARKS in all.
fn search_within<const MARKS: usize>(
    sheet: &[u8],
    n: u16,
    m: u16,
    limit: Option<u16>,
    grouping: &mut [u8],
    store: &mut [u8],
) -> Result<Found, Refusal>
    requires { HasConditions sheet.now m × (n ≡ lot_count sheet.now) × (n ≤ length grouping.old)
        × (MARKS ≡ pairs_room (limit_in limit) + table_length) × (MARKS < 65536) }
    ensures { EndsAs n (result_of Passes (capacity store.old) (tree_of (limit_in limit) sheet.now))
        grouping.old grouping.new store.old store.new result }
{
    let mut pairs = [0u8; MARKS];
    search_accepted(sheet, n, m, limit, &mut pairs, grouping, store)
}

// Whether a grouping has a byte for each lot.
fn check_grouping(grouping: &[u8], lots: u16) -> Result<(), Refusal>
    ensures long { IfOk result (λ _. lots ≤ length grouping.now) }
    ensures short { IfErr result (λ r. (r ≡ Refusal.ShortGrouping lots) × (length grouping.now < lots)) }
{
    if grouping.len() < lots as usize {
        return Err(Refusal::ShortGrouping(lots));
    }
    Ok(())
}

// The search, for any bytes and any buffers. The answer, every byte of the grouping and every byte of the store follow from the three (`case`, `answer`,
// `grouping`, `store`); what they say of the sheet is promised beside them.
pub fn search(sheet: &[u8], grouping: &mut [u8], store: &mut [u8]) -> Result<Found, Refusal>
    ensures case { result ≡ search_case sheet.now grouping.old store.old }
    ensures answer { search_answer result ≡ (search_outcome sheet.now grouping.old store.old).answer }
    ensures grouping { grouping.new ≡ (search_outcome sheet.now grouping.old store.old).grouping }
    ensures store { store.new ≡ (search_outcome sheet.now grouping.old store.old).store }
    ensures refused { RefusedExactly (search_answer result) sheet.now grouping.old store.old }
    ensures full { FullExactly (search_answer result) sheet.now grouping.old store.old }
    ensures capacity { FullPlace (search_answer result) store.old }
    ensures filled { FullCase result sheet.now grouping.old store.old }
    ensures met { MetExactly (search_answer result) sheet.now }
    ensures meets { MetGrouping (search_answer result) sheet.now grouping.new }
    ensures zero { MetZero (search_answer result) sheet.now grouping.new }
    ensures cannot { CannotExactly (search_answer result) sheet.now }
    ensures whichever { CannotWhichever (search_answer result) sheet.now }
    ensures refutes { CannotRefutes (search_answer result) sheet.now store.new }
    ensures count { CountBounded (search_answer result) sheet.now }
{
    let h = reader::read(sheet)?;
    check_grouping(grouping, h.lots)?;
    search_within::<MARKS_LENGTH>(sheet, h.lots, h.conditions, None, grouping, store)
}

// The search under a limit on the classes, for any bytes, any limit and any buffers: as the search without one, of the assignments that have at most so many
// different numbers on lots 0 to n. All 32 bits of the limit count. No twin of `search`: it has a check more, and clauses of its own.
pub fn search_limited(
    sheet: &[u8],
    limit: u32,
    grouping: &mut [u8],
    store: &mut [u8],
) -> Result<Found, Refusal>
    ensures case { result ≡ limited_case sheet.now limit grouping.old store.old }
    ensures answer { search_answer result ≡ (limited_outcome sheet.now limit grouping.old store.old).answer }
    ensures grouping { grouping.new ≡ (limited_outcome sheet.now limit grouping.old store.old).grouping }
    ensures store { store.new ≡ (limited_outcome sheet.now limit grouping.old store.old).store }
    ensures refused { RefusedExactlyUnder (up_to limit) (search_answer result) sheet.now grouping.old store.old }
    ensures full { FullExactlyUnder (up_to limit) (search_answer result) sheet.now grouping.old store.old }
    ensures capacity { FullPlace (search_answer result) store.old }
    ensures filled { FullCaseUnder (up_to limit) result sheet.now grouping.old store.old }
    ensures met { MetExactlyUnder (up_to limit) (search_answer result) sheet.now }
    ensures meets { MetGroupingUnder (up_to limit) (search_answer result) sheet.now grouping.new }
    ensures zero { MetZeroUnder (up_to limit) (search_answer result) sheet.now grouping.new }
    ensures cannot { CannotExactlyUnder (up_to limit) (search_answer result) sheet.now }
    ensures whichever { CannotWhicheverUnder (up_to limit) (search_answer result) sheet.now }
    ensures refutes { CannotRefutesUnder (up_to limit) (search_answer result) sheet.now store.new }
{
    let h = reader::read(sheet)?;
    if clique::ill_limited(limit) {
        return Err(Refusal::NoSuchLimit(limit));
    }
    check_grouping(grouping, h.lots)?;
    search_within::<LIMITED_MARKS_LENGTH>(
        sheet,
        h.lots,
        h.conditions,
        Some(limit as u16),
        grouping,
        store,
    )
}
