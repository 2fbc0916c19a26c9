// The refutation checker: whether a list of records, from any hand, refutes a sheet, with a limit on the classes or without one.
#![tactic(auto)]

ghost use Rattle.std.specs.Prelude.{◌≡◌, not, ◌||◌, ◌*◌, ◌/◌, ◌%◌, ◌≤◌, ◌<◌, ltb, eqb, length};
ghost use Rattle.sheet.specs.Refusals.{verdict_of};
ghost use Rattle.sheet.specs.Format.{lowest_lot};
ghost use Rattle.store.specs.Records.{record_length, most_nodes};
ghost use Rattle.limit.specs.Meaning.{up_to};
ghost use Rattle.limit.specs.Scan.{limit_in};
ghost use Rattle.refutation.specs.Refutation.{most_splits, walk_verdict};
ghost use Rattle.refutation.specs.Refutation.{check_answer, limited_check_answer};
ghost use Rattle.path.specs.Paths.{split_length};
ghost use Rattle.levels.specs.Levels.{level_under, Walkable};
ghost use Rattle.checker.specs.Answers.{checked_answer, PassedExactly, PassedMeans, PassedExactlyUnder, PassedMeansUnder};
ghost use Rattle.steps.specs.Steps.{Counted, RoomFor};
ghost use Rattle.marks.specs.Marks.{Room};

use sheet::{Header, Refusal};
use steps::Position;

// The numbers of the longest path, and the levels under its splits and above them all: without a limit,
const PATH_LENGTH: usize = path::SPLIT_LENGTH * steps::MOST_SPLITS;

const LEVELS_LENGTH: usize = steps::MOST_SPLITS + 1;

// and with one.
const LIMITED_PATH_LENGTH: usize = path::SPLIT_LENGTH * steps::LIMITED_MOST_SPLITS;

const LIMITED_LEVELS_LENGTH: usize = steps::LIMITED_MOST_SPLITS + 1;

// The walk over the list, from record 1.
fn walk(
    sheet: &[u8],
    counts: Header,
    limit: Option<u16>,
    list: &[u8],
    path: &mut [u32],
    maps: &mut [u8],
    levels: &mut [u8],
    table: &mut [u8],
) -> Result<(), Refusal>
    requires { Counted sheet.now counts × (length list.now / record_length ≤ most_nodes) × Walkable path.old maps.old levels.old 0
        × Room table.old 0 × RoomFor (most_splits (limit_in limit)) path.old levels.old }
    ensures { verdict_of result ≡ walk_verdict (limit_in limit) lowest_lot sheet.now list.now }
{
    let count = (list.len() / store::RECORD_LENGTH) as u32;
    let mut depth: usize = 0;
    for before in 0..count {
        let at = Position {
            number: before + 1,
            last: before + 1 == count,
            depth,
        };
        let step = steps::record_step(sheet, counts, limit, list, path, maps, levels, table, at)?;
        let Some(splits) = step else {
            return Ok(());
        };
        depth = splits;
    }
    Err(Refusal::WrongEnd(count + 1))
}

// The verdict on a list, with the classes and a table of its own; the path's numbers and its levels are lent, with room for the most splits under the limit.
fn check_records(
    sheet: &[u8],
    counts: Header,
    limit: Option<u16>,
    list: &[u8],
    path: &mut [u32],
    levels: &mut [u8],
) -> Result<(), Refusal>
    requires { Counted sheet.now counts × (length list.now / record_length ≤ most_nodes) × RoomFor (most_splits (limit_in limit)) path.old levels.old
        × (level_under levels.old 0 ≡ 0) }
    ensures { verdict_of result ≡ walk_verdict (limit_in limit) lowest_lot sheet.now list.now }
{
    let mut maps = [0u8; levels::MAPS_LENGTH];
    let mut table = [0u8; marks::TABLE_LENGTH];
    levels::start(&mut maps);
    walk(
        sheet, counts, limit, list, path, &mut maps, levels, &mut table,
    )
}

// The verdict on a list, with a path of its own, of so many numbers and so many levels: they are fewer without a limit, so that a check without one needs no more
// stack than its own path takes.
fn check_list<const PATH: usize, const LEVELS: usize>(
    sheet: &[u8],
    counts: Header,
    limit: Option<u16>,
    list: &[u8],
) -> Result<(), Refusal>
    requires { Counted sheet.now counts × (length list.now / record_length ≤ most_nodes)
        × (split_length * most_splits (limit_in limit) ≤ PATH) × (PATH < 65536)
        × (most_splits (limit_in limit) < LEVELS) × (LEVELS < 65536) }
    ensures { verdict_of result ≡ walk_verdict (limit_in limit) lowest_lot sheet.now list.now }
{
    let mut path = [0u32; PATH];
    let mut levels = [0u8; LEVELS];
    check_records(sheet, counts, limit, list, &mut path, &mut levels)
}

// Whether a list's length is none that a list of records can have.
fn ill_sized(list: &[u8]) -> bool
    ensures { result ≡ (eqb (length list.now) 0 || not (eqb (length list.now % record_length) 0) || ltb most_nodes (length list.now / record_length)) }
{
    let length = list.len();
    if length == 0 {
        return true;
    }
    if length % store::RECORD_LENGTH != 0 {
        return true;
    }
    store::MOST_NODES < length / store::RECORD_LENGTH
}

// The refutation checker, for any bytes at all and a list from any hand: the first check that fails, or the list passes, and then nobody can meet the sheet.
pub fn check(sheet: &[u8], list: &[u8]) -> Result<(), Refusal>
    ensures answer { checked_answer result ≡ check_answer sheet.now list.now }
    ensures passed { PassedExactly result sheet.now list.now }
    ensures meaning { PassedMeans result sheet.now }
{
    let counts = reader::read(sheet)?;
    if ill_sized(list) {
        return Err(Refusal::IllSized);
    }
    check_list::<PATH_LENGTH, LEVELS_LENGTH>(sheet, counts, None, list)
}

// The refutation checker under a limit on the classes, whatever number is given for it: what passes tells that nobody can meet the sheet with at most so many
// different numbers. No twin of `check`: it has a check more, and clauses of its own.
pub fn check_limited(sheet: &[u8], limit: u32, list: &[u8]) -> Result<(), Refusal>
    ensures answer { checked_answer result ≡ limited_check_answer sheet.now limit list.now }
    ensures passed { PassedExactlyUnder (up_to limit) result sheet.now list.now }
    ensures meaning { PassedMeansUnder (up_to limit) result sheet.now }
{
    let counts = reader::read(sheet)?;
    if clique::ill_limited(limit) {
        return Err(Refusal::NoSuchLimit(limit));
    }
    if ill_sized(list) {
        return Err(Refusal::IllSized);
    }
    check_list::<LIMITED_PATH_LENGTH, LIMITED_LEVELS_LENGTH>(
        sheet,
        counts,
        Some(limit as u16),
        list,
    )
}
