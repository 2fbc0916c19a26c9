// The steps of a walk over a list of records: what a record makes of the walk, by its kind.
#![tactic(auto)]

ghost use Rattle.std.specs.Prelude.{◌≡◌, ℕ, ◌+◌, ◌*◌, ◌≤◌, ◌<◌, length, List};
ghost use Rattle.sheet.specs.Format.{lowest_lot, most_lots, lot_count};
ghost use Rattle.sheet.specs.Inner.{HasConditions};
ghost use Rattle.store.specs.Records.{split_record, ground_record, record_at, most_nodes};
ghost use Rattle.store.specs.Code.{HasPlace};
ghost use Rattle.limit.specs.Meaning.{Limit};
ghost use Rattle.limit.specs.Scan.{limit_in};
ghost use Rattle.refutation.specs.Refutation.{most_splits, nearest, after_ground, walk_clique, walk_record};
ghost use Rattle.path.specs.Paths.{split_length, path_of};
ghost use Rattle.levels.specs.Levels.{Walkable};
ghost use Rattle.steps.specs.Steps.{Counted, Rest, WalkRest, step_as, none_left, RoomFor, GoesOn};
ghost use Rattle.marks.specs.Marks.{Room};

use path::Split;
use sheet::{Condition, Header, Refusal};
use store::{NodeNumber, NodeRecord};

// Where the walk stands: at a record of the list, whether that is the last, and how many splits stand above it.
#[derive(Clone, Copy, Debug, PartialEq, Eq)]
pub struct Position {
    pub number: u32,
    pub last: bool,
    pub depth: usize,
}

// The most splits above a record, without a limit and with one.
pub const MOST_SPLITS: usize = 1024;

pub const LIMITED_MOST_SPLITS: usize = 8256;

// The most splits above a record, by the limit.
fn most_splits(limit: Option<u16>) -> usize
    ensures { result ≡ most_splits (limit_in limit) }
{
    match limit {
        None => MOST_SPLITS,
        Some(_) => LIMITED_MOST_SPLITS,
    }
}

// What follows is a step each: how many splits stand above the following record, or none, where the list passes.

// After a ground: the nearest split still in its same branch is turned, if its next is the following record; with no such split the list must end.
fn after_ground(path: &mut [u32], levels: &mut [u8], at: Position) -> Result<Option<usize>, Refusal>
    requires { (split_length * at.depth ≤ length path.old) × (at.depth < length levels.old) × (at.number ≤ most_nodes) }
    ensures walk { (walk_rest : WalkRest) (rest : Rest) → at.last ≡ none_left rest
        → after_ground walk_rest rest (at.number + 1) (nearest (path_of path.old at.depth)) ≡ step_as walk_rest (at.number + 1) path.new result }
    ensures path { (maps : List ℕ) → Walkable path.old maps levels.old at.depth → GoesOn path.new maps levels.new result }
{
    let top = path::nearest(path, at.depth);
    if top == 0 {
        return if at.last {
            Ok(None)
        } else {
            Err(Refusal::WrongEnd(at.number + 1))
        };
    }
    let next = path::next_of(path, top);
    if next.0 != at.number + 1 {
        let number = path::number_of(path, top);
        return Err(Refusal::WrongNext(number.0));
    }
    levels::turn(path, top, levels);
    Ok(Some(top))
}

// A split, with the number of its record: its lots, how many splits stand above it, and the path with it on top.
fn split_step(
    path: &mut [u32],
    depth: usize,
    maps: &mut [u8],
    levels: &mut [u8],
    n: u16,
    limit: Option<u16>,
    split: Split,
) -> Result<Option<usize>, Refusal>
    requires { Walkable path.old maps.old levels.old depth × RoomFor (most_splits (limit_in limit)) path.old levels.old × (n ≤ most_lots) }
    ensures walk { (s : List ℕ) → n ≡ lot_count s → (walk_rest : WalkRest) (rest : Rest)
        → walk_record (limit_in limit) lowest_lot s walk_rest rest split.number.0 (path_of path.old depth)
        (split_record split.a.0 split.b.0 split.next.0)
        ≡ step_as walk_rest (split.number.0 + 1) path.new result }
    ensures path { GoesOn path.new maps.new levels.new result }
{
    if !sheet::in_lots(n, split.a) {
        return Err(Refusal::NoSuchRecord(split.number.0));
    }
    if !sheet::in_lots(n, split.b) {
        return Err(Refusal::NoSuchRecord(split.number.0));
    }
    if most_splits(limit) <= depth {
        return Err(Refusal::TooDeep(split.number.0));
    }
    Ok(Some(levels::push(path, depth, maps, levels, split)))
}

// A ground: its condition, the condition's terms under the path, and what follows.
fn ground_step(
    sheet: &[u8],
    m: u16,
    path: &mut [u32],
    maps: &[u8],
    levels: &mut [u8],
    table: &mut [u8],
    at: Position,
    c: Condition,
) -> Result<Option<usize>, Refusal>
    requires { HasConditions sheet.now m × Walkable path.old maps.now levels.old at.depth × (at.number ≤ most_nodes) × Room table.old 0 }
    ensures walk { (limit : Limit) (walk_rest : WalkRest) (rest : Rest) → at.last ≡ none_left rest
        → walk_record limit lowest_lot sheet.now walk_rest rest at.number (path_of path.old at.depth) (ground_record c.0)
        ≡ step_as walk_rest (at.number + 1) path.new result }
    ensures path { GoesOn path.new maps.now levels.new result }
{
    if c.0 == 0 || m < c.0 {
        return Err(Refusal::NoSuchRecord(at.number));
    }
    if !leaves::ground_passes(sheet, m, path, at.depth, maps, levels, table, c) {
        return Err(Refusal::LeafStands(at.number));
    }
    after_ground(path, levels, at)
}

// A clique: none without a limit, and with one the classes left under the path, and what follows as after a ground.
fn clique_step(
    n: u16,
    limit: Option<u16>,
    path: &mut [u32],
    maps: &[u8],
    levels: &mut [u8],
    table: &mut [u8],
    at: Position,
) -> Result<Option<usize>, Refusal>
    requires { (n ≤ most_lots) × Walkable path.old maps.now levels.old at.depth × (at.number ≤ most_nodes) × Room table.old 0 }
    ensures walk { (walk_rest : WalkRest) (rest : Rest) → at.last ≡ none_left rest
        → walk_clique (limit_in limit) n walk_rest rest at.number (path_of path.old at.depth)
        ≡ step_as walk_rest (at.number + 1) path.new result }
    ensures path { GoesOn path.new maps.now levels.new result }
{
    let Some(limit) = limit else {
        return Err(Refusal::NoSuchRecord(at.number));
    };
    if !leaves::clique_passes(n, limit, path, at.depth, maps, levels, table) {
        return Err(Refusal::LeafStands(at.number));
    }
    after_ground(path, levels, at)
}

// A record of the list, whichever it is.
pub fn record_step(
    sheet: &[u8],
    counts: Header,
    limit: Option<u16>,
    list: &[u8],
    path: &mut [u32],
    maps: &mut [u8],
    levels: &mut [u8],
    table: &mut [u8],
    at: Position,
) -> Result<Option<usize>, Refusal>
    requires { Counted sheet.now counts × HasPlace list.now at.number × Walkable path.old maps.old levels.old at.depth
        × (at.number ≤ most_nodes) × Room table.old 0 × RoomFor (most_splits (limit_in limit)) path.old levels.old }
    ensures walk { (walk_rest : WalkRest) (rest : Rest) → at.last ≡ none_left rest
        → walk_record (limit_in limit) lowest_lot sheet.now walk_rest rest at.number (path_of path.old at.depth)
        (record_at list.now at.number)
        ≡ step_as walk_rest (at.number + 1) path.new result }
    ensures path { GoesOn path.new maps.new levels.new result }
{
    let number = NodeNumber(at.number);
    let node = store::read(list, number);
    match node {
        NodeRecord::Split(a, b, next) => {
            let split = Split { number, next, a, b };
            split_step(path, at.depth, maps, levels, counts.lots, limit, split)
        }
        NodeRecord::Ground(c) => ground_step(
            sheet,
            counts.conditions,
            path,
            maps,
            levels,
            table,
            at,
            c,
        ),
        NodeRecord::Clique => clique_step(counts.lots, limit, path, maps, levels, table, at),
        NodeRecord::Met | NodeRecord::Other => Err(Refusal::NoSuchRecord(at.number)),
    }
}
