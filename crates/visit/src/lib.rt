// The visits of a search: a node and all under it, a split and its branches, from no decisions on.
#![tactic(auto)]

ghost use Rattle.std.specs.Prelude.{◌≡◌, ◌+◌, ◌<◌, length};
ghost use Rattle.sheet.specs.Conditions.{conditions};
ghost use Rattle.limit.specs.Scan.{limit_in};
ghost use Rattle.marks.specs.Marks.{table_length};
ghost use Rattle.scan.specs.Settled.{Later};
ghost use Rattle.store.specs.Records.{capacity};
ghost use Rattle.outcome.specs.Limited.{tree_of};
ghost use Rattle.visit.specs.Limits.{pairs_room};
ghost use Rattle.visit.specs.Visited.{Searchable, Visitable, Splittable, Explored, VisitExplores, SplitExplores};
ghost use Rattle.classes.specs.Pairs.{Untouched};

use classes::Classes;
use node::{Node, Split, Untaken};
use scan::Place;
use store::{NodeNumber, NodeRecord};

// The settled levels: one for each condition that a sheet can have.
const LEVELS_LENGTH: usize = 256;

// The level of the path with no decision. Each same branch is one level further, and 0 stands for a condition that is not known to be settled.
const FIRST_LEVEL: u16 = 1;

// How far a search has come: the sheet's conditions, the records written so far, the level of the path, and the limit.
#[derive(Clone, Copy)]
struct Stage {
    m: u16,
    before: u32,
    level: u16,
    limit: Option<u16>,
}

// How a visit ended: met, or nothing met under the node, with the records written so far; or the store is full.
#[derive(Clone, Copy)]
pub enum Visited {
    Met(u32),
    Cannot(u32),
    Full,
}

// The node of a path, and all under it: its record is written, and a split's branches are visited. `count` is how many pairs the path sets apart, behind which
// a node may mark its table; `levels` are the settled levels, of conditions that the path settles.
#[cycle(branches_visit)]
fn visit(
    sheet: &[u8],
    map: Classes,
    from: Place,
    count: usize,
    at: Stage,
    pairs: &mut [u8],
    grouping: &mut [u8],
    store: &mut [u8],
    levels: &mut [u16],
) -> Visited
    requires { Searchable sheet.now at.m grouping.old × Visitable at.limit sheet.now map from count at.level pairs.old levels.old }
    ensures visited { VisitExplores at.limit sheet.now map from count pairs.old at.before store.old store.new grouping.old grouping.new result }
    ensures untouched { Untouched pairs.old pairs.new count × Later levels.old levels.new at.level }
{
    let before = at.before;
    if store::capacity_of(store) <= (before as usize) {
        return Visited::Full;
    }
    let place = scan::locate(sheet, at.m, map, from, levels, at.level);
    let found = node::node_at(sheet, at.m, map, pairs, count, place);
    let on = match found {
        Node::Ground(c) => {
            store::write(store, NodeNumber(before + 1), NodeRecord::Ground(c));
            return Visited::Cannot(before + 1);
        }
        Node::Split(on) => on,
        Node::Met => {
            let lots = grouping.len() as u16;
            let untaken = node::none_taken(map, lots, at.limit, pairs, count, place);
            match untaken {
                Untaken::Met => {
                    store::write(store, NodeNumber(before + 1), NodeRecord::Met);
                    classes::write_grouping(grouping, map);
                    return Visited::Met(before + 1);
                }
                Untaken::Clique => {
                    store::write(store, NodeNumber(before + 1), NodeRecord::Clique);
                    return Visited::Cannot(before + 1);
                }
                Untaken::Split(on) => on,
            }
        }
    };
    branches(sheet, map, on, count, at, pairs, grouping, store, levels)
}

// A split on two lots: its record, all under its same branch, in which its condition is settled, if it has one, and, if nothing was met there, all under its
// apart branch, which goes on in the same condition after the term of the split, or after its pair of classes, with the settled levels as they were before. The
// store is seen to have room before the split's next is set, since that has two bytes.
#[cycle(branches_visit)]
fn branches(
    sheet: &[u8],
    map: Classes,
    on: Split,
    count: usize,
    at: Stage,
    pairs: &mut [u8],
    grouping: &mut [u8],
    store: &mut [u8],
    levels: &mut [u16],
) -> Visited
    requires { Searchable sheet.now at.m grouping.old × (at.before < capacity store.old) × Splittable at.limit sheet.now map on count at.level pairs.old levels.old }
    ensures visited { SplitExplores at.limit sheet.now map on count pairs.old at.before store.old store.new grouping.old grouping.new result }
    ensures untouched { Untouched pairs.old pairs.new count × Later levels.old levels.new at.level }
{
    let here = NodeNumber(at.before + 1);
    let a = on.a;
    let b = on.b;
    store::write(store, here, NodeRecord::Split(a, b, NodeNumber(0)));
    let same = map.join(a, b);
    let up = Stage {
        before: at.before + 1,
        level: at.level + 1,
        ..at
    };
    scan::settle(levels, on.apart, up.level);
    let from = Place::Scan;
    let under_same = visit(sheet, same, from, count, up, pairs, grouping, store, levels);
    let Visited::Cannot(n) = under_same else {
        return under_same;
    };
    if store::capacity_of(store) <= (n as usize) {
        return Visited::Full;
    }
    store::set_next(store, here, NodeNumber(n + 1));
    classes::set_apart(pairs, count, a, b);
    scan::clear_above(levels, at.level);
    let at = Stage { before: n, ..at };
    let from = on.apart;
    let count = count + 1;
    visit(sheet, map, from, count, at, pairs, grouping, store, levels)
}

// The search of an accepted sheet, from no decisions and no records on. The bytes for the pairs and the table are lent.
pub fn start(
    sheet: &[u8],
    m: u16,
    limit: Option<u16>,
    pairs: &mut [u8],
    grouping: &mut [u8],
    store: &mut [u8],
) -> Visited
    requires { Searchable sheet.now m grouping.old × (length pairs.old ≡ pairs_room (limit_in limit) + table_length) }
    ensures { Explored 0 store.old store.new grouping.old grouping.new result (tree_of (limit_in limit) sheet.now) }
{
    let mut levels = [0u16; LEVELS_LENGTH];
    let room = m as usize;
    let map = Classes::new();
    let at = Stage {
        m,
        before: 0,
        level: FIRST_LEVEL,
        limit,
    };
    visit(
        sheet,
        map,
        Place::Scan,
        0,
        at,
        pairs,
        grouping,
        store,
        &mut levels[..room],
    )
}
