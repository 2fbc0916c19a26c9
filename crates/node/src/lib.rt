// One node of the search: what it is, by the condition that it takes, or by a limit where it takes none.
#![tactic(auto)]

ghost use Rattle.std.specs.Prelude.{◌≡◌, ℕ, ◌-◌, ◌≤◌, ◌<◌, List, length};
ghost use Rattle.sheet.specs.Format.{most_lots};
ghost use Rattle.sheet.specs.Conditions.{conditions};
ghost use Rattle.equality.specs.Node.{Decisions, no_condition, classes, taken, node};
ghost use Rattle.limit.specs.Meaning.{Limit, up_to};
ghost use Rattle.limit.specs.Rule.{none_taken};
ghost use Rattle.limit.specs.Scan.{ScanFrom, limit_in};
ghost use Rattle.classes.specs.Maps.{ClassMap};
ghost use Rattle.classes.specs.Pairs.{Represents};
ghost use Rattle.marks.specs.Marks.{table_length, Room, Marks, Outside};
ghost use Rattle.sheet.specs.Inner.{HasConditions, OnChain};
ghost use Rattle.scan.specs.Place.{ResumesWithin, Stands, PlaceWithin, Rises};
ghost use Rattle.node.specs.Found.{Markable, node_as, untaken_as, split_on, TermLeaves, PairSplit, PairLeaves};

use classes::Classes;
use scan::Place;
use sheet::{Condition, Lot, Record, SAME, Term};

// A split: its lots, and where its apart branch goes on: in its condition from the record after the term that it splits on, or after the pair of classes.
#[derive(Clone, Copy)]
pub struct Split {
    pub a: Lot,
    pub b: Lot,
    pub apart: Place,
}

// What a node is by its conditions: met, where it takes none; otherwise a ground or a split of the condition taken.
#[derive(Clone, Copy)]
pub enum Node {
    Met,
    Ground(Condition),
    Split(Split),
}

// What a node is that takes none, under a limit or none: met, a split on a pair of classes, or a clique. No variants of `Node`: with one enum for both, what
// the node is came back through memory, and a search without a limit took up to a tenth more instructions (docs/DECISIONS.md).
#[derive(Clone, Copy)]
pub enum Untaken {
    Met,
    Split(Split),
    Clique,
}

// A split on a term of a condition.
fn split_on(condition: Condition, t: Term) -> Node
    ensures { result ≡ split_on condition t }
{
    Node::Split(Split {
        a: t.a,
        b: t.b,
        apart: Place::Within(condition, t.next),
    })
}

// What a node is that takes this condition, none of whose terms before a record is open, by a table that is marked: a split on the first open term from there
// on, else a ground. In the condition taken no term is true, so an "apart" term is false, and a "same" term is open exactly where its classes are not marked
// apart (`unsettled_value`).
fn first_unmarked(
    sheet: &[u8],
    m: u16,
    lots: &[u8],
    pairs: &[u8],
    table: usize,
    condition: Condition,
    from: Record,
) -> Node
    requires { HasConditions sheet.now m × ClassMap lots.now × Room pairs.now table × OnChain sheet.now from.0 }
    ensures node { (ds : Decisions) → lots.now ≡ classes ds → Marks pairs.now table lots.now ds → ResumesWithin sheet.now condition.0 from.0 ds → node_as result ≡ node ds (conditions sheet.now) }
    ensures leaves { (ds : Decisions) → lots.now ≡ classes ds → Marks pairs.now table lots.now ds → ResumesWithin sheet.now condition.0 from.0 ds → TermLeaves sheet.now result ds }
{
    let mut at = from;
    // In runs of records that follow each other, as the scan goes.
    'chain: while at.0 != 0 {
        loop {
            let following = at.0 + 1;
            let t = sheet::chain::term_at(sheet, at, m);
            if t.sign == SAME {
                let a = t.a.0 as usize;
                let b = t.b.0 as usize;
                if !marks::is_marked(pairs, table, lots[a], lots[b]) {
                    return split_on(condition, t);
                }
            }
            if t.next.0 != following {
                at = t.next;
                continue 'chain;
            }
            at = Record(following);
        }
    }
    Node::Ground(condition)
}

// The same by the pairs, from which the table behind them is marked for this node alone: it costs the pairs and the terms, not their product. The map is
// taken by value, so that nodes that need no table do not copy it.
fn by_table(
    sheet: &[u8],
    m: u16,
    map: Classes,
    pairs: &mut [u8],
    count: usize,
    condition: Condition,
    from: Record,
) -> Node
    requires { HasConditions sheet.now m × Markable map pairs.old count × OnChain sheet.now from.0 }
    ensures node { (ds : Decisions) → Represents map pairs.old count ds → ResumesWithin sheet.now condition.0 from.0 ds → node_as result ≡ node ds (conditions sheet.now) }
    ensures leaves { (ds : Decisions) → Represents map pairs.old count ds → ResumesWithin sheet.now condition.0 from.0 ds → TermLeaves sheet.now result ds }
    ensures outside { Outside pairs.old pairs.new (length pairs.old - table_length) }
{
    let table = pairs.len() - marks::TABLE_LENGTH;
    marks::stamp_pairs(pairs, table, &map.lots, count);
    first_unmarked(sheet, m, &map.lots, pairs, table, condition, from)
}

// The same, where a table is marked only once the pairs walked over for false terms are many: most nodes look at a term or two, and few pairs.
fn first_open(
    sheet: &[u8],
    m: u16,
    map: Classes,
    pairs: &mut [u8],
    count: usize,
    condition: Condition,
    from: Record,
) -> Node
    requires { HasConditions sheet.now m × Markable map pairs.old count × OnChain sheet.now from.0 }
    ensures node { (ds : Decisions) → Represents map pairs.old count ds → ResumesWithin sheet.now condition.0 from.0 ds → node_as result ≡ node ds (conditions sheet.now) }
    ensures leaves { (ds : Decisions) → Represents map pairs.old count ds → ResumesWithin sheet.now condition.0 from.0 ds → TermLeaves sheet.now result ds }
    ensures outside { Outside pairs.old pairs.new (length pairs.old - table_length) }
{
    let mut at = from;
    let mut walked: usize = 0;
    while at.0 != 0 && walked < marks::WALKED {
        let t = sheet::chain::term_at(sheet, at, m);
        if t.sign == SAME {
            let a = t.a;
            let b = t.b;
            let mark = map.marked_apart(pairs, count, a, b);
            if !mark.marked {
                return split_on(condition, t);
            }
            walked += count;
        }
        at = t.next;
    }
    if at.0 == 0 {
        return Node::Ground(condition);
    }
    by_table(sheet, m, map, pairs, count, condition, at)
}

// What a node is that takes no condition under a limit, whose pairs of classes may be looked at from lots x and y on: met, where no more classes are left than
// the limit; a split on the first pair that isn't marked apart; else a clique. The table is marked for this node alone: it costs the lots, the pairs set
// apart and the square of these classes, not the product of pairs and pairs.
fn under_limit(
    map: Classes,
    lots: u16,
    limit: u16,
    pairs: &mut [u8],
    count: usize,
    x: usize,
    y: usize,
) -> Untaken
    requires { Markable map pairs.old count × (lots ≤ most_lots) × (x < y) }
    ensures node { (ds : Decisions) → Represents map pairs.old count ds → ScanFrom limit lots x y ds → untaken_as result ≡ none_taken (up_to limit) lots ds }
    ensures pair { PairSplit result }
    ensures outside { Outside pairs.old pairs.new (length pairs.old - table_length) }
{
    let first = clique::first_classes(&map.lots, lots, limit);
    if first.count <= (limit as usize) {
        return Untaken::Met;
    }
    let place = pairs.len() - marks::TABLE_LENGTH;
    marks::stamp_pairs(pairs, place, &map.lots, count);
    let found = clique::first_open(&map.lots, pairs, place, x, y, first.end);
    match found {
        Some((a, b)) => Untaken::Split(Split {
            a,
            b,
            apart: Place::After(a, b),
        }),
        None => Untaken::Clique,
    }
}

// The node of a path, whose classes and pairs set apart are given, without regard to any limit: met where it takes no condition, otherwise a ground or a split
// of the condition taken. (Where it is not known, nothing is said: `locate` is asked first.) The last bytes of the pairs are for a table; all others are left
// as they are.
pub fn node_at(
    sheet: &[u8],
    m: u16,
    map: Classes,
    pairs: &mut [u8],
    count: usize,
    place: Place,
) -> Node
    requires { HasConditions sheet.now m × Markable map pairs.old count × PlaceWithin sheet.now place }
    ensures node { (limit : Limit) (lots : ℕ) (ds : Decisions) → Represents map pairs.old count ds → Stands limit lots sheet.now place ds → node_as result ≡ node ds (conditions sheet.now) }
    ensures leaves { (limit : Limit) (lots : ℕ) (ds : Decisions) → Represents map pairs.old count ds → Stands limit lots sheet.now place ds → TermLeaves sheet.now result ds }
    ensures outside { Outside pairs.old pairs.new (length pairs.old - table_length) }
{
    match place {
        Place::Within(c, from) => first_open(sheet, m, map, pairs, count, c, from),
        Place::Nowhere => Node::Met,
        Place::After(_, _) => Node::Met,
        Place::Scan => Node::Met,
    }
}

// What a node is that takes no condition, under a limit or none, of lots 0 to `lots`. Apart from `node_at`, so that a search's level has one copy of the map
// for each of the two, and not one more; and asked only where no condition is taken, so that all other nodes go on as without a limit.
pub fn none_taken(
    map: Classes,
    lots: u16,
    limit: Option<u16>,
    pairs: &mut [u8],
    count: usize,
    place: Place,
) -> Untaken
    requires { Markable map pairs.old count × (lots ≤ most_lots) × Rises place }
    ensures node { (s : List ℕ) (ds : Decisions) → Represents map pairs.old count ds → Stands (limit_in limit) lots s place ds → taken ds 1 (conditions s) ≡ no_condition → untaken_as result ≡ none_taken (limit_in limit) lots ds }
    ensures leaves { (s : List ℕ) (ds : Decisions) → Represents map pairs.old count ds → Stands (limit_in limit) lots s place ds → taken ds 1 (conditions s) ≡ no_condition → PairLeaves (limit_in limit) lots s result ds }
    ensures outside { Outside pairs.old pairs.new (length pairs.old - table_length) }
{
    let Some(limit) = limit else {
        return Untaken::Met;
    };
    match place {
        Place::Within(_, _) => Untaken::Met,
        Place::Nowhere => under_limit(map, lots, limit, pairs, count, 0, 1),
        Place::After(x, y) => {
            let low = x.0 as usize;
            let next = (y.0 as usize) + 1;
            under_limit(map, lots, limit, pairs, count, low, next)
        }
        Place::Scan => Untaken::Met,
    }
}
