// Whether a ground or a clique of a list passes, by the classes and the marks of the path above it: for the refutation checker.
#![tactic(auto)]

ghost use Rattle.std.specs.Prelude.{◌≡◌, not, ◌||◌, ◌+◌, ◌≤◌, ◌<◌, eqb, MatchOption};
ghost use Rattle.sheet.specs.Format.{most_lots, same_sign};
ghost use Rattle.sheet.specs.Inner.{HasConditions, OnChain};
ghost use Rattle.sheet.specs.Conditions.{terms_from};
ghost use Rattle.equality.specs.Meaning.{any_term};
ghost use Rattle.equality.specs.Node.{marked};
ghost use Rattle.limit.specs.Rule.{clique_passes};
ghost use Rattle.refutation.specs.Refutation.{decisions_of, ground_fails, named};
ghost use Rattle.path.specs.Paths.{path_of, PathWithin};
ghost use Rattle.levels.specs.Levels.{Walkable};
ghost use Rattle.classes.specs.Maps.{ClassMap};
ghost use Rattle.marks.specs.Marks.{Room, Marks, mark_at};
ghost use Rattle.leaves.specs.Terms.{allows, allows_classes, latest_between};

use sheet::{Condition, Record, SAME};

// The table of the path: the classes of each pair that it sets apart are marked, and no others.
fn stamp(table: &mut [u8], path: &[u32], depth: usize, lots: &[u8])
    requires { Room table.old 0 × PathWithin path.now depth × ClassMap lots.now }
    ensures { Marks table.new 0 lots.now (decisions_of (path_of path.now depth)) }
{
    marks::clear(table, 0);
    for i in 0..depth {
        let pair = path::pair_at(path, i);
        if !pair.same {
            let a = pair.a.0 as usize;
            let b = pair.b.0 as usize;
            marks::mark(table, 0, lots[a], lots[b]);
        }
    }
}

// Whether a term of a sign, whose lots have the classes x and y, is true or open.
fn allows(table: &[u8], sign: u8, x: u8, y: u8) -> bool
    requires { Room table.now 0 × (x ≤ most_lots) × (y ≤ most_lots) }
    ensures { result ≡ allows_classes (mark_at table.now 0) (eqb sign same_sign) x y }
{
    if sign == SAME {
        x == y || !marks::is_marked(table, 0, x, y)
    } else {
        x != y
    }
}

// Whether every term of the chain from a record on is false.
fn all_false(sheet: &[u8], m: u16, lots: &[u8], table: &[u8], head: Record) -> bool
    requires { HasConditions sheet.now m × ClassMap lots.now × Room table.now 0 × OnChain sheet.now head.0 }
    ensures { result ≡ not (any_term (allows lots.now (mark_at table.now 0)) (terms_from sheet.now head.0)) }
{
    let mut at = head;
    // In runs of records that follow each other, as the scan goes.
    'chain: while at.0 != 0 {
        loop {
            let following = at.0 + 1;
            let t = sheet::chain::term_at(sheet, at, m);
            let a = t.a.0 as usize;
            let b = t.b.0 as usize;
            if allows(table, t.sign, lots[a], lots[b]) {
                return false;
            }
            if t.next.0 != following {
                at = t.next;
                continue 'chain;
            }
            at = Record(following);
        }
    }
    true
}

// The latest split of the path that is set apart between the classes x and y, by its number, counted from 0 at the root. A pair whose classes have another
// exclusive or is not one: one test that nearly always tells is quicker than the four.
fn latest_between(path: &[u32], depth: usize, lots: &[u8], x: u8, y: u8) -> Option<usize>
    requires { PathWithin path.now depth × ClassMap lots.now }
    ensures { MatchOption result (latest_between lots.now x y (decisions_of (path_of path.now depth)) ≡ 0) (λ i. latest_between lots.now x y (decisions_of (path_of path.now depth)) ≡ i + 1) }
{
    let both = x ^ y;
    for i in (0..depth).rev() {
        let pair = path::pair_at(path, i);
        if !pair.same {
            let u = lots[pair.a.0 as usize];
            let v = lots[pair.b.0 as usize];
            if u ^ v == both && classes::between(x, y, u, v) {
                return Some(i);
            }
        }
    }
    None
}

// The first record of the chain whose term is not seen to be false, or 0, which ends a chain: for a "same" term whose lots share no class the splits are walked over, as long as
// those passed over so far and a whole walk more are no more than `marks::WALKED`. The split found is not counted: it is one step a term.
fn past_false(sheet: &[u8], m: u16, path: &[u32], depth: usize, lots: &[u8], head: Record) -> Record
    requires { HasConditions sheet.now m × PathWithin path.now depth × ClassMap lots.now × OnChain sheet.now head.0 }
    ensures on { OnChain sheet.now result.0 }
    ensures rest { any_term (allows lots.now (marked lots.now (decisions_of (path_of path.now depth)))) (terms_from sheet.now head.0)
        ≡ any_term (allows lots.now (marked lots.now (decisions_of (path_of path.now depth)))) (terms_from sheet.now result.0) }
{
    let mut at = head;
    let mut walked = depth;
    while at.0 != 0 {
        let t = sheet::chain::term_at(sheet, at, m);
        let x = lots[t.a.0 as usize];
        let y = lots[t.b.0 as usize];
        if t.sign == SAME {
            if x == y || marks::WALKED < walked {
                return at;
            }
            match latest_between(path, depth, lots, x, y) {
                Some(i) => walked += depth - i - 1,
                None => return at,
            }
        } else if x != y {
            return at;
        }
        at = t.next;
    }
    at
}

// Whether every term of a condition is false under the path; a withdrawn condition has no term, and is no ground. The first terms are told by a walk over the
// splits, and where many are walked the pairs that the path sets apart are marked in the table for the others: it costs the condition's terms and the path's
// splits, not their product.
pub fn ground_passes(
    sheet: &[u8],
    m: u16,
    path: &[u32],
    depth: usize,
    maps: &[u8],
    levels: &[u8],
    table: &mut [u8],
    c: Condition,
) -> bool
    requires { HasConditions sheet.now m × (1 ≤ c.0) × (c.0 ≤ m) × Walkable path.now maps.now levels.now depth × Room table.old 0 }
    ensures passes { result ≡ not (ground_fails (decisions_of (path_of path.now depth)) (named sheet.now c.0)) }
{
    let lots = levels::top(maps, levels, depth);
    let head = sheet::format::head_at(sheet, c);
    if head.0 == 0 {
        return false;
    }
    let at = past_false(sheet, m, path, depth, lots, head);
    if at.0 == 0 {
        return true;
    }
    stamp(table, path, depth, lots);
    all_false(sheet, m, lots, table, at)
}

// Whether more classes than the limit are left under the path, of lots 0 to n, and those with the smallest lots, one more than the limit, are marked apart
// pairwise. The marks go into the table first: it costs the lots, the path's splits and the square of these classes, not the product of splits and pairs.
pub fn clique_passes(
    n: u16,
    limit: u16,
    path: &[u32],
    depth: usize,
    maps: &[u8],
    levels: &[u8],
    table: &mut [u8],
) -> bool
    requires { (n ≤ most_lots) × Walkable path.now maps.now levels.now depth × Room table.old 0 }
    ensures passes { result ≡ clique_passes limit n (decisions_of (path_of path.now depth)) }
{
    let lots = levels::top(maps, levels, depth);
    let first = clique::first_classes(lots, n, limit);
    if first.count <= limit as usize {
        return false;
    }
    stamp(table, path, depth, lots);
    clique::first_open(lots, table, 0, 0, 1, first.end).is_none()
}
