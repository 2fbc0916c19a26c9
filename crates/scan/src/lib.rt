// Which condition a node takes, and where its terms are looked at: the conditions are scanned, and those that are settled for good are noted.
#![tactic(auto)]

ghost use Rattle.std.specs.Prelude.{◌≡◌, ℕ};
ghost use Rattle.equality.specs.Node.{Decisions, classes};
ghost use Rattle.limit.specs.Meaning.{Limit};
ghost use Rattle.sheet.specs.Inner.{HasConditions};
ghost use Rattle.scan.specs.Settled.{Settled, Later, ClearedAbove};
ghost use Rattle.scan.specs.Place.{Resumes, Stands, PlaceWithin, LevelOrNone, with_level};

use classes::Classes;
use sheet::{Condition, Lot, Record, SAME};

// Where a node is looked at: nobody knows yet, and the conditions are to be scanned; within the condition that it takes, from a record on; nowhere, since it
// takes none; or after a pair of classes, where it takes none under a limit. (The apart branch of a split takes the split's condition, and no term of it up to
// the split's is open any more. Where the split took none it takes none, and no pair of classes up to the split's is unmarked.)
#[derive(Clone, Copy)]
pub enum Place {
    Scan,
    Within(Condition, Record),
    Nowhere,
    After(Lot, Lot),
}

// The lowest-numbered condition that has no true term and no open "apart" term, and isn't withdrawn. A condition is passed over exactly where the classes meet
// it: some "same" term's lots share a class, or some "apart" term's do not (`taken_by_classes`), or it has no term. Where a "same" term's do, the condition is
// settled: it is met under every further decision, so the level of the path is noted for it, and a condition that has a level is not read. The map's array is
// read in place: a method that hands the map back would copy it for each term. Records of a chain mostly follow each other in the sheet. Within such a run the
// next record is known before its number is read: the loop over a run need not wait for it. The outer loop is no `for`: it yields a place by break, as
// docs/PROMISES.md has it. A level is a number, with 0 for none, and no Option: `Settled`, `Later` and `ClearedAbove` speak of numbers.
pub fn scan(sheet: &[u8], m: u16, map: Classes, levels: &mut [u16], level: u16) -> Place
    requires { HasConditions sheet.now m × Settled map.lots sheet.now levels.old level }
    ensures stands { (limit : Limit) (lots : ℕ) (ds : Decisions) → map.lots ≡ classes ds → Stands limit lots sheet.now result ds }
    ensures within { PlaceWithin sheet.now result }
    ensures settled { Settled map.lots sheet.now levels.new level }
    ensures later { Later levels.old levels.new level }
{
    let lots = map.lots;
    let mut c: u16 = 0;
    'conditions: loop {
        if m <= c {
            break 'conditions Place::Nowhere;
        }
        let place = c as usize;
        c += 1;
        if levels[place] != 0 {
            continue 'conditions;
        }
        let head = sheet::format::head_at(sheet, Condition(c));
        let mut at = head;
        'terms: loop {
            if at.0 == 0 {
                if head.0 == 0 {
                    continue 'conditions;
                }
                break 'conditions Place::Within(Condition(c), head);
            }
            'run: loop {
                let following = at.0 + 1;
                let t = sheet::chain::term_at(sheet, at, m);
                let a = t.a.0 as usize;
                let b = t.b.0 as usize;
                let shared = lots[a] == lots[b];
                if shared == (t.sign == SAME) {
                    if shared {
                        levels[place] = level;
                    }
                    continue 'conditions;
                }
                if t.next.0 != following {
                    at = t.next;
                    continue 'terms;
                }
                at = Record(following);
            }
        }
    }
}

// Notes that the condition that a place is within is settled at a level. Nothing is noted for a place that is within none; condition 0 is none.
pub fn settle(levels: &mut [u16], place: Place, level: u16)
    requires { LevelOrNone place levels.old }
    ensures { levels.new ≡ with_level place level levels.old }
{
    if let Place::Within(c, _) = place {
        if c.0 != 0 {
            levels[(c.0 - 1) as usize] = level;
        }
    }
}

// Forgets every level above one: what those paths joined is joined no more.
pub fn clear_above(levels: &mut [u16], level: u16)
    ensures { ClearedAbove levels.old levels.new level }
{
    for noted in levels.iter_mut() {
        *noted = if level < *noted { 0 } else { *noted };
    }
}

// Where the terms of a path's node are looked at, once the conditions are scanned if they have to be. The levels are written here, apart from the reading
// of the terms, so that the map can be read in place there.
pub fn locate(
    sheet: &[u8],
    m: u16,
    map: Classes,
    from: Place,
    levels: &mut [u16],
    level: u16,
) -> Place
    requires { HasConditions sheet.now m × PlaceWithin sheet.now from × Settled map.lots sheet.now levels.old level }
    ensures stands { (limit : Limit) (lots : ℕ) (ds : Decisions) → map.lots ≡ classes ds → Resumes limit lots sheet.now from ds → Stands limit lots sheet.now result ds }
    ensures within { PlaceWithin sheet.now result }
    ensures settled { Settled map.lots sheet.now levels.new level }
    ensures later { Later levels.old levels.new level }
{
    match from {
        Place::Scan => scan(sheet, m, map, levels, level),
        Place::Within(c, after) => Place::Within(c, after),
        Place::Nowhere => Place::Nowhere,
        Place::After(x, y) => Place::After(x, y),
    }
}
