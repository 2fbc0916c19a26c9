// The classes of a path by value, and its pairs set apart in lent bytes. Each method takes the map and hands it back in its answer.
#![tactic(auto)]

ghost use Rattle.std.specs.Prelude.{◌≡◌, cond, ◌&&◌, ◌||◌, [], ◌+◌, ◌*◌, ◌≤◌, min, eqb, length, take, drop};
ghost use Rattle.sheet.specs.Format.{most_lots};
ghost use Rattle.equality.specs.Node.{merged, class_of, classes, marked};
ghost use Rattle.classes.specs.Maps.{entries, ClassesWithin};
ghost use Rattle.classes.specs.Pairs.{set_apart, with_pair, PairsWithin};

use sheet::Lot;

// An entry for each number that a lot can have, 0 included.
pub const ENTRIES: usize = sheet::LOT_ENTRIES;

// The entry at a lot's number is the smallest lot of its class.
#[derive(Clone, Copy)]
pub struct Classes {
    pub lots: [u8; ENTRIES],
}

// A lot's smallest lot, and the map: handed back, since the law has the map by value with methods that do so
// (docs/DECISIONS.md, "Language forms").
#[derive(Clone, Copy)]
pub struct Smallest {
    pub classes: Classes,
    pub lot: Lot,
}

// Whether the classes of two lots are marked apart, and the map, handed back for the same reason.
#[derive(Clone, Copy)]
pub struct Marked {
    pub classes: Classes,
    pub marked: bool,
}

// Every lot alone.
pub fn separate(lots: &mut [u8])
    requires { length lots.old ≡ entries }
    ensures { lots.new ≡ classes [] }
{
    for (i, lot) in lots.iter_mut().enumerate() {
        *lot = i as u8;
    }
}

// The class that the class z becomes when the classes x and y are joined.
fn joined(x: u8, y: u8, z: u8) -> u8
    ensures { result ≡ cond (eqb z x || eqb z y) (min x y) z }
{
    if z == x || z == y { x.min(y) } else { z }
}

// The classes x and y become one: every lot of both gets the smaller of the two numbers. A class that is known by 0 stays so: by one join after the other lot
// 0's class is known by 0 on every path (the law is `zero_class`). The entries are lent, wherever a map is kept.
pub fn join_entries(lots: &mut [u8], x: u8, y: u8)
    ensures joined { lots.new ≡ merged x y lots.old }
    ensures zero { class_of lots.old 0 ≡ 0 → class_of lots.new 0 ≡ 0 }
{
    for lot in lots.iter_mut() {
        *lot = joined(x, y, *lot);
    }
}

// Of two lots, whose classes are u and v, one is in class x and one in class y.
pub fn between(x: u8, y: u8, u: u8, v: u8) -> bool
    ensures { result ≡ (eqb u x && eqb v y || eqb u y && eqb v x) }
{
    u == x && v == y || u == y && v == x
}

// Write a pair set apart after the first `count`.
pub fn set_apart(pairs: &mut [u8], count: usize, a: Lot, b: Lot)
    requires { (2 * count + 2 ≤ length pairs.old) × (a.0 ≤ most_lots) × (b.0 ≤ most_lots) }
    ensures { pairs.new ≡ with_pair pairs.old count a.0 b.0 }
{
    let at = 2 * count;
    pairs[at] = a.0 as u8;
    pairs[at + 1] = b.0 as u8;
}

impl Classes {
    // Every lot alone.
    pub fn new() -> Classes
        ensures { result.lots ≡ classes [] }
    {
        let mut lots = [0u8; ENTRIES];
        separate(&mut lots);
        Classes { lots }
    }

    // The classes of a and b become one. Where lot 0's is known by 0, it stays so.
    pub fn join(self, a: Lot, b: Lot) -> Classes
        requires { (a.0 ≤ most_lots) × (b.0 ≤ most_lots) }
        ensures joined { result.lots ≡ merged (class_of self.lots a.0) (class_of self.lots b.0) self.lots }
        ensures zero { class_of self.lots 0 ≡ 0 → class_of result.lots 0 ≡ 0 }
    {
        let mut lots = self.lots;
        let x = lots[usize::from(a.0)];
        let y = lots[usize::from(b.0)];
        join_entries(&mut lots, x, y);
        Classes { lots }
    }

    // The smallest lot of a lot's class.
    pub fn smallest_lot(self, lot: Lot) -> Smallest
        requires { lot.0 ≤ most_lots }
        ensures { (result.classes ≡ self) × (result.lot.0 ≡ class_of self.lots lot.0) }
    {
        let smallest = self.lots[usize::from(lot.0)];
        Smallest {
            classes: self,
            lot: Lot(u16::from(smallest)),
        }
    }

    // Whether some pair of the first `count` has one lot in the class of a and one in the class of b, the latest pair first. A pair whose
    // classes have another exclusive or is not one: one test that nearly always tells is quicker than the four.
    pub fn marked_apart(self, pairs: &[u8], count: usize, a: Lot, b: Lot) -> Marked
        requires { PairsWithin pairs.now count × (a.0 ≤ most_lots) × (b.0 ≤ most_lots) }
        ensures classes { result.classes ≡ self }
        ensures marked { result.marked ≡ marked self.lots (set_apart pairs.now count) (class_of self.lots a.0) (class_of self.lots b.0) }
    {
        let x = self.lots[usize::from(a.0)];
        let y = self.lots[usize::from(b.0)];
        let both = x ^ y;
        for left in (0..count).rev() {
            let p = pairs[2 * left];
            let q = pairs[2 * left + 1];
            let u = self.lots[usize::from(p)];
            let v = self.lots[usize::from(q)];
            if u ^ v == both && between(x, y, u, v) {
                return Marked {
                    classes: self,
                    marked: true,
                };
            }
        }
        Marked {
            classes: self,
            marked: false,
        }
    }
}

// Writes the smallest lot of each lot's class, of lots 1 on.
pub fn write_grouping(grouping: &mut [u8], map: Classes)
    requires { (length grouping.old ≤ most_lots) × ClassesWithin map.lots }
    ensures { grouping.new ≡ take (length grouping.old) (drop 1 map.lots) }
{
    // No `copy_from_slice`: the law has the grouping read by `smallest_lot`, and with a copy each level of the search takes 128 bytes more of the stack.
    for (i, smallest) in grouping.iter_mut().enumerate() {
        let found = map.smallest_lot(Lot((i + 1) as u16));
        *smallest = found.lot.0 as u8;
    }
}
