// The second solver: every way to part the lots that a sheet's terms name, six at most, each asked of the conditions as they stand in the sheet's bytes; what
// the other lots do matters to no term. It has nothing in common with the search, the checker and the evaluator, nor with what they stand on.
//
// Lot 0 is a lot like others here, although every assignment gives it the number 0: a term only asks whether two numbers are equal, and whatever the way, its
// groups can be given numbers of which that of lot 0 is 0.
//
// A way is a group for each name, the first one's 0, each other at most one more than the highest before it: so no way comes twice.
ghost use Rattle.std.specs.Prelude.{◌≤◌};
ghost use Rattle.second_solver.specs.declared.partitions.TheConstants.{MOST_LOTS};

use crate::sheet::{MOST_RECORDS, Sheet};
use raw::Record;

// The most lots that are parted, and in how many ways.
const MOST_LOTS: usize = 6;

const WAYS: u16 = 203;

// The lots that a sheet's terms name, each once. A count stands beside their places: nothing here is taken from the heap, and the list is
// a few lines.
#[derive(Clone, Copy)]
struct Names {
    lots: [u16; MOST_LOTS],
    count: usize,
    ghost within: { count ≤ MOST_LOTS },
}

impl Names {
    // None where there are more than are parted. A record is vacant if its sign is 0: in an accepted sheet that tells.
    fn of(sheet: &Sheet) -> Option<Names> {
        let mut names = Names {
            lots: [0; MOST_LOTS],
            count: 0,
        };
        for r in (1..=sheet.records).rev() {
            let term = sheet.record(r);
            if term.kind != 0 {
                names.add(term.first)?;
                names.add(term.second)?;
            }
        }
        Some(names)
    }

    fn add(&mut self, lot: u16) -> Option<()> {
        if self.place_of(lot).is_none() {
            if self.count == MOST_LOTS {
                return None;
            }
            self.lots[self.count] = lot;
            self.count += 1;
        }
        Some(())
    }

    fn place_of(&self, lot: u16) -> Option<usize> {
        self.lots[..self.count].iter().position(|name| *name == lot)
    }
}

// A way to part the lots named: the group of each, at its name's place.
#[derive(Clone, Copy)]
struct Way {
    names: Names,
    groups: [u8; MOST_LOTS],
}

impl Way {
    fn group_of(&self, lot: u16) -> Option<u8> {
        let place = self.names.place_of(lot)?;
        self.groups.get(place).copied()
    }

    fn makes_true(&self, term: Record) -> bool {
        let equal = self.group_of(term.first) == self.group_of(term.second);
        equal == (term.kind == 1)
    }

    // Whether some term of a condition is true.
    fn makes_some_true(&self, sheet: &Sheet, head: u16) -> bool {
        let mut r = head;
        for _ in 0..MOST_RECORDS {
            if r == 0 {
                return false;
            }
            let term = sheet.record(r);
            if self.makes_true(term) {
                return true;
            }
            r = term.next;
        }
        false
    }

    // Whether every condition is met: every way meets one that is withdrawn.
    fn meets(&self, sheet: &Sheet) -> bool {
        (0..sheet.conditions).all(|c| {
            let head = sheet.head(c);
            head == 0 || self.makes_some_true(sheet, head)
        })
    }

    // The way after this one, in place; whether there is one. The last lot that can goes to the group after its own, and those after it go back to the
    // first group. The first lot stays where it is.
    fn advance(&mut self) -> bool {
        let groups = &mut self.groups[..self.names.count];
        for i in (1..groups.len()).rev() {
            let group = groups[i];
            if groups[..i].iter().any(|before| group <= *before) {
                groups[i] = group.wrapping_add(1);
                groups[i + 1..].fill(0);
                return true;
            }
        }
        false
    }
}

// Whether an accepted sheet can be met; None where its terms name more lots than are parted.
pub fn verdict(bytes: &[u8]) -> Option<bool> {
    let sheet = Sheet::of(bytes);
    let mut way = Way {
        names: Names::of(&sheet)?,
        groups: [0; MOST_LOTS],
    };
    for _ in 0..WAYS {
        if way.meets(&sheet) {
            return Some(true);
        }
        if !way.advance() {
            return Some(false);
        }
    }
    Some(false)
}
