// Sheets from a fixed generator of numbers. Each has 1 to 8 conditions of 1 to 4 terms, which name up to six lots, of 0 to n in half of the sheets and of 1 to
// n in the others. One condition of six is withdrawn. The records of a condition follow each other, in the order of the conditions.
ghost use Rattle.std.specs.Prelude.{◌<◌};

use crate::blanks;
use raw::Record;

// The generator's state.
#[derive(Clone, Copy)]
struct State(u64);

impl State {
    // The next one, below 2 to the power 31.
    fn following(self) -> State {
        State(((self.0 % 2147483648) * 1103515245 + 12345) % 2147483648)
    }

    // A number below a bound, from the upper bits.
    fn below(self, bound: u16) -> u16
        ensures { result < 32768 }
    {
        if bound == 0 {
            return 0;
        }
        (((self.0 / 65536) % 32768) as u16) % bound
    }

    // A number from 1 to a bound.
    fn from_one(self, bound: u16) -> u16 {
        self.below(bound) + 1
    }

    // Three signs of five are "same".
    fn sign(self) -> u8 {
        if self.below(5) < 3 { 1 } else { 2 }
    }

    // One of so many lots, from lot 0 or from lot 1 on.
    fn lot(self, zero: bool, count: u16) -> u16 {
        if zero {
            self.below(count)
        } else {
            self.from_one(count)
        }
    }
}

// A sheet in the making, whose header has m already: how many conditions it gets, what lots its terms name, the records so far, and the generator's state.
#[derive(Drop)]
struct Draft<'a> {
    sheet: &'a mut [u8],
    m: u16,
    zero: bool,
    count: u16,
    terms: u16,
    state: State,
}

impl Draft<'_> {
    fn next(&mut self) -> State {
        self.state = self.state.following();
        self.state
    }

    // A term more, at the record after those that are made; the last of its chain or not.
    fn add_term(&mut self, last: bool) {
        if 1023 < self.terms {
            return;
        }
        let r = self.terms + 1;
        let term = Record {
            kind: self.next().sign(),
            spare: 0,
            first: self.next().lot(self.zero, self.count),
            second: self.next().lot(self.zero, self.count),
            next: if last { 0 } else { r + 1 },
        };
        raw::put_record(self.sheet, raw::term_field(self.m, r, 0), term);
        self.terms = r;
    }

    // A condition more: its head, and its terms; it may be withdrawn at once.
    fn add_condition(&mut self, c: u16) {
        if 1023 < self.terms {
            return;
        }
        raw::put_number(self.sheet, raw::head_field(c), self.terms + 1);
        for left in (0..self.next().from_one(4)).rev() {
            self.add_term(left == 0);
        }
        if self.next().below(6) == 0 {
            blanks::withdraw(self.sheet, c);
        }
    }
}

// The sheet from a state on, at the start of the bytes; the state after it. Its n is the last of the lots that terms may name.
pub fn sheet_from(sheet: &mut [u8], state: u64) -> u64 {
    let lowest = State(state).following();
    let lots = lowest.following();
    let conditions = lots.following();
    let zero = lowest.below(2) == 0;
    let m = conditions.from_one(8);
    raw::put_number(sheet, 0, lots.lot(zero, 6));
    raw::put_number(sheet, 2, m);
    let mut draft = Draft {
        sheet,
        m,
        zero,
        count: lots.from_one(6),
        terms: 0,
        state: conditions,
    };
    for c in 0..m {
        draft.add_condition(c);
    }
    let Draft { terms, state, .. } = draft;
    raw::put_number(sheet, 4, terms);
    state.0
}

// A record of the sheet made vacant, or a next set to any record, or both; the state after it. Most such sheets are refused, by check 5, 6, 7 or 17.
pub fn relinked(sheet: &mut [u8], state: u64) -> u64 {
    let m = raw::number_at(sheet, 2);
    let k = raw::number_at(sheet, 4);
    let way = State(state).following();
    let blanked = way.following();
    let from = blanked.following();
    let to = from.following();
    if way.below(3) != 0 {
        blanks::blank(sheet, blanked.from_one(k));
    }
    if way.below(3) != 1 {
        raw::put_number(
            sheet,
            raw::term_field(m, from.from_one(k), 6),
            to.from_one(k),
        );
    }
    to.0
}

// The length that a sheet's first bytes give it.
pub fn length_of(sheet: &[u8]) -> usize {
    let m = raw::number_at(sheet, 2) as usize;
    let k = raw::number_at(sheet, 4) as usize;
    6 + 2 * m + 8 * k
}
