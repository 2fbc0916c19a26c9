// The sheet in the making.
use raw::Record;

// One byte more than the longest sheet has, so that a sheet can be too long.
pub const ROOM: usize = 8711;

// The bytes are lent, since a sheet is made for each line, and moving them costs more than all else that is done with one. The length stands beside them,
// since a change of it moves none: what is cut off is there again where a later change lengthens the sheet.
#[derive(Drop)]
pub struct Sheet<'a> {
    bytes: &'a mut [u8; ROOM],
    m: u16,
    len: usize,
}

impl<'a> Sheet<'a> {
    // No byte.
    pub fn empty(bytes: &'a mut [u8; ROOM]) -> Sheet<'a> {
        Sheet {
            bytes,
            m: 0,
            len: 0,
        }
    }

    // n lots, m conditions, and k records on the first chain, each "same 1 1", one after the other. What the bytes held is cleared.
    pub fn plain(bytes: &'a mut [u8; ROOM], n: u16, m: u16, k: u16) -> Sheet<'a> {
        bytes.fill(0);
        raw::put_number(bytes, 0, n);
        raw::put_number(bytes, 2, m);
        raw::put_number(bytes, 4, k);
        if k != 0 {
            raw::put_number(bytes, raw::head_field(0), 1);
        }
        for r in 1..=k {
            let term = Record {
                kind: 1,
                spare: 0,
                first: 1,
                second: 1,
                next: if r < k { r + 1 } else { 0 },
            };
            raw::put_record(bytes, raw::term_field(m, r, 0), term);
        }
        Sheet {
            bytes,
            m,
            len: 6 + 2 * (m as usize) + 8 * (k as usize),
        }
    }

    // A change: its letter, a length, condition or record, and the new value. Record 0 is nowhere.
    pub fn change(&mut self, letter: u8, place: u16, value: u16) {
        match letter {
            b'l' => self.len = place as usize,
            b'h' => raw::put_number(self.bytes, 4 + 2 * (place as usize), value),
            _ if place != 0 => self.change_record(letter, place, value),
            _ => {}
        }
    }

    fn change_record(&mut self, letter: u8, r: u16, value: u16) {
        let at = raw::term_field(self.m, r, 0);
        let mut term = raw::record_at(self.bytes, at);
        let [low, _] = value.to_le_bytes();
        match letter {
            b's' => term.kind = low,
            b'p' => term.spare = low,
            b'a' => term.first = value,
            b'b' => term.second = value,
            b'v' => term = Record::default(),
            _ => term.next = value,
        }
        raw::put_record(self.bytes, at, term);
    }

    // Its bytes, where there is room for so many.
    pub fn bytes(&self) -> Option<&[u8]> {
        self.bytes.get(..self.len)
    }
}
