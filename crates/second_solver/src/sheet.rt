// A sheet's bytes, with the numbers of its header beside them.
use raw::Record;

// The most records of a sheet, and so of a chain.
pub const MOST_RECORDS: u16 = 1024;

#[derive(Clone, Copy)]
pub struct Sheet<'a> {
    pub bytes: &'a [u8],
    pub lots: u16,
    pub conditions: u16,
    pub records: u16,
}

impl<'a> Sheet<'a> {
    pub fn of(bytes: &'a [u8]) -> Sheet<'a> {
        Sheet {
            bytes,
            lots: raw::number_at(bytes, 0),
            conditions: raw::number_at(bytes, 2),
            records: raw::number_at(bytes, 4),
        }
    }

    // The head of the condition that has c before it.
    #[inline]
    pub fn head(&self, c: u16) -> u16 {
        raw::number_at(self.bytes, raw::head_field(c))
    }

    #[inline]
    pub fn record(&self, r: u16) -> Record {
        raw::record_at(self.bytes, raw::term_field(self.conditions, r, 0))
    }
}
