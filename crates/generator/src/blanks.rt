// Withdrawn conditions and vacant records, made in a sheet's bytes.
use raw::Record;

// Record r vacant.
pub fn blank(sheet: &mut [u8], r: u16) {
    let m = raw::number_at(sheet, 2);
    raw::put_record(sheet, raw::term_field(m, r, 0), Record::default());
}

// The condition that has c before it withdrawn: its head zero, and its records vacant. A chain has at most 1,024 records.
pub fn withdraw(sheet: &mut [u8], c: u16) {
    let m = raw::number_at(sheet, 2);
    let mut r = raw::number_at(sheet, raw::head_field(c));
    raw::put_number(sheet, raw::head_field(c), 0);
    for _ in 0..1024 {
        if r == 0 {
            break;
        }
        let next = raw::number_at(sheet, raw::term_field(m, r, 6));
        blank(sheet, r);
        r = next;
    }
}
