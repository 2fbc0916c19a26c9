// Checks 1 to 8 and 17, stated a second time: from document 01's table and document 02's second and fifth requests, over the bytes as they stand. It has
// nothing in common with the reader.
use crate::Refusal;
use crate::sheet::{MOST_RECORDS, Sheet};
use raw::Record;

// Which records are reached: place r is set once record r is. Place 0 is no record's.
type Reached = [bool; 1025];

// A line of the table: the check refuses where there is a place that it is about.
fn refuse(check: u32, place: Option<u16>) -> Result<(), Refusal> {
    match place {
        Some(place) => Err(Refusal {
            check,
            place: u32::from(place),
        }),
        None => Ok(()),
    }
}

// Check 4: the first condition whose head is above k.
fn head_above(sheet: &Sheet) -> Option<u16> {
    (1..=sheet.conditions).find(|c| sheet.records < sheet.head(*c - 1))
}

// Whether a record is vacant: its eight bytes are zero.
fn vacant(term: Record) -> bool {
    term == Record::default()
}

// Of check 5: whether sign, spare, lots and next of a record are in range. A lot is one of 0 to n.
fn in_range(sheet: &Sheet, term: Record) -> bool {
    let known = term.kind == 1 || term.kind == 2;
    let named = term.first <= sheet.lots && term.second <= sheet.lots;
    known && term.spare == 0 && named && term.next <= sheet.records
}

// Check 5: the first record that is neither in range nor vacant.
fn out_of_range(sheet: &Sheet) -> Option<u16> {
    (1..=sheet.records).find(|r| {
        let term = sheet.record(*r);
        !in_range(sheet, term) && !vacant(term)
    })
}

// Checks 17 and 6, where the chains are walked one after the other: the first record that is vacant, or that is reached a second time.
fn walk(sheet: &Sheet) -> Result<Reached, Refusal> {
    let mut reached = [false; 1025];
    for c in 0..sheet.conditions {
        walk_chain(sheet, sheet.head(c), &mut reached)?;
    }
    Ok(reached)
}

// Each step marks a record or refuses, so one more step than there are records is enough.
fn walk_chain(sheet: &Sheet, head: u16, reached: &mut Reached) -> Result<(), Refusal> {
    let mut r = head;
    for _ in 0..=MOST_RECORDS {
        if r == 0 {
            break;
        }
        let term = sheet.record(r);
        refuse(17, vacant(term).then_some(r))?;
        refuse(6, is_reached(reached, r).then_some(r))?;
        if let Some(mark) = reached.get_mut(r as usize) {
            *mark = true;
        }
        r = term.next;
    }
    Ok(())
}

fn is_reached(reached: &Reached, r: u16) -> bool {
    reached.get(r as usize) == Some(&true)
}

// Check 7: the first record that is neither reached nor vacant.
fn never_reached(sheet: &Sheet, reached: &Reached) -> Option<u16> {
    (1..=sheet.records).find(|r| !is_reached(reached, *r) && !vacant(sheet.record(*r)))
}

// The first check that refuses, of 1 to 8 and 17, where the grouping has so much room.
fn checked(sheet: &Sheet, room: u16) -> Result<(), Refusal> {
    let length = 6 + 2 * (sheet.conditions as usize) + 8 * (sheet.records as usize);
    refuse(1, (sheet.bytes.len() < 6).then_some(0))?;
    refuse(2, (128 < sheet.lots).then_some(1))?;
    refuse(2, (256 < sheet.conditions).then_some(2))?;
    refuse(2, (MOST_RECORDS < sheet.records).then_some(3))?;
    refuse(3, (sheet.bytes.len() != length).then_some(0))?;
    refuse(4, head_above(sheet))?;
    refuse(5, out_of_range(sheet))?;
    let reached = walk(sheet)?;
    refuse(7, never_reached(sheet, &reached))?;
    refuse(8, (room < sheet.lots).then_some(sheet.lots))
}

// Whether a service that refuses so, or doesn't, does as the table says, by number and place, where a grouping of so many bytes is lent; what refuses by none
// of checks 1 to 8 and 17 is right where none of them refuses.
pub fn agrees(bytes: &[u8], room: u16, refusal: Option<Refusal>) -> bool {
    let stated = checked(&Sheet::of(bytes), room).err();
    match refusal {
        Some(given) if matches!(given.check, 1..=8 | 17) => stated == refusal,
        _ => stated.is_none(),
    }
}
