// Damaged refutations: each byte of a list, and each byte of its sheet, changed in three ways, and each condition withdrawn. A list that passes for a sheet
// that the second solver can meet is wrong, and a sheet that is refused otherwise than the second statement of the table refuses it is a difference.
use crate::services;
use crate::tally::Damage;
use generator::blanks;
use second_solver::{partitions, table};

// What the checker says as the two stand now. The second solver is asked where the list passes.
fn examine(sheet: &[u8], list: &[u8], damage: &mut Damage) {
    let answer = services::checked(sheet, list);
    damage.count(!table::agrees(sheet, 128, answer.err()));
    if answer.is_ok() {
        damage.count_passed(partitions::verdict(sheet));
    }
}

// One byte changed in three ways, one more, or its lowest or its highest bit turned, and then put back; each time the bytes are looked at.
fn change_byte<F: FnMut(&[u8])>(bytes: &mut [u8], at: usize, look: &mut F)
    requires { F.IsAlwaysCallable look.old }
    ensures { F.IsAlwaysCallable look.new }
{
    let byte = raw::byte_at(bytes, at);
    for changed in [byte.wrapping_add(1), byte ^ 1, byte ^ 128] {
        raw::put(bytes, at, changed);
        look(bytes);
    }
    raw::put(bytes, at, byte);
}

// Every byte, from the last one down.
fn change_bytes<F: FnMut(&[u8])>(bytes: &mut [u8], mut look: F)
    requires { F.IsAlwaysCallable look }
{
    for at in (0..bytes.len()).rev() {
        change_byte(bytes, at, &mut look);
    }
}

// A copy of the sheet, for a change. No sheet that is read or generated here has more than 2,048 bytes.
fn on_copy<F: FnOnce(&mut [u8])>(sheet: &[u8], change: F)
    requires { F.IsAlwaysCallable change }
{
    let mut copy = [0; 2048];
    if sheet.len() <= 2048 {
        let n = raw::copy(sheet, &mut copy);
        change(&mut copy[..n]);
    }
}

// Every byte of the list.
pub fn lists(sheet: &[u8], list: &mut [u8], damage: &mut Damage) {
    change_bytes(list, |list| examine(sheet, list, damage));
}

// Every byte of the sheet, in a copy.
pub fn sheets(sheet: &[u8], list: &[u8], damage: &mut Damage) {
    on_copy(
        sheet,
        |copy| change_bytes(copy, |sheet| examine(sheet, list, damage)),
    );
}

// The condition that has c before it in three ways one after the other: its head zero while its records are left; withdrawn; its records vacant, and its head
// put back, so that its chain reaches a vacant record.
fn withdraw(sheet: &mut [u8], list: &[u8], c: u16, damage: &mut Damage) {
    let head = raw::number_at(sheet, raw::head_field(c));
    raw::put_number(sheet, raw::head_field(c), 0);
    examine(sheet, list, damage);
    raw::put_number(sheet, raw::head_field(c), head);
    blanks::withdraw(sheet, c);
    examine(sheet, list, damage);
    raw::put_number(sheet, raw::head_field(c), head);
    examine(sheet, list, damage);
}

// Every condition of the sheet, each in a copy.
pub fn conditions(sheet: &[u8], list: &[u8], damage: &mut Damage) {
    for c in (0..raw::number_at(sheet, 2)).rev() {
        on_copy(sheet, |copy| withdraw(copy, list, c, damage));
    }
}
