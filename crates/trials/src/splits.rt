// Lists with many splits on a path, with one split, and with one ground alone. Where there are splits, the sheet has one condition, "apart 1 1" or "apart 0 0",
// so that every ground passes.
ghost use Rattle.std.specs.Prelude.{◌≤◌};

use crate::services;
use raw::Record;
use second_solver::Refusal;

// The bytes of the longest such list: 1,025 splits and 1,026 grounds.
const ROOM: usize = 16408;

// The sheet of one condition, "apart 1 1".
const APART: [u8; 16] = [1, 0, 1, 0, 1, 0, 1, 0, 2, 0, 1, 0, 1, 0, 0, 0];

// A ground that names condition 1.
const GROUND: Record = Record {
    kind: 2,
    spare: 0,
    first: 1,
    second: 0,
    next: 0,
};

fn put_node(list: &mut [u8], r: u16, node: Record) {
    raw::put_record(list, raw::node_field(r, 0), node);
}

// A split of these lots; its same branch is the record after it, its apart branch `next`.
fn split(a: u16, b: u16, next: u16) -> Record {
    Record {
        kind: 1,
        spare: 0,
        first: a,
        second: b,
        next,
    }
}

// Records 1 to s: splits of lot 1 and lot 1, each in the same branch of the one before. The last one's apart branch is the second ground, the one before
// that has the third, and so on.
fn put_splits(list: &mut [u8], s: u16)
    requires { s ≤ 1025 }
{
    for r in 1..=s {
        put_node(list, r, split(1, 1, 2 * s + 2 - r));
    }
}

// Records s + 1 to 2 s + 1: grounds.
fn put_grounds(list: &mut [u8], s: u16)
    requires { s ≤ 1025 }
{
    for r in s + 1..=2 * s + 1 {
        put_node(list, r, GROUND);
    }
}

// What the checker says of a list of s splits on a path, and s + 1 grounds.
pub fn splits_on_a_path(s: u16) -> Result<(), Refusal>
    requires { s ≤ 1025 }
{
    let mut list = [0; ROOM];
    put_splits(&mut list, s);
    put_grounds(&mut list, s);
    let length = 8 * (2 * (s as usize) + 1);
    services::checked(&APART, &list[..length])
}

// What the checker says of a ground that names the one condition of its sheet, which is withdrawn.
pub fn ground_of_withdrawn() -> Result<(), Refusal> {
    services::checked(&[1, 0, 1, 0, 0, 0, 0, 0], &[2, 0, 1, 0, 0, 0, 0, 0])
}

// What the checker says of a ground that names condition 0, which no sheet has.
pub fn ground_of_zero() -> Result<(), Refusal> {
    services::checked(&APART, &[2, 0, 0, 0, 0, 0, 0, 0])
}

// What the checker says of one split of these lots, where the sheet's n is 0.
pub fn split_of(a: u16, b: u16) -> Result<(), Refusal> {
    let mut list = [0; 24];
    put_node(&mut list, 1, split(a, b, 3));
    put_node(&mut list, 2, GROUND);
    put_node(&mut list, 3, GROUND);
    services::checked(&[0, 0, 1, 0, 1, 0, 1, 0, 2, 0, 0, 0, 0, 0, 0, 0], &list)
}
