// Node records, and the store and the lists that hold them.
#![tactic(auto)]

ghost use Rattle.std.specs.Prelude.{◌≡◌, ◌++◌, ◌+◌, ◌*◌, ◌-◌, ◌≤◌, ◌<◌, length, drop, replicate};
ghost use Rattle.std.proofs.lemmas.List.Edits.{sets};
ghost use Rattle.store.specs.Records.{record_length, next_place, next_bytes, most_next, fields, encode, Fits, of_kind, record_at, set_next, capacity};
ghost use Rattle.store.specs.Code.{record_of, HasPlace};

use sheet::{Condition, Lot};

// The bytes of a node record.
pub const RECORD_LENGTH: usize = 8;

// The most node records that a store has.
pub const MOST_NODES: usize = 65535;

// Where in a node record its next stands.
const NEXT_PLACE: usize = 6;

// The kinds of node records, by their bytes: the law has a record decoded by a match on its kind byte with ranges.
const SPLIT: u8 = 1;

const GROUND: u8 = 2;

const MET: u8 = 3;

const CLIQUE: u8 = 4;

// The kind of bytes that are none of these, as `write` writes it; all kinds behind the last are so too.
const NO_RECORD: u8 = 0;

// The number of a node record, from 1; zero stands for none. Term records (sheet::Record) have numbers of their own.
#[derive(Clone, Copy)]
pub struct NodeNumber(pub u32);

// A node record: a split of two lots with its next, the ground that is a condition, met, a clique, or bytes that are none of these. The last is no Option's
// None: the contract of `write` covers it, and each of its callers would have to wrap what it writes.
#[derive(Clone, Copy)]
pub enum NodeRecord {
    Split(Lot, Lot, NodeNumber),
    Ground(Condition),
    Met,
    Clique,
    Other,
}

// How many node records a store has room for.
pub fn capacity_of(store: &[u8]) -> usize
    ensures { result ≡ capacity store.now }
{
    (store.len() / RECORD_LENGTH).min(MOST_NODES)
}

// Where a node record begins.
fn place_of(number: NodeNumber) -> usize
    requires { 1 ≤ number.0 }
    ensures { result ≡ record_length * (number.0 - 1) }
{
    let n = number.0 as usize;
    RECORD_LENGTH * (n - 1)
}

// Writes the next of the node record that begins at a place.
fn put_next(store: &mut [u8], at: usize, next: NodeNumber)
    requires { (at + record_length ≤ length store.old) × (next.0 ≤ most_next) }
    ensures { store.new ≡ sets store.old (at + next_place) (next_bytes next.0) }
{
    buffers::put_number(store, at + NEXT_PLACE, next.0 as u16);
}

// Writes the fields of a node record.
fn put_fields(
    store: &mut [u8],
    number: NodeNumber,
    kind: u8,
    first: u16,
    second: u16,
    next: NodeNumber,
)
    requires { HasPlace store.old number.0 × (next.0 ≤ most_next) }
    ensures { store.new
        ≡ sets store.old (record_length * (number.0 - 1)) (fields kind first second next.0) }
{
    let at = place_of(number);
    buffers::put_fields(store, at, kind, first, second);
    put_next(store, at, next);
}

// Writes a node record.
#[tactic(auto, unfolding(crate::specs::Records::encode))]
pub fn write(store: &mut [u8], number: NodeNumber, node: NodeRecord)
    requires { HasPlace store.old number.0 × Fits (record_of node) }
    ensures { store.new
        ≡ sets store.old (record_length * (number.0 - 1)) (encode (record_of node)) }
{
    match node {
        NodeRecord::Split(a, b, next) => put_fields(store, number, SPLIT, a.0, b.0, next),
        NodeRecord::Ground(c) => put_fields(store, number, GROUND, c.0, 0, NodeNumber(0)),
        NodeRecord::Met => put_fields(store, number, MET, 0, 0, NodeNumber(0)),
        NodeRecord::Clique => put_fields(store, number, CLIQUE, 0, 0, NodeNumber(0)),
        NodeRecord::Other => put_fields(store, number, NO_RECORD, 0, 0, NodeNumber(0)),
    }
}

// Writes the next of a node record, once it is known, and leaves the rest of the record as it is.
pub fn set_next(store: &mut [u8], number: NodeNumber, next: NodeNumber)
    requires { HasPlace store.old number.0 × (next.0 ≤ most_next) }
    ensures { store.new ≡ set_next store.old number.0 next.0 }
{
    let at = place_of(number);
    put_next(store, at, next);
}

// The node record of these fields, where those that have to be 0 are.
#[tactic(auto, unfolding(crate::specs::Records::of_kind))]
fn decode_fields(kind: u8, spare: u8, first: u16, second: u16, next: u16) -> NodeRecord
    ensures { record_of result ≡ of_kind kind spare first second next }
{
    match kind {
        SPLIT => if spare == 0 {
            NodeRecord::Split(Lot(first), Lot(second), NodeNumber(u32::from(next)))
        } else {
            NodeRecord::Other
        },
        GROUND => if spare == 0 && second == 0 && next == 0 {
            NodeRecord::Ground(Condition(first))
        } else {
            NodeRecord::Other
        },
        MET => if spare == 0 && first == 0 && second == 0 && next == 0 {
            NodeRecord::Met
        } else {
            NodeRecord::Other
        },
        CLIQUE => if spare == 0 && first == 0 && second == 0 && next == 0 {
            NodeRecord::Clique
        } else {
            NodeRecord::Other
        },
        NO_RECORD | 5..=255 => NodeRecord::Other,
    }
}

// Reads a node record.
#[tactic(auto, unfolding(crate::specs::Records::decode))]
pub fn read(list: &[u8], number: NodeNumber) -> NodeRecord
    requires { HasPlace list.now number.0 }
    ensures { record_of result ≡ record_at list.now number.0 }
{
    let at = place_of(number);
    let first = buffers::number_at(list, at + 2);
    let second = buffers::number_at(list, at + 4);
    let next = buffers::number_at(list, at + NEXT_PLACE);
    decode_fields(list[at], list[at + 1], first, second, next)
}

// Zeroes the first records of a store.
pub fn clear(store: &mut [u8], count: usize)
    requires { record_length * count ≤ length store.old }
    ensures { store.new
        ≡ replicate (record_length * count) 0 ++ drop (record_length * count) store.old }
{
    store[..RECORD_LENGTH * count].fill(0);
}
