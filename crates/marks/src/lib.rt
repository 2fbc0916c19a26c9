// Which two classes are marked apart, as a table of bits in lent bytes: marked once for all pairs set apart, it answers each question by one look. What the
// bytes of the table have before does not matter.
#![tactic(auto)]

ghost use Rattle.std.specs.Prelude.{◌≡◌, ◌+◌, ◌*◌, ◌≤◌, ◌<◌, length};
ghost use Rattle.sheet.specs.Format.{most_lots};
ghost use Rattle.classes.specs.Maps.{ClassMap};
ghost use Rattle.classes.specs.Pairs.{set_apart, PairsWithin};
ghost use Rattle.marks.specs.Marks.{table_length, place, Room, bit_at, with_bit, mark_at, Unmarked, Marks, Outside, MarkedToo};

use classes::ENTRIES;

// The bytes of a row: a bit for each class that can be the smaller of two.
const ROW_LENGTH: usize = 16;

// The bytes of a table: a row for each class that can be the larger. With a bit for each order a pair would set two, and the table be slower to clear.
pub const TABLE_LENGTH: usize = ROW_LENGTH * (ENTRIES - 1);

// So many pairs are walked over for false terms before a table is worth its marking (docs/PERFORMANCE.md).
pub const WALKED: usize = 64;

// Takes all marks from a table.
pub fn clear(bytes: &mut [u8], at: usize)
    requires { Room bytes.old at }
    ensures unmarked { Unmarked bytes.new at }
    ensures outside { Outside bytes.old bytes.new at }
{
    bytes[at..at + TABLE_LENGTH].fill(0);
}

// The byte that has the bit of two classes, the smaller first.
fn place(at: usize, x: u8, y: u8) -> usize
    requires { (at + table_length ≤ usize.MAX) × (x < y) × (y ≤ most_lots) }
    ensures { result ≡ place at x y }
{
    at + ROW_LENGTH * usize::from(y - 1) + usize::from(x / 8)
}

// Sets the bit of two classes, the smaller first.
fn set_bit(bytes: &mut [u8], at: usize, x: u8, y: u8)
    requires { Room bytes.old at × (x < y) × (y ≤ most_lots) }
    ensures { bytes.new ≡ with_bit bytes.old at x y }
{
    bytes[place(at, x, y)] |= 1 << (x % 8);
}

// That bit.
fn bit_at(bytes: &[u8], at: usize, x: u8, y: u8) -> bool
    requires { Room bytes.now at × (x < y) × (y ≤ most_lots) }
    ensures { result ≡ bit_at bytes.now at x y }
{
    (bytes[place(at, x, y)] >> (x % 8)) % 2 == 1
}

// Marks two classes. A class is not marked with itself.
pub fn mark(bytes: &mut [u8], at: usize, x: u8, y: u8)
    requires { Room bytes.old at × (x ≤ most_lots) × (y ≤ most_lots) }
    ensures { MarkedToo bytes.old bytes.new at x y }
{
    if x < y {
        set_bit(bytes, at, x, y);
    } else if y < x {
        set_bit(bytes, at, y, x);
    }
}

// Whether two classes are marked.
pub fn is_marked(bytes: &[u8], at: usize, x: u8, y: u8) -> bool
    requires { Room bytes.now at × (x ≤ most_lots) × (y ≤ most_lots) }
    ensures { result ≡ mark_at bytes.now at x y }
{
    if x < y {
        return bit_at(bytes, at, x, y);
    }
    if y < x {
        return bit_at(bytes, at, y, x);
    }
    false
}

// Marks the classes of each of the first `count` pairs, which stand in front of the table, by a map.
fn mark_pairs(bytes: &mut [u8], at: usize, lots: &[u8], count: usize)
    requires { Room bytes.old at × (2 * count ≤ at) × PairsWithin bytes.old count × ClassMap lots.now × Unmarked bytes.old at }
    ensures marks { Marks bytes.new at lots.now (set_apart bytes.old count) }
    ensures outside { Outside bytes.old bytes.new at }
{
    for i in 0..count {
        let a = usize::from(bytes[2 * i]);
        let b = usize::from(bytes[2 * i + 1]);
        mark(bytes, at, lots[a], lots[b]);
    }
}

// The table of the first `count` pairs, which stand in front of it: two classes are marked exactly where some pair has one lot in each.
pub fn stamp_pairs(bytes: &mut [u8], at: usize, lots: &[u8], count: usize)
    requires { Room bytes.old at × (2 * count ≤ at) × PairsWithin bytes.old count × ClassMap lots.now }
    ensures marks { Marks bytes.new at lots.now (set_apart bytes.old count) }
    ensures outside { Outside bytes.old bytes.new at }
{
    clear(bytes, at);
    mark_pairs(bytes, at, lots, count);
}
