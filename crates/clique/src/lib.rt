// Which limits can be asked for, the classes that one looks at, and their pairs: by a class map and a table of marks, from any pair on.
#![tactic(auto)]

ghost use Rattle.std.specs.Prelude.{◌≡◌, suc, ◌≤◌, length, take};
ghost use Rattle.sheet.specs.Format.{most_lots};
ghost use Rattle.equality.specs.Node.{Node};
ghost use Rattle.limit.specs.Meaning.{ill_limited};
ghost use Rattle.limit.specs.Rule.{smallest_from, split_with, clique_or_split};
ghost use Rattle.limit.specs.Scan.{classes_from, classes_up_to, pairs_at};
ghost use Rattle.classes.specs.Maps.{ClassMap};
ghost use Rattle.marks.specs.Marks.{Room, mark_at};
ghost use Rattle.clique.specs.Found.{found_as, found_with, Listed};

use sheet::Lot;

// The first classes: how many there are, and the lot behind them.
#[derive(Clone, Copy)]
pub struct First {
    pub count: usize,
    pub end: usize,
}

// The highest limit.
const MOST_LIMIT: u32 = 129;

// Whether a limit is none that can be asked for, by all of its 32 bits.
pub fn ill_limited(limit: u32) -> bool
    ensures { result ≡ ill_limited limit }
{
    limit == 0 || MOST_LIMIT < limit
}

// The classes of lots 0 to n with the smallest lots: one more than the limit, or all.
pub fn first_classes(lots: &[u8], n: u16, limit: u16) -> First
    requires { ClassMap lots.now × (n ≤ most_lots) }
    ensures end { result.end ≤ suc n }
    ensures count { result.count ≡ length (smallest_from lots.now result.end 0) }
    ensures first { take (suc limit) (classes_up_to lots.now n) ≡ smallest_from lots.now result.end 0 }
{
    let most = usize::from(limit);
    let all = usize::from(n) + 1;
    let mut count: usize = 0;
    for end in 0..all {
        if most < count {
            return First { count, end };
        }
        if usize::from(lots[end]) == end {
            count += 1;
        }
    }
    First { count, end: all }
}

// The first class, from lot `from` on and below lot `end`, that isn't marked with the class x.
fn unmarked_with(
    lots: &[u8],
    bytes: &[u8],
    table: usize,
    x: u8,
    from: usize,
    end: usize,
) -> Option<u8>
    requires { ClassMap lots.now × Room bytes.now table × (x ≤ most_lots) × (end ≤ suc most_lots) }
    ensures { (others : Node) → split_with (mark_at bytes.now table) x (classes_from lots.now end from) others ≡ found_with x result others }
{
    for y in from..end {
        let class = lots[y];
        if usize::from(class) == y && !marks::is_marked(bytes, table, x, class) {
            return Some(class);
        }
    }
    None
}

// Writes the classes from lot `from` on and below lot `end` into a list, each by its smallest lot, rising, and answers how many there are. They are counted by hand, since not
// every lot is one.
fn list_classes(lots: &[u8], from: usize, end: usize, list: &mut [u8]) -> usize
    requires { ClassMap lots.now × (end ≤ suc most_lots) × (length list.old ≡ suc most_lots) }
    ensures count { result ≤ suc most_lots }
    ensures listed { take result list.new ≡ classes_from lots.now end from }
{
    let mut count: usize = 0;
    for lot in from..end {
        let class = lots[lot];
        if usize::from(class) == lot {
            list[count] = class;
            count += 1;
        }
    }
    count
}

// The first class of a list that isn't marked with the class x.
fn unmarked_in(list: &[u8], bytes: &[u8], table: usize, x: u8) -> Option<u8>
    requires { Listed list.now × Room bytes.now table × (x ≤ most_lots) }
    ensures { (others : Node) → split_with (mark_at bytes.now table) x list.now others ≡ found_with x result others }
{
    for y in list {
        if !marks::is_marked(bytes, table, x, *y) {
            return Some(*y);
        }
    }
    None
}

// The first pair of a list's classes that aren't marked apart, the lower first; none where they are a clique.
fn first_listed(list: &[u8], bytes: &[u8], table: usize) -> Option<(Lot, Lot)>
    requires { Listed list.now × Room bytes.now table }
    ensures { found_as result ≡ clique_or_split (mark_at bytes.now table) list.now }
{
    for (low, x) in list.iter().enumerate() {
        if let Some(y) = unmarked_in(&list[low + 1..], bytes, table, *x) {
            return Some((Lot(u16::from(*x)), Lot(u16::from(y))));
        }
    }
    None
}

// The first pair of the classes from lot `from` on and below lot `end` that aren't marked apart. The classes are listed first, so that their pairs cost no more
// than their square, however many lots stand between them.
fn first_among(
    lots: &[u8],
    bytes: &[u8],
    table: usize,
    from: usize,
    end: usize,
) -> Option<(Lot, Lot)>
    requires { ClassMap lots.now × Room bytes.now table × (end ≤ suc most_lots) }
    ensures { found_as result ≡ clique_or_split (mark_at bytes.now table) (classes_from lots.now end from) }
{
    let mut list = [0u8; classes::ENTRIES];
    let count = list_classes(lots, from, end, &mut list);
    first_listed(&list[..count], bytes, table)
}

// The first pair of classes below lot `end` that aren't marked apart, the lower first, from the lots x and y on; none where they are a clique. The pairs of x are
// looked at lot by lot, since most often one of them is found, and then those of the classes behind it.
pub fn first_open(
    lots: &[u8],
    bytes: &[u8],
    table: usize,
    x: usize,
    y: usize,
    end: usize,
) -> Option<(Lot, Lot)>
    requires { ClassMap lots.now × Room bytes.now table × (x ≤ y) × (end ≤ suc most_lots) }
    ensures { found_as result ≡ pairs_at (mark_at bytes.now table) lots.now end x y }
{
    if end <= x {
        return None;
    }
    let class = lots[x];
    if usize::from(class) == x {
        if let Some(high) = unmarked_with(lots, bytes, table, class, y, end) {
            return Some((Lot(u16::from(class)), Lot(u16::from(high))));
        }
    }
    first_among(lots, bytes, table, x + 1, end)
}
