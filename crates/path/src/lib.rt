// The splits above a record of a list of records, with the branch taken at each, in lent numbers: the path that a checker of the list keeps. The
// functions take the numbers and how many splits there are; the room is the slice's length. What changes the path goes through `Path`, lent by `&mut`.
#![tactic(auto)]

ghost use Rattle.std.specs.Prelude.{◌≡◌, ◌∷◌, ◌+◌, ◌*◌, ◌-◌, ◌≤◌, ◌<◌, length};
ghost use Rattle.sheet.specs.Format.{most_lots};
ghost use Rattle.refutation.specs.Refutation.{nearest, turned};
ghost use Rattle.path.specs.Paths.{split_length, split_in, first_lot_in, second_lot_in, path_of, PathWithin, nearest_as, split_of, decision_of};
ghost use Rattle.path.specs.Paths.{pushed_at, turned_at, pushed_path, turned_path, dropped_path};

use sheet::Lot;
use store::NodeNumber;

// The numbers of a split: its record number, its next, the branch taken, lot a, lot b. A record number has 32 bits, so that no list is too long for it.
pub const SPLIT_LENGTH: usize = 5;

// The branch taken is written as the sign of its decision, among lent numbers, where `split_in` reads it.
const SAME_BRANCH: u32 = sheet::SAME as u32;

const APART_BRANCH: u32 = sheet::APART as u32;

// A split, as it is pushed; its lots as written in the record.
#[derive(Clone, Copy)]
pub struct Split {
    pub number: NodeNumber,
    pub next: NodeNumber,
    pub a: Lot,
    pub b: Lot,
}

// The lots of a split, and whether they are set same or set apart.
#[derive(Clone, Copy)]
pub struct Pair {
    pub same: bool,
    pub a: Lot,
    pub b: Lot,
}

// The path that is lent: its numbers, and how many splits there are.
#[derive(Drop)]
pub struct Path<'a> {
    pub splits: &'a mut [u32],
    pub depth: usize,
}

// The numbers, with a split on top in its same branch.
fn push_at(splits: &mut [u32], depth: usize, split: Split) -> usize
    requires { split_length * depth + split_length ≤ length splits.old }
    ensures { (result ≡ depth + 1) × (splits.new ≡ pushed_at splits.old depth split) }
{
    let at = SPLIT_LENGTH * depth;
    splits[at] = split.number.0;
    splits[at + 1] = split.next.0;
    splits[at + 2] = SAME_BRANCH;
    splits[at + 3] = u32::from(split.a.0);
    splits[at + 4] = u32::from(split.b.0);
    depth + 1
}

// The numbers, with the top split in its apart branch.
fn turn_at(splits: &mut [u32], depth: usize)
    requires { (0 < depth) × (split_length * depth ≤ length splits.old) }
    ensures { splits.new ≡ turned_at splits.old depth }
{
    splits[SPLIT_LENGTH * (depth - 1) + 2] = APART_BRANCH;
}

// A split goes on top of the lent path, in its same branch.
pub fn push_split<'s, 'a>(p: &'s mut Path<'a>, split: Split)
    requires { split_length * p.old.depth + split_length ≤ length p.old.splits.now }
    ensures { p.new ≡ pushed_path p.old split }
{
    p.depth = push_at(p.splits, p.depth, split);
}

// The top split of the lent path goes to its apart branch.
pub fn turn_split<'s, 'a>(p: &'s mut Path<'a>)
    requires { (0 < p.old.depth) × (split_length * p.old.depth ≤ length p.old.splits.now) }
    ensures { p.new ≡ turned_path p.old }
{
    turn_at(p.splits, p.depth);
}

// The top split of the lent path is dropped: its numbers stay, and count no more.
pub fn drop_split<'s, 'a>(p: &'s mut Path<'a>)
    requires { 0 < p.old.depth }
    ensures { p.new ≡ dropped_path p.old }
{
    p.depth -= 1;
}

// A split goes on top, in its same branch: the numbers are lent as a path, and the new number of splits is handed back.
pub fn push(path: &mut [u32], depth: usize, split: Split) -> usize
    requires { split_length * depth + split_length ≤ length path.old }
    ensures depth { result ≡ depth + 1 }
    ensures path { path_of path.new result ≡ split_of split ∷ path_of path.old depth }
{
    let mut p = Path {
        splits: path,
        depth,
    };
    push_split(&mut p, split);
    p.depth
}

// The top split goes to its apart branch.
pub fn turn(path: &mut [u32], depth: usize)
    requires { (0 < depth) × (split_length * depth ≤ length path.old) }
    ensures { path_of path.new depth
        ≡ turned (split_in path.old (depth - 1)) (first_lot_in path.old (depth - 1)) (second_lot_in path.old (depth - 1))
        ∷ path_of path.old (depth - 1) }
{
    let mut p = Path {
        splits: path,
        depth,
    };
    turn_split(&mut p);
}

// The top split is dropped: its numbers stay, and count no more.
pub fn drop_last(path: &mut [u32], depth: usize) -> usize
    requires { 0 < depth }
    ensures depth { result ≡ depth - 1 }
    ensures path { path_of path.old depth ≡ split_in path.old result ∷ path_of path.new result }
    ensures numbers { path.new ≡ path.old }
{
    let mut p = Path {
        splits: path,
        depth,
    };
    drop_split(&mut p);
    p.depth
}

// The nearest split still in its same branch: how many splits stand above and with it, or 0 where there is none (`nearest_as` reads it so). Those nearer are over, and dropped.
pub fn nearest(path: &mut [u32], depth: usize) -> usize
    requires { split_length * depth ≤ length path.old }
    ensures within { result ≤ depth }
    ensures nearest { nearest_as path.old result ≡ nearest (path_of path.old depth) }
    ensures numbers { path.new ≡ path.old }
{
    let mut top = depth;
    // No `for`: the law has a split dropped from the lent path, and `drop_last`, which does that, counts down.
    while 0 < top {
        let branch = path[SPLIT_LENGTH * (top - 1) + 2];
        if branch == SAME_BRANCH {
            return top;
        }
        top = drop_last(path, top);
    }
    top
}

// The record number of the top split.
pub fn number_of(path: &[u32], depth: usize) -> NodeNumber
    requires { (0 < depth) × (split_length * depth ≤ length path.now) }
    ensures { result.0 ≡ (split_in path.now (depth - 1)).number }
{
    NodeNumber(path[SPLIT_LENGTH * (depth - 1)])
}

// The next of the top split.
pub fn next_of(path: &[u32], depth: usize) -> NodeNumber
    requires { (0 < depth) × (split_length * depth ≤ length path.now) }
    ensures { result.0 ≡ (split_in path.now (depth - 1)).next }
{
    NodeNumber(path[SPLIT_LENGTH * (depth - 1) + 1])
}

// The pair of split i, counted from 0 at the root.
pub fn pair_at(path: &[u32], i: usize) -> Pair
    requires { PathWithin path.now (i + 1) }
    ensures decision { decision_of result ≡ (split_in path.now i).decision }
    ensures lots { (result.a.0 ≤ most_lots) × (result.b.0 ≤ most_lots) }
{
    let at = SPLIT_LENGTH * i;
    Pair {
        same: path[at + 2] == SAME_BRANCH,
        a: Lot(path[at + 3] as u16),
        b: Lot(path[at + 4] as u16),
    }
}
