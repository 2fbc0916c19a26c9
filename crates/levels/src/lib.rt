// The classes under each split of a path, in lent bytes. A row of `maps` is a class map: a split in its same branch that joins two classes writes the next
// row, and any other leaves them as they are. `levels` has the row under so many splits, so that a turn or a drop goes back to it by its number alone.
#![tactic(auto)]

ghost use Rattle.std.specs.Prelude.{◌≡◌, false, cond, List, [], ◌∷◌, ℕ, ◌+◌, ◌-◌, ◌*◌, ◌≤◌, ◌<◌, eqb, length};
ghost use Rattle.sheet.specs.Format.{most_lots};
ghost use Rattle.equality.specs.Node.{merged, class_of, classes};
ghost use Rattle.refutation.specs.Refutation.{turned};
ghost use Rattle.path.specs.Paths.{split_length, split_in, first_lot_in, second_lot_in, path_of, split_of};
ghost use Rattle.levels.specs.Levels.{maps_length, row, level_under, Walkable};

use classes::ENTRIES;
use path::Split;
use sheet::Lot;

// The bytes of a path's maps: no path joins more often than there are lots.
pub const MAPS_LENGTH: usize = ENTRIES * ENTRIES;

// The first row: every lot alone.
pub fn start(maps: &mut [u8])
    requires { length maps.old ≡ maps_length }
    ensures { row maps.new 0 ≡ classes [] }
{
    classes::separate(&mut maps[..ENTRIES]);
}

// The next row becomes that of a level.
fn copy_row(maps: &mut [u8], level: usize)
    requires { (length maps.old ≡ maps_length) × (level < most_lots) }
    ensures next { row maps.new (level + 1) ≡ row maps.old level }
    ensures others { (k : ℕ) → k ≤ level → row maps.new k ≡ row maps.old k }
{
    let from = ENTRIES * level;
    let to = from + ENTRIES;
    // Tried with `copy_within`: a check then took up to an eighth more instructions (docs/PERFORMANCE.md).
    for i in 0..ENTRIES {
        maps[to + i] = maps[from + i];
    }
}

// The next row: that of a level, with the classes x and y joined.
fn join_row(maps: &mut [u8], level: usize, x: u8, y: u8)
    requires { (length maps.old ≡ maps_length) × (level < most_lots) }
    ensures next { row maps.new (level + 1) ≡ merged x y (row maps.old level) }
    ensures others { (k : ℕ) → k ≤ level → row maps.new k ≡ row maps.old k }
{
    copy_row(maps, level);
    let to = ENTRIES * (level + 1);
    classes::join_entries(&mut maps[to..to + ENTRIES], x, y);
}

// The level of the classes of a level with those of a and b joined: its own, where they are one already, or the next.
fn join(maps: &mut [u8], level: usize, a: Lot, b: Lot) -> usize
    requires { (length maps.old ≡ maps_length) × (level ≤ most_lots) × (a.0 ≤ most_lots) × (b.0 ≤ most_lots)
        × (eqb (class_of (row maps.old level) a.0) (class_of (row maps.old level) b.0) ≡ false → level < most_lots) }
    ensures most { result ≤ most_lots }
    ensures level { result ≡ cond (eqb (class_of (row maps.old level) a.0) (class_of (row maps.old level) b.0)) level (level + 1) }
    ensures next { row maps.new result
        ≡ merged (class_of (row maps.old level) a.0) (class_of (row maps.old level) b.0) (row maps.old level) }
    ensures others { (k : ℕ) → k ≤ level → row maps.new k ≡ row maps.old k }
{
    let from = ENTRIES * level;
    let x = maps[from + usize::from(a.0)];
    let y = maps[from + usize::from(b.0)];
    if x == y {
        return level;
    }
    join_row(maps, level, x, y);
    level + 1
}

// A split goes on top of the path, in its same branch.
pub fn push(
    path: &mut [u32],
    depth: usize,
    maps: &mut [u8],
    levels: &mut [u8],
    split: Split,
) -> usize
    requires { Walkable path.old maps.old levels.old depth × (split_length * depth + split_length ≤ length path.old) × (depth + 1 < length levels.old)
        × (split.a.0 ≤ most_lots) × (split.b.0 ≤ most_lots) }
    ensures path { path_of path.new result ≡ split_of split ∷ path_of path.old depth }
    ensures walkable { Walkable path.new maps.new levels.new result }
{
    let level = usize::from(levels[depth]);
    let next = join(maps, level, split.a, split.b);
    levels[depth + 1] = next as u8;
    path::push(path, depth, split)
}

// The top split goes to its apart branch: the level is again the one above it.
pub fn turn(path: &mut [u32], depth: usize, levels: &mut [u8])
    requires { (0 < depth) × (split_length * depth ≤ length path.old) × (depth < length levels.old) }
    ensures path { path_of path.new depth
        ≡ turned (split_in path.old (depth - 1)) (first_lot_in path.old (depth - 1)) (second_lot_in path.old (depth - 1))
        ∷ path_of path.old (depth - 1) }
    ensures walkable { (maps : List ℕ) → Walkable path.old maps levels.old depth
        → Walkable path.new maps levels.new depth }
{
    levels[depth] = levels[depth - 1];
    path::turn(path, depth);
}

// The class map under the path, in place.
pub fn top<'a>(maps: &'a [u8], levels: &[u8], depth: usize) -> &'a [u8]
    requires { (length maps.now ≡ maps_length) × (depth < length levels.now) × (level_under levels.now depth ≤ most_lots) }
    ensures { result.now ≡ row maps.now (level_under levels.now depth) }
{
    let from = ENTRIES * usize::from(levels[depth]);
    &maps[from..from + ENTRIES]
}
