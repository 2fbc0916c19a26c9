// The printing program's work: from the bytes that it reads to the bytes that it writes.
#![tactic(auto)]

mod texts; // texts.rt: the whole texts

ghost use Rattle.std.specs.Prelude.{◌≤◌, length};
ghost use Rattle.text.specs.Program.{printed};
ghost use Rattle.buffers.specs.Written.{WroteFirst};
ghost use Rattle.text.specs.Code.{Lent, text_room};

use search::Found;
use texts::{cannot_text, met_text, refused_text};

// Room for every text of the program.
pub const TEXT_ROOM: usize = 170000;

// The most bytes that are taken of an input: one more than the longest sheet has, so that one too long is refused.
pub const MOST_INPUT: usize = 8711;

// A byte for each of the most lots that a sheet can have, lot 0 not counted.
const GROUPING_ROOM: usize = 128;

// 7,000 node records.
const STORE_ROOM: usize = 56000;

// The search of a sheet in lent buffers, whatever they hold, and its text.
fn print_search(sheet: &[u8], grouping: &mut [u8], store: &mut [u8], out: &mut [u8]) -> usize
    requires { Lent sheet.now grouping.old store.old × (text_room ≤ length out.old) }
    ensures { WroteFirst out.old out.new result (printed sheet.now) }
{
    match search::search(sheet, grouping, store) {
        Ok(Found::Met { count }) => met_text(out, sheet, count, grouping, store),
        Ok(Found::Cannot { count }) => cannot_text(out, sheet, count, store),
        Err(refusal) => refused_text(out, refusal.check(), refusal.place()),
    }
}

// The text of the search of an input's sheet, written at the front of `out`; its length.
pub fn print(input: &[u8], out: &mut [u8; TEXT_ROOM]) -> usize
    ensures { WroteFirst out.old out.new result (printed input.now) }
{
    let mut grouping = [0u8; GROUPING_ROOM];
    let mut store = [0u8; STORE_ROOM];
    let n = input.len().min(MOST_INPUT);
    print_search(&input[..n], &mut grouping, &mut store, out)
}
