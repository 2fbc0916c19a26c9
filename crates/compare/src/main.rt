// The search beside a second solver. Sheets from a generator, and sheets from standard input, are given to the search and, where their terms name at most six
// lots, to a solver that tries every way to part these and shares no code with it; sheets that name more are counted as not judged. Refusals are held to a
// second statement of checks 1 to 8 and 17, which shares no code with the reader. The checker must pass every refutation, the evaluator every grouping. Then
// refutations and their sheets are damaged, and the sheets' conditions withdrawn one by one. Standard input has a line for the start of a group, for its end,
// and for each sheet:
//
//     group NAME
//     met COUNT: HEX
//     cannot COUNT: HEX
//     refused CHECK PLACE: HEX
//     end
//
// The sheet's bytes are in hexadecimal, and the numbers are those that the search is to answer. Standard output has a line for each group, and a
// difference is counted wherever two answers differ. tests/make_compare.py writes the input, and the output too: by its own search, its own checker and its
// own second solver.
//
// The second solver and the second statement of the checks are the crate `second_solver`, the generator is `generator`. The services' answers in its
// terms, what is damaged and what is counted are the crate `trials`.
#![tactic(auto)]

mod examine; // examine.rt: one sheet, before all solvers and services
mod groups; // groups.rt: the groups of sheets
mod say; // say.rt: the lines of the output

use examine::Counts;
use std::io;
use std::io::{Read, Write};

// The most bytes of standard input that are read.
const MOST_TEXT: u64 = 49152;

fn main(rt: HostRuntime) -> io::Result<()> {
    let mut text = Vec::new(rt.alloc());
    rt.reader().take(MOST_TEXT).read_to_end(&mut text)?;
    run(&text, &mut io::writer(&rt))
}

// All groups of sheets, what was damaged, and the lists that are not of a search.
fn run(text: &[u8], out: &mut impl Write) -> io::Result<()> {
    let mut counts = Counts::default();
    groups::generated_groups(&mut counts, out)?;
    groups::lines(text, &mut counts, out)?;
    writeln!(out, "damaged lists: {}", counts.lists)?;
    writeln!(out, "damaged sheets: {}", counts.sheets)?;
    writeln!(out, "withdrawn conditions: {}", counts.withdrawn)?;
    say::ground_of_withdrawn(out)?;
    say::ground_of_zero(out)?;
    for (a, b) in [(0, 0), (0, 1), (1, 0)] {
        say::split(a, b, out)?;
    }
    say::splits(1024, out)?;
    say::splits(1025, out)
}
