// What the printing program prints for sheets of document 01 and some others, through the same library function. Standard input has a case a line:
//
//     LABEL: HEX..
//
// The sheet's bytes are in hexadecimal; blanks may stand anywhere among the digits. Standard output has the label on a line of its own and then the
// printed text. There is room for 16,384 bytes of cases and 2,048 of a sheet, which is plenty for these. tests/make_examples.py writes the input.
#![tactic(auto)]

use std::io;
use std::io::{Read, Write};

// The most bytes of cases that are read.
const MOST_CASES: u64 = 16384;

fn main(rt: HostRuntime) -> io::Result<()> {
    let mut cases = Vec::new(rt.alloc());
    rt.reader().take(MOST_CASES).read_to_end(&mut cases)?;
    print_all(&cases, &mut io::writer(&rt))
}

fn print_all(cases: &[u8], out: &mut impl Write) -> io::Result<()> {
    for line in cases.split_inclusive(|byte| *byte == b'\n') {
        print_case(line.strip_suffix(b"\n").unwrap_or(line), out)?;
    }
    Ok(())
}

// A line: its label, and the text of its sheet.
fn print_case(line: &[u8], out: &mut impl Write) -> io::Result<()> {
    let label = raw::find(line, 0, line.len(), b':');
    out.write_all(&line[..label])?;
    out.write_all(b"\n")?;
    print_sheet(&line[label..], out)
}

// The text of the sheet that a line has in hexadecimal. A function of its own, so that the room for the text is zeroed once a line: declared behind the `?`s of
// `print_case`, it is zeroed when that begins, too.
fn print_sheet(digits: &[u8], out: &mut impl Write) -> io::Result<()> {
    let mut sheet = [0; 2048];
    let mut printed = [0; text::TEXT_ROOM];
    let n = hexadecimal::decode(digits, &mut sheet);
    let len = text::print(&sheet[..n], &mut printed);
    out.write_all(&printed[..len])
}
