// What the reader answers to sheets that are right, or wrong in one place or several. Standard input has a case a line:
//
//     LABEL: N M K [CHANGE]..
//
// A plain sheet of N lots and M conditions, whose first chain has K records, each "same 1 1", and the changes made to it in turn, each a
// letter and two numbers: h C R sets the head of condition C to R; of record R, s R V sets the sign, p R V the spare byte, a R V and b R V the
// lots, x R V the next; v R 0 makes record R vacant; l LENGTH 0 cuts the sheet, or lengthens it. Standard output has the label and the answer.
#![tactic(auto)]

mod line; // line.rt: words and numbers of the text
mod plain; // plain.rt: the sheet in the making

ghost use Rattle.std.specs.Prelude.{◌<◌, length};

use line::Text;
use plain::Sheet;
use sheet::{Header, Refusal};
use std::io;
use std::io::{Read, Write};

// The most bytes of standard input that are read.
const MOST_TEXT: u64 = 8192;

fn main(rt: HostRuntime) -> io::Result<()> {
    let mut text = Vec::new(rt.alloc());
    rt.reader().take(MOST_TEXT).read_to_end(&mut text)?;
    cases(&text, &mut io::writer(&rt))
}

fn cases(bytes: &[u8], out: &mut impl Write) -> io::Result<()> {
    let mut text = Text { rest: bytes };
    let mut room = [0; plain::ROOM];
    while !text.rest.is_empty() {
        case(&mut text, &mut room, out)?;
    }
    Ok(())
}

// A case: its label, and what the reader answers to its sheet, which is made in the room, where there is room for that.
fn case(text: &mut Text, room: &mut [u8; plain::ROOM], out: &mut impl Write) -> io::Result<()>
    requires { 0 < length text.old.rest.now }
    ensures { length text.new.rest.now < length text.old.rest.now }
{
    let label = text.until(|byte| *byte == b':');
    let line = text.until(|byte| *byte == b'\n');
    text.next();
    out.write_all(label)?;
    match sheet_of(Text { rest: line }, room).bytes() {
        Some(bytes) => say(reader::read(bytes), out),
        None => Ok(()),
    }
}

// The sheet that a line describes from its colon on.
fn sheet_of<'a>(mut line: Text, room: &'a mut [u8; plain::ROOM]) -> Sheet<'a> {
    if line.next().is_none() {
        return Sheet::empty(room);
    }
    let n = line.number();
    let m = line.number();
    let k = line.number();
    let mut sheet = Sheet::plain(room, n, m, k);
    line.until(|byte| *byte != b' ');
    while let Some(letter) = line.next() {
        let place = line.number();
        let value = line.number();
        sheet.change(letter, place, value);
        line.until(|byte| *byte != b' ');
    }
    sheet
}

fn say(reading: Result<Header, Refusal>, out: &mut impl Write) -> io::Result<()> {
    match reading {
        Ok(
            Header {
                lots,
                conditions,
                records,
            },
        ) => writeln!(out, ": accepted {lots} {conditions} {records}"),
        Err(refusal) => writeln!(out, ": {refusal}"),
    }
}
