// The groups of sheets: the generated ones, and those of standard input.
use crate::examine::Counts;
use generator::{generate, line};
use second_solver::{Answer, Refusal};
use std::io;
use std::io::Write;

// How many sheets are generated for a group, and the generator's first state.
const GENERATED: u32 = 600;

const FIRST_STATE: u64 = 1;

// The groups of generated sheets, as they are made and relinked.
pub fn generated_groups(counts: &mut Counts, out: &mut impl Write) -> io::Result<()> {
    out.write_all(b"generated")?;
    generated(counts, generate::sheet_from);
    end_group(counts, out)?;
    out.write_all(b"relinked")?;
    generated(counts, relinked);
    end_group(counts, out)
}

// A generated sheet, relinked; the state after it.
fn relinked(sheet: &mut [u8], state: u64) -> u64 {
    let made = generate::sheet_from(sheet, state);
    generate::relinked(sheet, made)
}

// Sheets that are made one after the other, each from the state that the one before left.
fn generated<F: Fn(&mut [u8], u64) -> u64>(counts: &mut Counts, make: F)
    requires { F.IsAlwaysCallable make }
{
    let mut bytes = [0; 1024];
    let mut state = FIRST_STATE;
    for _ in 0..GENERATED {
        state = make(&mut bytes, state);
        if let Some(sheet) = bytes.get(..generate::length_of(&bytes)) {
            counts.examine(sheet, None);
        }
    }
}

// All lines of the text.
pub fn lines(text: &[u8], counts: &mut Counts, out: &mut impl Write) -> io::Result<()> {
    for line in text.split_inclusive(|byte| *byte == b'\n') {
        one_line(line.strip_suffix(b"\n").unwrap_or(line), counts, out)?;
    }
    Ok(())
}

fn one_line(text: &[u8], counts: &mut Counts, out: &mut impl Write) -> io::Result<()> {
    match text.first() {
        Some(b'g') => begin_group(text, out),
        Some(b'e') => end_group(counts, out),
        _ => {
            case(text, counts);
            Ok(())
        }
    }
}

// The name of a group, after the word that begins its line.
fn begin_group(text: &[u8], out: &mut impl Write) -> io::Result<()> {
    match text.get(6..) {
        Some(name) => out.write_all(name),
        None => Ok(()),
    }
}

// The sheet of a line, in hexadecimal, and the answer that the line wants.
fn case(text: &[u8], counts: &mut Counts) {
    let colon = raw::find(text, 0, text.len(), b':');
    let mut sheet = [0; 2048];
    let n = hexadecimal::decode(&text[colon..], &mut sheet);
    counts.examine(&sheet[..n], Some(wanted(&text[..colon])));
}

// A line with a number too many is a difference, as it always was: it wants check 0, which no search gives.
fn wanted(text: &[u8]) -> Result<Answer, Refusal> {
    let first = line::number(text, 1);
    let second = line::number(text, 2);
    match text.first() {
        Some(b'm') if second == 0 => Ok(Answer::Met { count: first }),
        Some(b'c') if second == 0 => Ok(Answer::Cannot { count: first }),
        Some(b'm' | b'c') => Err(Refusal { check: 0, place: 0 }),
        _ => Err(Refusal {
            check: first,
            place: second,
        }),
    }
}

// The line of a group, after its name.
fn end_group(counts: &mut Counts, out: &mut impl Write) -> io::Result<()> {
    writeln!(out, ": {}", counts.tally)?;
    counts.begin_group();
    Ok(())
}
