// Prints a search: reads a sheet from standard input, and writes the search's text to standard output. What it writes is `text::print`'s.
#![tactic(auto)]

use std::io;
use std::io::{Read, Write};

fn main(rt: HostRuntime) -> io::Result<()> {
    let mut input = Vec::new(rt.alloc());
    rt.reader()
        .take(text::MOST_INPUT as u64)
        .read_to_end(&mut input)?;
    let mut out = [0u8; text::TEXT_ROOM];
    let len = text::print(&input, &mut out);
    io::writer(&rt).write_all(&out[..len])
}
