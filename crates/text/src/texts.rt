// The whole texts, written at the front of a buffer. Each function answers the text's length.
ghost use Rattle.std.specs.Prelude.{◌≤◌, length};
ghost use Rattle.sheet.specs.Format.{lot_count};
ghost use Rattle.lines.specs.Lines.{refused_line};
ghost use Rattle.buffers.specs.Written.{WroteFirst};
ghost use Rattle.text.specs.Code.{Printable, met_text, cannot_text, text_room};

use lines::Text;

// The text of a search that met the sheet, from what it left in the grouping and in the store.
pub fn met_text(out: &mut [u8], sheet: &[u8], count: u32, grouping: &[u8], store: &[u8]) -> usize
    requires { Printable sheet.now count store.now × (lot_count sheet.now ≤ length grouping.now)
        × (length (met_text sheet.now count grouping.now store.now) ≤ length out.old) }
    ensures { WroteFirst out.old out.new result
        (met_text sheet.now count grouping.now store.now) }
{
    let h = sheet::format::header_of(sheet);
    let mut text = Text::new(out);
    text.header_line(sheet);
    text.record_lines(store, count);
    text.met_line(&grouping[..usize::from(h.lots)]);
    text.len()
}

// The text of a search that could not be met, from what it left in the store.
pub fn cannot_text(out: &mut [u8], sheet: &[u8], count: u32, store: &[u8]) -> usize
    requires { Printable sheet.now count store.now
        × (length (cannot_text sheet.now count store.now) ≤ length out.old) }
    ensures { WroteFirst out.old out.new result
        (cannot_text sheet.now count store.now) }
{
    let mut text = Text::new(out);
    text.header_line(sheet);
    text.record_lines(store, count);
    text.line(b"cannot", &[count]);
    text.len()
}

// The text of a refusal, by a check or by a full store.
pub fn refused_text(out: &mut [u8], check: u32, place: u32) -> usize
    requires { text_room ≤ length out.old }
    ensures { WroteFirst out.old out.new result (refused_line check place) }
{
    let mut text = Text::new(out);
    text.refused_line(check, place);
    text.len()
}
