// The lines of the printed text, appended to a text in a lent buffer.
#![tactic(auto)]

ghost use Rattle.std.specs.Prelude.{◌≡◌, ◌∷◌, ◌++◌, ◌*◌, ◌≤◌, length, map};
ghost use Rattle.sheet.specs.Format.{header_length};
ghost use Rattle.store.specs.Records.{split_record, record_length};
ghost use Rattle.store.specs.Code.{record_of};
ghost use Rattle.lines.specs.Lines.{decimal, line, header_line, record_line, record_lines, refused_line, met_line};
ghost use Rattle.lines.specs.Code.{first_records};
ghost use Rattle.lines.specs.Appending.{Begins, Appends, HasRoom, text_len};

use store::{NodeNumber, NodeRecord};

// A text at the front of a lent buffer, and its length. What is behind it stays as it was lent.
#[derive(Drop)]
pub struct Text<'a> {
    out: &'a mut [u8],
    len: usize,
}

impl<'a> Text<'a> {
    // No text yet.
    pub fn new(out: &'a mut [u8]) -> Text<'a>
        ensures { Begins out.entry result }
    {
        Text { out, len: 0 }
    }

    pub fn len(&self) -> usize
        ensures { result ≡ text_len self.now }
    {
        self.len
    }

    // The first line: the counts of the sheet's header.
    pub fn header_line(&mut self, sheet: &[u8])
        requires { (header_length ≤ length sheet.now) × HasRoom self.old (header_line sheet.now) }
        ensures { Appends self.old self.new (header_line sheet.now) }
    {
        let h = sheet::format::header_of(sheet);
        self.count(b"lots", h.lots);
        self.count(b" conditions", h.conditions);
        self.line(b" terms", &[u32::from(h.records)]);
    }

    // A word and numbers.
    pub fn line(&mut self, word: &[u8], numbers: &[u32])
        requires { HasRoom self.old (line word.now (map decimal numbers.now)) }
        ensures { Appends self.old self.new (line word.now (map decimal numbers.now)) }
    {
        self.word(word);
        for &x in numbers {
            self.field(x);
        }
        self.word(b"\n");
    }

    // A refusal, by its two numbers: the line is defined for any (`refused_line`), and promised for any.
    pub fn refused_line(&mut self, check: u32, place: u32)
        requires { HasRoom self.old (refused_line check place) }
        ensures { Appends self.old self.new (refused_line check place) }
    {
        self.line(b"refused", &[check, place]);
    }

    // The line of a node record; the met record and a clique have none.
    fn record_line(&mut self, node: NodeRecord)
        requires { HasRoom self.old (record_line (record_of node)) }
        ensures { Appends self.old self.new (record_line (record_of node)) }
    {
        match node {
            NodeRecord::Split(a, b, second) => {
                self.line(b"split", &[u32::from(a.0), u32::from(b.0), second.0])
            }
            NodeRecord::Ground(c) => self.line(b"ground", &[u32::from(c.0)]),
            NodeRecord::Met | NodeRecord::Clique | NodeRecord::Other => {}
        }
    }

    // The lines of the first records of a store.
    pub fn record_lines(&mut self, store: &[u8], count: u32)
        requires { (record_length * count ≤ length store.now)
            × HasRoom self.old (record_lines (first_records store.now count)) }
        ensures { Appends self.old self.new (record_lines (first_records store.now count)) }
    {
        for i in 1..=count {
            self.record_line(store::read(store, NodeNumber(i)));
        }
    }

    // Met, with a grouping's bytes. The loop is that of `line`, over bytes. One for both is no plainer: `Into<u32>` promises a relation, which
    // leaves its clause no numbers to name, and an iterator brings clauses of its own.
    pub fn met_line(&mut self, grouping: &[u8])
        requires { HasRoom self.old (met_line grouping.now) }
        ensures { Appends self.old self.new (met_line grouping.now) }
    {
        self.word(b"met");
        for &lot in grouping {
            self.field(u32::from(lot));
        }
        self.word(b"\n");
    }

    // A word, and how many of what it names there are.
    fn count(&mut self, word: &[u8], n: u16)
        requires { HasRoom self.old (word.now ++ 32 ∷ decimal n) }
        ensures { Appends self.old self.new (word.now ++ 32 ∷ decimal n) }
    {
        self.word(word);
        self.field(u32::from(n));
    }

    // A space and a number: a field that is not a line's first. `write!` could fail by its contract, and `text::print` cannot.
    fn field(&mut self, x: u32)
        requires { HasRoom self.old (32 ∷ decimal x) }
        ensures { Appends self.old self.new (32 ∷ decimal x) }
    {
        self.word(b" ");
        self.decimal(x);
    }

    // A number in decimal: the digits before its last, which are those of a tenth of it, and the last. The calls are as deep as the number has digits,
    // ten at most.
    fn decimal(&mut self, x: u32)
        requires { HasRoom self.old (decimal x) }
        ensures { Appends self.old self.new (decimal x) }
    {
        if x < 10 {
            self.word(&[(48 + x) as u8]);
        } else {
            self.decimal(x / 10);
            self.word(&[(48 + x % 10) as u8]);
        }
    }

    // Bytes as they are.
    fn word(&mut self, word: &[u8])
        requires { HasRoom self.old word.now }
        ensures { Appends self.old self.new word.now }
    {
        let end = self.len + word.len();
        self.out[self.len..end].copy_from_slice(word);
        self.len = end;
    }
}
