// Bytes, two-byte numbers and records of a buffer. What lies outside it reads as 0 and is not written.
#![tactic(auto)]

ghost use Rattle.std.specs.Prelude.{◌≡◌, ◌≢◌, ℕ, ◌+◌, ◌-◌, ◌*◌, ◌<◌, ◌≤◌, ◌++◌, drop, length, min, set, slice_index, take, ◌%◌, ◌/◌};
ghost use Rattle.raw.specs.Records.{number, with_record};

pub fn byte_at(bytes: &[u8], at: usize) -> u8
    ensures { result ≡ slice_index bytes.now at }
{
    if at < bytes.len() { bytes[at] } else { 0 }
}

pub fn number_at(bytes: &[u8], at: usize) -> u16
    ensures { result ≡ slice_index bytes.now at + 256 * slice_index bytes.now (at + 1) }
{
    if at < bytes.len() {
        u16::from_le_bytes([byte_at(bytes, at), byte_at(bytes, at + 1)])
    } else {
        0
    }
}

pub fn put(bytes: &mut [u8], at: usize, value: u8)
    ensures { bytes.new ≡ set bytes.old at value }
{
    if at < bytes.len() {
        bytes[at] = value;
    }
}

pub fn put_number(bytes: &mut [u8], at: usize, value: u16)
    ensures { bytes.new ≡ set (set bytes.old at (value % 256)) (at + 1) (value / 256) }
{
    if at < bytes.len() {
        let [low, high] = value.to_le_bytes();
        put(bytes, at, low);
        put(bytes, at + 1, high);
    }
}

// The first place from `from` on, below `end`, that holds the byte, or `end` where none does: its clauses and edits hold that form.
pub fn find(bytes: &[u8], from: usize, end: usize, byte: u8) -> usize
    ensures low { from ≤ end → from ≤ result }
    ensures high { result ≤ end }
    ensures found { result < end → slice_index bytes.now result ≡ byte }
    ensures before { (k : ℕ) → from ≤ k → k < result → slice_index bytes.now k ≢ byte }
{
    for i in from..end {
        if byte_at(bytes, i) == byte {
            return i;
        }
    }
    end
}

// The bytes of a buffer put at the start of another one, as many as it has room for; how many they are.
pub fn copy(from: &[u8], to: &mut [u8]) -> usize
    ensures count { result ≡ min (length from.now) (length to.old) }
    ensures copied { to.new ≡ take result from.now ++ drop result to.old }
{
    let n = from.len().min(to.len());
    to[..n].copy_from_slice(&from[..n]);
    n
}

// Where the head stands of the condition that has c before it.
pub fn head_field(c: u16) -> usize
    ensures { result ≡ 6 + 2 * c }
{
    6 + 2 * (c as usize)
}

// Where a field of a record stands, where the records begin at `start`; record 0 is taken as the first.
fn field(start: usize, r: u16, offset: u8) -> usize
    requires { start ≤ 1000000 }
    ensures { result ≡ start + 8 * (r - 1) + offset }
{
    let before = r.saturating_sub(1);
    start + 8 * (before as usize) + (offset as usize)
}

// In a sheet of m conditions, and in a list of nodes.
pub fn term_field(m: u16, r: u16, offset: u8) -> usize
    ensures { result ≡ 6 + 2 * m + 8 * (r - 1) + offset }
{
    field(6 + 2 * (m as usize), r, offset)
}

pub fn node_field(r: u16, offset: u8) -> usize
    ensures { result ≡ 8 * (r - 1) + offset }
{
    field(0, r, offset)
}

// The eight bytes of a record: of a term, whose kind is its sign, or of a node.
#[derive(Clone, Copy, Debug, Default, PartialEq, Eq)]
pub struct Record {
    pub kind: u8,
    pub spare: u8,
    pub first: u16,
    pub second: u16,
    pub next: u16,
}

// Its bytes are looked at without asking for each whether it is there, where the whole record is: records are what is read most.
#[inline]
pub fn record_at(bytes: &[u8], at: usize) -> Record
    ensures kind { result.kind ≡ slice_index bytes.now at }
    ensures spare { result.spare ≡ slice_index bytes.now (at + 1) }
    ensures first { result.first ≡ number bytes.now (at + 2) }
    ensures second { result.second ≡ number bytes.now (at + 4) }
    ensures next { result.next ≡ number bytes.now (at + 6) }
{
    if at < bytes.len() && 8 <= bytes.len() - at {
        Record {
            kind: bytes[at],
            spare: bytes[at + 1],
            first: u16::from_le_bytes([bytes[at + 2], bytes[at + 3]]),
            second: u16::from_le_bytes([bytes[at + 4], bytes[at + 5]]),
            next: u16::from_le_bytes([bytes[at + 6], bytes[at + 7]]),
        }
    } else if at < bytes.len() {
        Record {
            kind: byte_at(bytes, at),
            spare: byte_at(bytes, at + 1),
            first: number_at(bytes, at + 2),
            second: number_at(bytes, at + 4),
            next: number_at(bytes, at + 6),
        }
    } else {
        Record::default()
    }
}

pub fn put_record(bytes: &mut [u8], at: usize, node: Record)
    ensures { bytes.new ≡ with_record bytes.old at node }
{
    if at < bytes.len() {
        put(bytes, at, node.kind);
        put(bytes, at + 1, node.spare);
        put_number(bytes, at + 2, node.first);
        put_number(bytes, at + 4, node.second);
        put_number(bytes, at + 6, node.next);
    }
}
