// Two-byte numbers in lent bytes, and the fields that records of terms and of nodes begin with. The definitions and laws beside them are for all who write
// bytes: these are written, the others are untouched.
#![tactic(auto)]

ghost use Rattle.std.specs.Prelude.{◌≡◌, ◌+◌, ◌≤◌, length};
ghost use Rattle.std.proofs.lemmas.List.Edits.{sets};
ghost use Rattle.buffers.specs.Bytes.{number, two_bytes, field_bytes};

// The two-byte number at a place, low byte first.
pub fn number_at(s: &[u8], i: usize) -> u16
    requires { i + 2 ≤ length s.now }
    ensures { result ≡ number s.now i }
{
    (s[i] as u16) + 256 * (s[i + 1] as u16)
}

// Writes a two-byte number at a place, low byte first.
pub fn put_number(out: &mut [u8], at: usize, x: u16)
    requires { at + 2 ≤ length out.old }
    ensures { out.new ≡ sets out.old at (two_bytes x) }
{
    out[at] = (x % 256) as u8;
    out[at + 1] = (x / 256) as u8;
}

// Writes the first six bytes of a record at a place: its sign or kind, a spare byte 0, and two numbers.
pub fn put_fields(out: &mut [u8], at: usize, x: u8, first: u16, second: u16)
    requires { at + 6 ≤ length out.old }
    ensures { out.new ≡ sets out.old at (field_bytes x first second) }
{
    out[at] = x;
    out[at + 1] = 0;
    put_number(out, at + 2, first);
    put_number(out, at + 4, second);
}
