// Bytes from their hexadecimal digits.
#![tactic(auto)]

ghost use Rattle.std.specs.Prelude.{◌<◌, ◌≤◌, length, IfSome};

// The value of a digit, or none.
fn digit(byte: u8) -> Option<u8>
    ensures { IfSome result (λ value. value < 16) }
{
    match byte {
        b'0'..=b'9' => Some(byte - b'0'),
        b'a'..=b'f' => Some(byte - b'a' + 10),
        _ => None,
    }
}

// The bytes of a text's digits, two digits a byte, put at the start of a place for them, as many as it has room for; how many there are. What is no
// digit is passed over.
pub fn decode(text: &[u8], bytes: &mut [u8]) -> usize
    ensures { result ≤ length bytes.new }
{
    let mut digits = text.iter().filter_map(|byte| digit(*byte));
    let room = bytes.len();
    for (n, place) in bytes.iter_mut().enumerate() {
        let (Some(high), Some(low)) = (digits.next(), digits.next()) else {
            return n;
        };
        *place = high << 4 | low;
    }
    room
}
