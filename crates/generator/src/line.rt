// Numbers in a line of text.

// A number and a digit more. What is no digit is passed over.
fn with_digit(value: u32, byte: u8) -> u32 {
    match byte {
        b'0'..=b'9' if value <= 1000000 => 10 * value + u32::from(byte - b'0'),
        _ => value,
    }
}

// The number that a word of the line has, the first word being 0; 0 where there is none.
pub fn number(text: &[u8], word: u8) -> u32 {
    match text.split(|byte| *byte == b' ').nth(word as usize) {
        Some(digits) => digits
            .iter()
            .fold(0, |value, byte| with_digit(value, *byte)),
        None => 0,
    }
}
