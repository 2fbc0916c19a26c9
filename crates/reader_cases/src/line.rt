// Words of a text, from its start on.
ghost use Rattle.std.specs.Prelude.{◌≡◌, ◌-◌, ◌<◌, ◌≤◌, length, IfSome};

// What is left of a text.
#[derive(Clone, Copy)]
pub struct Text<'a> {
    pub rest: &'a [u8],
}

impl<'a> Text<'a> {
    // The next byte.
    pub fn next(&mut self) -> Option<u8>
        ensures some { IfSome result (λ _. 0 < length self.old.rest.now) }
        ensures left { length self.new.rest.now ≡ length self.old.rest.now - 1 }
    {
        let (byte, rest) = self.rest.split_first()?;
        self.rest = rest;
        Some(*byte)
    }

    // The bytes before the first that ends them, or all that is left.
    pub fn until<F: FnMut(&u8) -> bool>(&mut self, ends: F) -> &'a [u8]
        requires { F.IsAlwaysCallable ends }
        ensures { length self.new.rest.now ≤ length self.old.rest.now }
    {
        let rest = self.rest;
        let end = rest.iter().position(ends).unwrap_or(rest.len());
        let (before, after) = rest.split_at(end);
        self.rest = after;
        before
    }

    // The decimal number after any blanks, 65,535 at most; 0 where there is none.
    pub fn number(&mut self) -> u16
        ensures { length self.new.rest.now ≤ length self.old.rest.now }
    {
        self.until(|byte| *byte != b' ');
        let mut value: u32 = 0;
        while let Some((byte, rest)) = self.rest.split_first() {
            if !byte.is_ascii_digit() || 6553 < value {
                break;
            }
            value = 10 * value + u32::from(*byte - b'0');
            self.rest = rest;
        }
        (value % 65536) as u16
    }
}
