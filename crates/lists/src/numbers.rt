// Decimal numbers read from a text. What stands between them does not count; a number that is too high is the highest.
ghost use Rattle.std.specs.Prelude.{◌≡◌, ◌<◌, ◌≤◌, ℕ, length, min, IfSome, IfNone};

use crate::parts::front;

// The numbers of what is left of a text.
#[derive(Drop)]
pub struct Numbers<'a> {
    pub text: &'a [u8],
}

impl<'a> Numbers<'a> {
    // The next number; none at the end of the text, of which nothing is left then.
    pub fn next_number(&mut self) -> Option<u32>
        ensures some { IfSome result (λ _. length self.new.text.now < length self.old.text.now) }
        ensures none { IfNone result (length self.new.text.now ≡ 0) }
    {
        let Some(start) = self.text.iter().position(|b| b.is_ascii_digit()) else {
            self.text = &[];
            return None;
        };
        let behind = &self.text[start + 1..];
        let mut number = u32::from(self.text[start] - b'0');
        for (i, b) in behind.iter().enumerate() {
            if !b.is_ascii_digit() {
                self.text = &behind[i..];
                return Some(number);
            }
            number = number
                .saturating_mul(10)
                .saturating_add(u32::from(b - b'0'));
        }
        self.text = &[];
        Some(number)
    }

    // The next number; 0 at the end of the text.
    pub(crate) fn next_or_zero(&mut self) -> u32
        ensures { length self.new.text.now ≤ length self.old.text.now }
    {
        self.next_number().unwrap_or(0)
    }

    // Reads the next `count` numbers, or as many as `out` holds, and gives them.
    pub fn read<'b, T: FromNumber + Drop>(&mut self, count: u32, out: &'b mut [T]) -> &'b [T]
        ensures { length self.new.text.now ≤ length self.old.text.now }
    {
        let out = front(out, count);
        for x in out.iter_mut() {
            *x = T::from_number(self.next_or_zero());
        }
        out
    }
}

// A number of a list: one that is too high is the highest.
pub trait FromNumber {
    ghost value: { Self → ℕ };

    ghost highest: { ℕ };

    fn from_number(n: u32) -> Self
        ensures { value result ≡ min n highest };
}

impl FromNumber for u32 {
    ghost value = { λ x. x };

    ghost highest = { 4294967295 };

    fn from_number(n: u32) -> u32 {
        n
    }
}

impl FromNumber for u16 {
    ghost value = { λ x. x };

    ghost highest = { 65535 };

    fn from_number(n: u32) -> u16 {
        u16::try_from(n).unwrap_or(u16::MAX)
    }
}

impl FromNumber for u8 {
    ghost value = { λ x. x };

    ghost highest = { 255 };

    fn from_number(n: u32) -> u8 {
        u8::try_from(n).unwrap_or(u8::MAX)
    }
}
