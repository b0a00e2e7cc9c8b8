ghost use Rattle.std.specs.Prelude.{◌≡◌, ◌+◌, ◌<◌, ◌≤◌, ◌^◌, [], ◌∷◌, ◌++◌, length};
ghost use Rattle.std.specs.Fmt.{decimal};
ghost use Rattle.vm_report.specs.Hex.{hex_digit, hex_digits};

use std::marker::Model;

/// The most bytes of a text: a vCPU with all its registers, the longest that is written at once, has fewer.
pub(crate) const ROOM: usize = 1536;

/// A text that is made in place, without an allocator, and then written at once.
#[derive(Drop)]
pub(crate) struct Text {
    bytes: [u8; ROOM],
    len: usize,
}

impl Model for Text {
    ghost use Rattle.std.specs.Prelude.{◌≤◌, List, ℕ, take};
    ghost use Rattle.vm_report.specs.declared.text.TheConstants.{ROOM};

    ghost Value = { List ℕ };

    ghost view = { λ t. take t.len t.bytes };

    ghost invariant = { λ t. t.len ≤ ROOM };
}

impl Text {
    /// An empty text.
    pub(crate) fn new() -> Text
        ensures { result ≡ [] }
    {
        Text {
            bytes: [0; ROOM],
            len: 0,
        }
    }

    pub(crate) fn bytes(&self) -> &[u8]
        ensures { result.now ≡ self.now }
    {
        &self.bytes[..self.len]
    }

    /// Puts words at its end.
    pub(crate) fn put(&mut self, words: &str)
        requires { length self.old + length words.now ≤ ROOM }
        ensures text { self.new ≡ self.old ++ words.now }
        ensures length { length self.new ≡ length self.old + length words.now }
    {
        let bytes = words.as_bytes();
        for byte in bytes {
            self.push(*byte);
        }
    }

    /// Puts a number in decimal digits at its end: at most 20 of them.
    #[tactic(auto, using(crate::proofs::Digits::decimal_short))]
    pub(crate) fn put_decimal(&mut self, number: u64)
        requires { length self.old + 20 ≤ ROOM }
        ensures text { self.new ≡ self.old ++ decimal number }
        ensures length { length self.new ≤ length self.old + 20 }
    {
        self.put_digits(number);
    }

    /// Puts the last hexadecimal digits of a number at its end, so many of them.
    pub(crate) fn put_hex(&mut self, count: u32, number: u64)
        requires { length self.old + count ≤ ROOM }
        ensures text { self.new ≡ self.old ++ hex_digits count number }
        ensures length { length self.new ≡ length self.old + count }
    {
        if count > 0 {
            self.put_hex(count - 1, number / 16);
            self.push(hex_digit((number % 16) as u8));
        }
    }

    // Puts a number in decimal digits, the highest first.
    fn put_digits(&mut self, number: u64)
        requires { length self.old + length (decimal number) ≤ ROOM }
        ensures { self.new ≡ self.old ++ decimal number }
    {
        if number < 10 {
            return self.push(b'0' + number as u8);
        }
        self.put_digits(number / 10);
        self.push(b'0' + (number % 10) as u8);
    }

    fn push(&mut self, byte: u8)
        requires { length self.old < ROOM }
        ensures text { self.new ≡ self.old ++ byte ∷ [] }
        ensures length { length self.new ≡ length self.old + 1 }
    {
        self.bytes[self.len] = byte;
        self.len += 1;
    }
}

// The lower-case digit of a number below 16.
fn hex_digit(digit: u8) -> u8
    requires { digit < 16 }
    ensures { result ≡ hex_digit digit }
{
    if digit < 10 {
        b'0' + digit
    } else {
        b'a' + (digit - 10)
    }
}
