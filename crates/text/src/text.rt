// A text, put together from words and numbers. What has no room in it is left out, as `text_with` has it, so nothing here asks for room.
ghost use Rattle.std.specs.Prelude.{◌≡◌, [], ◌∷◌, ℕ, suc, ◌<◌, ◌^◌};
ghost use Rattle.text.specs.Parts.{Adds};
ghost use Rattle.text.specs.Text.{digits_of, numbered, text_with};

// The bytes past `length` are 0.
#[derive(Clone, Copy)]
pub struct Text {
    pub bytes: [u8; 256],
    pub length: usize,
}

impl Text {
    pub(crate) fn empty() -> Text
        ensures { result ≡ text_with [] }
    {
        Text {
            bytes: [0u8; 256],
            length: 0,
        }
    }

    pub(crate) fn byte(self, byte: u8) -> Text
        ensures { Adds self (byte ∷ []) result }
    {
        let mut text = self;
        let at = text.length;
        if at < 256 {
            text.bytes[at] = byte;
            text.length = at + 1;
        }
        text
    }

    pub(crate) fn word(self, word: &[u8]) -> Text
        ensures { Adds self word.now result }
    {
        let mut text = self;
        for &byte in word {
            text = text.byte(byte);
        }
        text
    }

    // The decimal digits of a number, 20 at most: those before the last, then the last.
    fn digits(self, number: u64) -> Text
        ensures { (more : ℕ) → number < 10 ^ suc more → Adds self (digits_of (suc more) number) result }
    {
        if number < 10 {
            self.byte(b'0' + number as u8)
        } else {
            self.digits(number / 10).byte(b'0' + (number % 10) as u8)
        }
    }

    // A blank and a number.
    pub(crate) fn number(self, number: u64) -> Text
        ensures { Adds self (numbered (number ∷ [])) result }
    {
        self.byte(b' ').digits(number)
    }
}
