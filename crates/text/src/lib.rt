// Bytes, words and numbers as text, put on a page: a lent buffer, and the place in it that is next.
#![tactic(auto)]

ghost use Rattle.std.specs.Prelude.{◌≡◌, [], ◌∷◌, ◌++◌, ◌+◌, ◌≤◌, ◌<◌, length};
ghost use Rattle.text.specs.Page.{Puts};
ghost use Rattle.text.specs.Decimal.{decimal};
ghost use Rattle.text.specs.Words.{retiming_text};

// Where the buffer ends nothing is put and the place goes on, so that the same functions measure a text, into no room
// at all, and write it.
#[derive(Drop)]
pub struct Page<'a> {
    pub out: &'a mut [u8],
    pub at: usize,
}

impl<'a> Page<'a> {
    // The page of a buffer, from its front on.
    pub fn new(out: &'a mut [u8]) -> Page<'a>
        ensures front { result.at ≡ 0 }
        ensures buffer { result.out.now ≡ out.old }
        ensures same { result.out.ghost_name ≡ out.entry.ghost_name }
    {
        Page { out, at: 0 }
    }

    // One byte.
    pub fn byte(&mut self, byte: u8)
        requires { self.old.at ≤ 2000000 }
        ensures { Puts self.old self.new (byte ∷ []) }
    {
        let at = self.at;
        self.at = at + 1;
        if at < self.out.len() {
            self.out[at] = byte;
        }
    }

    // A word.
    pub fn word(&mut self, word: &[u8])
        requires { self.old.at + length word.now ≤ 2000000 }
        ensures { Puts self.old self.new word.now }
    {
        for byte in word {
            self.byte(*byte);
        }
    }

    // A number below 1000 in decimal.
    pub fn number(&mut self, number: u32)
        requires { (self.old.at ≤ 1900000) × (number < 1000) }
        ensures { (self.new.at ≤ self.old.at + 3) × Puts self.old self.new (decimal number) }
    {
        if number < 10 {
            self.byte(digit(number));
            return;
        }
        let few = number < 100;
        if few {
            self.byte(digit(number / 10));
            self.byte(digit(number % 10));
            return;
        }
        self.byte(digit(number / 100));
        self.byte(digit(number / 10 % 10));
        self.byte(digit(number % 10));
    }

    // A word with a number after it.
    pub fn field(&mut self, word: &[u8], number: u32)
        requires { (self.old.at + length word.now ≤ 1900000) × (number < 1000) }
        ensures { (self.new.at ≤ self.old.at + length word.now + 3) × Puts self.old self.new (word.now ++ decimal number) }
    {
        self.word(word);
        self.number(number);
    }

    // "+r", nothing where r is 0.
    pub fn retiming(&mut self, retiming: u8)
        requires { self.old.at ≤ 1800000 }
        ensures { (self.new.at ≤ self.old.at + 4) × Puts self.old self.new (retiming_text retiming) }
    {
        let none = retiming == 0;
        if none {
            return;
        }
        self.byte(b'+');
        self.number(retiming as u32);
    }
}

// The digit of a number below 10.
fn digit(number: u32) -> u8
    requires { number < 10 }
    ensures { result ≡ 48 + number }
{
    (48 + number) as u8
}
