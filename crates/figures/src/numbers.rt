// The numbers of a line.
ghost use Rattle.std.specs.Prelude.{◌≡◌, ◌≤◌, ◌<◌, IfSome, None, Some, cond, eqb, length};
ghost use Rattle.std.specs.Iterator.{at_most};
ghost use Rattle.std.specs.Option.{unwrap_or};
ghost use Rattle.figures.specs.Numbers.{counts, is_digit, longer, reads};

// A number above this has no digit more: it jumps to the last of 32 bits. (A bound, and no number for a kind.)
const LAST_TO_GROW: u32 = 268_435_454;

// The numbers of a text to a base, 10 or 16, parted by anything that is no digit of it.
#[derive(Clone, Copy)]
pub(crate) struct Numbers<'a> {
    text: &'a [u8],
    base: u32,
    ghost to_sixteen: { base ≤ 16 },
}

impl<'a> Numbers<'a> {
    // Two constructors, so that no caller is asked for a base of at most 16.
    pub(crate) fn decimal(text: &'a [u8]) -> Numbers<'a>
        ensures base { result.base ≡ 10 }
        ensures text { result.text.now ≡ text.now }
    {
        Numbers { text, base: 10 }
    }

    pub(crate) fn hexadecimal(text: &'a [u8]) -> Numbers<'a>
        ensures base { result.base ≡ 16 }
        ensures text { result.text.now ≡ text.now }
    {
        Numbers { text, base: 16 }
    }

    // The next number; after the last come zeros.
    pub(crate) fn number(&mut self) -> u32
        ensures base { self.new.base ≡ self.old.base }
        ensures number { result ≡ unwrap_or (reads self.old.base None self.old.text.now).0 0 }
        ensures rest { self.new.text.now ≡ (reads self.old.base None self.old.text.now).1 }
    {
        self.next().unwrap_or(0)
    }

    // A mark: 1 is yes.
    pub(crate) fn mark(&mut self) -> bool
        ensures base { self.new.base ≡ self.old.base }
        ensures mark { result ≡ eqb (unwrap_or (reads self.old.base None self.old.text.now).0 0) 1 }
        ensures rest { self.new.text.now ≡ (reads self.old.base None self.old.text.now).1 }
    {
        self.number() == 1
    }
}

// Not `to_digit`: it takes small letters too, and the program does what it did.
fn digit(byte: u8, base: u32) -> Option<u32>
    ensures value { result ≡ cond (is_digit base byte) (Some (counts byte)) None }
    ensures small { IfSome result (λ d. d < 16) }
{
    match byte {
        b'0'..=b'9' => Some(u32::from(byte - b'0')),
        b'A'..=b'F' if base == 16 => Some(u32::from(byte - b'A') + 10),
        _ => None,
    }
}

// A number with a digit more. Not `saturating_mul`: to base 10 it would stop later, and the program does what it did.
fn longer(number: u32, base: u32, digit: u32) -> u32
    requires base { base ≤ 16 }
    requires digit { digit < 16 }
    ensures { result ≡ longer base number digit }
{
    if number > LAST_TO_GROW {
        u32::MAX
    } else {
        number * base + digit
    }
}

impl Iterator for Numbers<'_> {
    type Item = u32;

    ghost next_gives = { λ s r t. (t.base ≡ s.base) × (reads s.base None s.text.now ≡ (r, t.text.now)) };

    ghost remaining = { λ n. at_most (length n.text.now) };

    fn next(&mut self) -> Option<u32> {
        let mut number: Option<u32> = None;
        while let Some((byte, rest)) = self.text.split_first() {
            self.text = rest;
            if let Some(digit) = digit(*byte, self.base) {
                number = Some(longer(number.unwrap_or(0), self.base, digit));
            } else if number.is_some() {
                return number;
            }
        }
        number
    }
}
