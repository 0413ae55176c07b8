// "A reader set over the message moves on through its bits": the message and the position of its next bit.
#![tactic(auto)]

pub mod fieldwise;

ghost use Rattle.std.specs.Prelude.{◌≡◌, ◌+◌, ◌-◌, ◌^◌, min, leb, length};
ghost use Rattle.rules.specs.Message.{bits_of, field};

use message_bits::{bits_at, has_at};

#[derive(Clone, Copy)]
pub struct Reader<'a> {
    pub message: &'a [u8],
    pub at: usize,
}

impl<'a> Reader<'a> {
    // A reader set over a message, at its first bit.
    pub fn over(message: &'a [u8]) -> Reader<'a>
        ensures over { result.message ≡ message.entry }
        ensures at_first { result.at ≡ 0 }
    {
        Reader { message, at: 0 }
    }

    // The next `width` bits as a number, at most 32 of them, and the reader moves past them. Bits beyond the message's end are none:
    // the number is that of the bits before it.
    pub fn take(&mut self, width: usize) -> u32
        ensures value { result ≡ field self.old.at (min width 32) (bits_of self.old.message.now) }
        ensures same { self.new.message ≡ self.old.message }
        ensures moved { self.new.at ≡ min (self.old.at + min width 32) (2 ^ 64 - 1) }
    {
        let taken = width.min(32);
        let value = bits_at(self.message, self.at, taken);
        self.at = self.at.saturating_add(taken);
        value
    }

    // Whether the message has the next `width` bits; of 0 bits, whether all that were taken were there.
    pub fn has(self, width: usize) -> bool
        ensures { result ≡ leb (self.entry.at + width) (length (bits_of self.entry.message.now)) }
    {
        has_at(self.message, self.at, width)
    }
}
