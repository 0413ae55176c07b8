// Writing bits into the caller's buffer, and the numbers that a message's head and slots are (document 01, "The lodging message").
#![tactic(auto)]

ghost use Rattle.std.specs.Prelude.{◌≡◌, [], ◌++◌, ℕ, ◌+◌, ◌^◌, ◌≤◌, ◌<◌, length};
ghost use Rattle.rules.specs.Message.{form1, bits, head_bits, hour_bits};
ghost use Rattle.message.specs.View.{fields_in};
ghost use Rattle.message_pen.specs.Pens.{Appended, InRanges, Room, SlotFits, SlotWord, completed, first, stored};

use message::Fields;
use message::form::{KIND_WIDTH, MARK_WIDTH, NUMBER_WIDTH, PRICE_WIDTH};

// "form 4 bits": 1.
const FORM: u64 = 1;

// How many values a field has: what stands before it is multiplied by that, so that the field has its bits to itself.
const KIND_VALUES: u64 = 1 << KIND_WIDTH;

const MARK_VALUES: u64 = 1 << MARK_WIDTH;

const NUMBER_VALUES: u64 = 1 << NUMBER_WIDTH;

const PRICE_VALUES: u64 = 1 << PRICE_WIDTH;

// The bits of a byte, and its values.
const BYTE: usize = 8;

const BYTE_VALUES: u64 = 1 << BYTE;

// The bytes of a number that is put.
const WORD_BYTES: usize = 8;

// How far a message is written: `pos` bits, of which the last pos % 8 are no whole byte yet and wait in the low bits of `acc`.
#[derive(Clone, Copy, Debug, PartialEq, Eq)]
pub struct Pen {
    pub pos: usize,
    pub acc: u64,
}

// A message being written into the caller's buffer, and the pen that writes it. The pen is a value of its own, so that who keeps a copy of it can go on
// from there.
#[derive(Drop)]
pub struct Page<'a> {
    pub buffer: &'a mut [u8],
    pub pen: Pen,
}

impl<'a> Page<'a> {
    // At the first bit.
    pub fn new(buffer: &'a mut [u8]) -> Page<'a>
        ensures same_reference { result.buffer.ghost_name ≡ buffer.entry.ghost_name }
        ensures buffer { result.buffer.now ≡ buffer.old }
        ensures at_first { result.pen ≡ first }
    {
        Page {
            buffer,
            pen: Pen { pos: 0, acc: 0 },
        }
    }

    // The last n bytes of v, highest first, from byte `from` on.
    fn put_bytes(&mut self, from: usize, v: u64, n: usize)
        requires eight { n ≤ 8 }
        requires room { from + n ≤ length self.old.buffer.now }
        ensures same_reference { self.new.buffer.ghost_name ≡ self.old.buffer.ghost_name }
        ensures pen { self.new.pen ≡ self.old.pen }
        ensures buffer { self.new.buffer.now ≡ stored self.old.buffer.now from v n }
    {
        let bytes = v.to_be_bytes();
        self.buffer[from..from + n].copy_from_slice(&bytes[WORD_BYTES - n..]);
    }

    // v in w bits after those that are written. Whole bytes are stored, the rest waits. The room that is asked differs with each call, so that the
    // page's type cannot hold it.
    pub fn put_bits(&mut self, v: u64, w: usize)
        requires room { Room self.old w }
        requires width { w ≤ 40 }
        requires fits { v < 2 ^ w }
        ensures { Appended self.old (bits w v) self.new }
    {
        let all = (self.pen.acc << w) + v;
        let n = self.pen.pos % BYTE + w;
        self.put_bytes(self.pen.pos / BYTE, all >> (n % BYTE), n / BYTE);
        self.pen.pos += w;
        self.pen.acc = all % BYTE_VALUES;
    }

    // Zero bits fill the last byte.
    pub fn finish(self)
        requires { Room self 0 }
        ensures { self.exit.0.now ≡ completed self.entry [] }
    {
        let left = self.pen.pos % BYTE;
        if left != 0 {
            let byte = (self.pen.acc << (BYTE - left)) % BYTE_VALUES;
            self.buffer[self.pen.pos / BYTE] = byte as u8;
        }
    }
}

// Form, kind, default mark, unit and contract as one number of 39 bits. Ranges are asked of C's struct, which any caller may write: the writer
// has looked at them, an invariant in the type would ask them of C, and a wrapper with a ghost field would be opened at each field written.
pub fn head_word(m: &Fields) -> u64
    requires { InRanges (fields_in m.now) }
    ensures small { result < 2 ^ 39 }
    ensures bits { bits 39 result ++ hour_bits m.now.map ≡ head_bits form1 (fields_in m.now) }
{
    let kind = FORM * KIND_VALUES + u64::from(m.execution);
    let marked = kind * MARK_VALUES + u64::from(m.default);
    let unit = marked * NUMBER_VALUES + u64::from(m.unit);
    unit * NUMBER_VALUES + u64::from(m.contract)
}

// An energy and, for an offer, a price as one number.
pub fn slot_word(execution: bool, energy: u32, price: u32) -> u64
    ensures { (w : ℕ) → SlotFits w execution energy price → SlotWord w execution energy price result }
{
    if execution {
        u64::from(energy)
    } else {
        u64::from(energy) * PRICE_VALUES + u64::from(price)
    }
}
