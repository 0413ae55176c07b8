// Bytes and bits of a message as numbers.
#![tactic(auto)]

ghost use Rattle.std.specs.Prelude.{◌≡◌, ◌+◌, ◌*◌, ◌-◌, ◌/◌, ◌%◌, ◌^◌, ◌<◌, ◌≤◌, min, leb, length, get_or};
ghost use Rattle.rules.specs.Message.{bits_of, field};
ghost use Rattle.message_bits.specs.Bits.{word_at};

// The four bytes from index i on as one number, all of them there.
#[tactic(auto, unfolding(crate::specs::Bits::word_at))]
pub fn four_at(s: &[u8], i: usize) -> u32
    requires { i + 4 ≤ length s.now }
    ensures { result ≡ word_at s.now i }
{
    u32::from_be_bytes([s[i], s[i + 1], s[i + 2], s[i + 3]])
}

// The byte at index i, 0 past the end.
pub fn byte_at(s: &[u8], i: usize) -> u8
    ensures { result ≡ get_or s.now i 0 }
{
    s.get(i).copied().unwrap_or(0)
}

// The four bytes from index i on as one number, the first highest; 0 stands for a byte past the end.
#[tactic(auto, unfolding(crate::specs::Bits::word_at))]
pub fn word_at(s: &[u8], i: usize) -> u32
    ensures { result ≡ word_at s.now i }
{
    let rest = s.get(i..).unwrap_or(&[]);
    u32::from_be_bytes([
        byte_at(rest, 0),
        byte_at(rest, 1),
        byte_at(rest, 2),
        byte_at(rest, 3),
    ])
}

// The number in `width` bits of a word, with `below` bits after them. A width has no type that would say its bound once: what counts with it
// would have to open it.
pub fn part(word: u64, below: usize, width: usize) -> u32
    requires below { below < 64 }
    requires width { width ≤ 32 }
    ensures value { result ≡ word / 2 ^ below % 2 ^ width }
    ensures small { result < 2 ^ width }
{
    ((word >> below) & ((1u64 << width) - 1)) as u32
}

// The number in `width` bits from bit `at` on.
pub fn field_at(s: &[u8], at: usize, width: usize) -> u32
    requires width { width ≤ 32 }
    requires there { at + width ≤ 8 * length s.now }
    ensures value { result ≡ field at width (bits_of s.now) }
    ensures small { result < 2 ^ width }
{
    let below = 40 - at % 8 - width;
    let last = u64::from(byte_at(s, at / 8 + 4));
    let word = u64::from(word_at(s, at / 8)) * 256 + last;
    part(word, below, width)
}

// The same with no test of the length, for a field after the head that lies in the four bytes up to its end. A message has at most
// 864 bits.
pub fn slot_at(s: &[u8], at: usize, width: usize) -> u32
    requires after_head { 32 ≤ at }
    requires in_message { at ≤ 864 }
    requires in_four { (at + width + 7) / 8 * 8 ≤ at + 32 }
    requires there { at + width ≤ 8 * length s.now }
    ensures value { result ≡ field at width (bits_of s.now) }
    ensures small { result < 2 ^ width }
{
    let end = (at + width).div_ceil(8);
    let word = u64::from(four_at(s, end - 4));
    part(word, end * 8 - (at + width), width)
}

// Below, any position and any width: no sum may overflow. Bytes, position and width are the slice-and-number reader that document 01 names.

// Whether the message has the `width` bits from bit `at` on.
pub fn has_at(s: &[u8], at: usize, width: usize) -> bool
    ensures { result ≡ leb (at + width) (length (bits_of s.now)) }
{
    let end = at / 8 + width / 8 + (at % 8 + width % 8).div_ceil(8);
    end <= s.len()
}

// How many of the `width` bits from bit `at` on the message has: they stand in at most five bytes.
fn there_at(s: &[u8], at: usize, width: usize) -> usize
    requires { width ≤ 32 }
    ensures { result ≡ min width (8 * length s.now - at) }
{
    let bytes = s.len().saturating_sub(at / 8).min(5);
    (bytes * 8).saturating_sub(at % 8).min(width)
}

// The number in the `width` bits from bit `at` on, or in as many of them as the message has.
pub fn bits_at(s: &[u8], at: usize, width: usize) -> u32
    requires { width ≤ 32 }
    ensures { result ≡ field at width (bits_of s.now) }
{
    match there_at(s, at, width) {
        0 => 0,
        n => field_at(s, at, n),
    }
}
