// The head of a message: its first eight bytes, as one number, hold every field before the slots.
ghost use Rattle.std.specs.Prelude.{◌≡◌, true, not, eqb, ◌+◌, ◌*◌, ◌-◌, ◌<◌, ◌≤◌, length, MatchOption};
ghost use Rattle.rules.specs.Message.{form1, bits_of, field, length_for, slots_end, set_bits, wrong_form};
ghost use Rattle.message.specs.View.{no_fields};
ghost use Rattle.message_reader.specs.Slots.{blank};

use message::Fields;
use message::form::{
    CONTRACT_AT, FORM_WIDTH, KIND_AT, KIND_WIDTH, MAP_AT, MARK_AT, MARK_WIDTH, NUMBER_WIDTH,
    SLOTS_AT, UNIT_AT, length_for, slots_end,
};
use message_bits::{part, slot_at};
use rules::HOURS;

#[derive(Clone, Copy)]
pub struct Head<'a> {
    pub bytes: &'a [u8],
    word: u64,
    pub ghost long: { 8 ≤ length bytes.now },
    ghost whole: { word ≡ field 0 64 (bits_of bytes.now) },
}

impl<'a> Head<'a> {
    // The head of a message: one under eight bytes has none.
    pub fn over(bytes: &'a [u8]) -> Option<Head<'a>>
        ensures { MatchOption result (length bytes.now < 8) (λ head. head.bytes ≡ bytes.entry) }
    {
        match bytes {
            [a, b, c, d, e, f, g, h, ..] => Some(Head {
                bytes,
                word: u64::from_be_bytes([*a, *b, *c, *d, *e, *f, *g, *h]),
            }),
            _ => None,
        }
    }

    // The number in `width` bits from bit `at` on. (The width's bound: `message_bits::part` says why it is asked.)
    fn field(self, at: usize, width: usize) -> u32
        requires width { width ≤ 32 }
        requires some { 1 ≤ at + width }
        requires within { at + width ≤ 64 }
        ensures { result ≡ field at width (bits_of self.entry.bytes.now) }
    {
        part(self.word, SLOTS_AT - (at + width), width)
    }

    // Whether a bit after the last slot is set, in an execution of the right length. An offer ends with a byte and has none.
    fn bad_filling(self, map: u32) -> bool
        requires { length self.bytes.now ≡ length_for form1 true (set_bits map) }
        ensures { let end = slots_end form1 true (set_bits map) in
            result ≡ not (eqb (field end (length self.entry.bytes.now * 8 - end) (bits_of self.entry.bytes.now)) 0) }
    {
        let end = slots_end(true, map);
        slot_at(self.bytes, end, self.bytes.len() * 8 - end) != 0
    }

    // 3: wrong length, form, kind or filling.
    pub fn bad_form(self) -> bool
        ensures { result ≡ wrong_form self.entry.bytes.now }
    {
        let kind = self.field(KIND_AT, KIND_WIDTH);
        let map = self.field(MAP_AT, HOURS);
        // All three are looked at: with `||` each would be a branch by itself, to run and to prove.
        let wrong = (self.bytes.len() != length_for(kind == 1, map))
            | (self.field(0, FORM_WIDTH) != 1)
            | (1 < kind);
        wrong || kind == 1 && self.bad_filling(map)
    }

    // Puts in the fields before the slots; the hours stay blank.
    #[tactic(auto, unfolding(rules::specs::Message::is_execution, rules::specs::Message::map_of))]
    pub fn put(self, m: &mut Fields)
        requires { m.old ≡ no_fields }
        ensures { m.new ≡ blank (bits_of self.entry.bytes.now) }
    {
        m.execution = self.field(KIND_AT, KIND_WIDTH) == 1;
        m.default = self.field(MARK_AT, MARK_WIDTH) == 1;
        m.unit = self.field(UNIT_AT, NUMBER_WIDTH);
        m.contract = self.field(CONTRACT_AT, NUMBER_WIDTH);
        m.map = self.field(MAP_AT, HOURS);
    }
}
