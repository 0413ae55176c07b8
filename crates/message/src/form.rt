// What the hour map fixes of a message: where its slots end, and its length.
ghost use Rattle.std.specs.Prelude.{◌≡◌, ◌+◌, ◌*◌, ◌≤◌};
ghost use Rattle.rules.specs.Message.{form1, price_width, slot_width, slots_end, set_bits, length_for};

use rules::{HOURS, MAPS};

// "form 4 bits", "kind 2", "default mark 1", "unit 16", "contract 16", "hour map 25": the head's fields and where each begins. Form is first.
pub const FORM_WIDTH: usize = 4;

pub const KIND_AT: usize = FORM_WIDTH;

pub const KIND_WIDTH: usize = 2;

pub const MARK_AT: usize = KIND_AT + KIND_WIDTH;

pub const MARK_WIDTH: usize = 1;

pub const UNIT_AT: usize = MARK_AT + MARK_WIDTH;

// A unit's number or a contract.
pub const NUMBER_WIDTH: usize = 16;

pub const CONTRACT_AT: usize = UNIT_AT + NUMBER_WIDTH;

pub const MAP_AT: usize = CONTRACT_AT + NUMBER_WIDTH;

// Where the slots begin.
pub const SLOTS_AT: usize = MAP_AT + HOURS;

// "energy 17, and for an offer price 15"
pub const ENERGY_WIDTH: usize = 17;

pub const PRICE_WIDTH: usize = 15;

// The bytes of the longest message, an offer that names 25 hours.
pub const LONGEST: usize = 108;

// The bits of a price: an execution has none.
#[tactic(auto, unfolding(rules::specs::Message::price_width))]
pub fn price_width(execution: bool) -> usize
    ensures value { result ≡ price_width execution }
    ensures most { result ≤ 15 }
{
    if execution { 0 } else { PRICE_WIDTH }
}

// The bits of a slot: "energy 17, and for an offer price 15".
#[tactic(auto, unfolding(rules::specs::Message::slot_width))]
pub fn slot_width(execution: bool) -> usize
    ensures value { result ≡ slot_width form1.width execution }
    ensures most { result ≤ 32 }
{
    ENERGY_WIDTH + price_width(execution)
}

// The bits of a message up to the end of its last slot. Kind and map are two numbers here: the reader asks before it has fields.
pub fn slots_end(execution: bool, map: u32) -> usize
    ensures value { result ≡ slots_end form1 execution (set_bits map) }
    ensures most { result ≤ 864 }
{
    let named = (map % MAPS).count_ones() as usize;
    SLOTS_AT + named * slot_width(execution)
}

// "The number of set bits n fixes the length: 8 + 4n bytes, or 8 + 17n/8 rounded up."
#[tactic(auto, unfolding(rules::specs::Message::length_for, rules::specs::Lists::round_up))]
pub fn length_for(execution: bool, map: u32) -> usize
    ensures { result ≡ length_for form1 execution (set_bits map) }
{
    slots_end(execution, map).div_ceil(8)
}
