// What a message's fields are refused for: 5 of the table.
ghost use Rattle.std.specs.Prelude.{◌≡◌, ◌≤◌};
ghost use Rattle.rules.specs.Lists.{any, from};
ghost use Rattle.rules.specs.Message.{bad_hour, bad_fields, map_width, names};
ghost use Rattle.message.specs.View.{fields_in};

use super::Fields;
use message_ranges::{bad_key, bad_slot};
use rules::HOURS;

// Whether the map names hour h.
pub fn named(map: u32, h: usize) -> bool
    requires first { 1 ≤ h }
    requires last { h ≤ 25 }
    ensures { result ≡ names map h }
{
    (map >> (HOURS - h)) % 2 == 1
}

// In hour h the energy or the price is outside its range. The hour names a bit of the map and an index in two arrays of C's struct.
#[tactic(auto, unfolding(rules::specs::Message::bad_hour, message_ranges::specs::Slots::bad_slot, rules::specs::Lists::hourly))]
fn bad_hour(m: &Fields, h: usize, top: u32) -> bool
    requires first { 1 ≤ h }
    requires last { h ≤ 25 }
    ensures { result ≡ bad_hour top (fields_in m.now) h }
{
    let set = named(m.map, h);
    bad_slot(top, m.execution, set, m.energies[h - 1], m.prices[h - 1])
}

// An energy or a price of one of the 25 hours is outside its range.
fn bad_hours(m: &Fields, top: u32) -> bool
    ensures { result ≡ any (bad_hour top (fields_in m.now)) (from 1 map_width) }
{
    (1..HOURS + 1).any(|h| bad_hour(m, h, top))
}

// 5: a value outside its range, an energy being at most `top`.
#[tactic(auto, unfolding(rules::specs::Message::bad_fields, rules::specs::Message::bad_key))]
pub fn bad_fields(m: &Fields, top: u32) -> bool
    ensures { result ≡ bad_fields top (fields_in m.now) }
{
    bad_key(m.execution, m.unit, m.contract) || bad_hours(m, top)
}
