// An offer's or an execution's line as the fields of a message.
ghost use Rattle.std.specs.Prelude.{◌<◌, IfSome};

use crate::calls::contract;
use crate::words::{Words, number, parted};
use message::Fields;
use rules::HOURS;

// An hour of a line.
#[derive(Clone, Copy)]
struct Slot {
    hour: u32,
    energy: u32,
    price: u32,
}

// 3:120@4500 in an offer, 3:60 in an execution.
fn read_slot(word: &[u8], execution: bool) -> Option<Slot> {
    let (hour, rest) = parted(word, b':')?;
    let hour = number(hour)?;
    if execution {
        let energy = number(rest)?;
        return Some(Slot {
            hour,
            energy,
            price: 0,
        });
    }
    let (energy, price) = parted(rest, b'@')?;
    Some(Slot {
        hour,
        energy: number(energy)?,
        price: number(price)?,
    })
}

// Whether a word names the hour.
fn names(word: &[u8], hour: u32) -> bool {
    parted(word, b':').is_some_and(|(named, _)| number(named) == Some(hour))
}

// Where the fields have an hour of the day.
fn day_index(hour: u32) -> Option<usize>
    ensures { IfSome result (λ at. at < 25) }
{
    (hour as usize).checked_sub(1).filter(|at| *at < HOURS)
}

// Hour 1 is bit 24, hour 25 bit 0; bit 25 stands for every other hour.
fn hour_bit(hour: u32) -> u32 {
    match day_index(hour) {
        Some(at) => 1 << (HOURS - 1 - at),
        None => 1 << HOURS,
    }
}

fn put(fields: &mut Fields, slot: Slot) {
    fields.map |= hour_bit(slot.hour);
    if let Some(at) = day_index(slot.hour) {
        fields.energies[at] = slot.energy;
        fields.prices[at] = slot.price;
    }
}

// A line's hours, none twice. The map has those so far; of hours beyond the day, the words before say which.
fn put_hours(fields: &mut Fields, words: &mut Words) -> Option<()> {
    let hours = *words;
    for (before, word) in words.enumerate() {
        let slot = read_slot(word, fields.execution)?;
        let is_marked = fields.map & hour_bit(slot.hour) != 0;
        if is_marked && hours.take(before).any(|word| names(word, slot.hour)) {
            return None;
        }
        put(fields, slot);
    }
    Some(())
}

// offer 7 default 3:120@4500 4:95@4400; execution 8 contract 12 3:60 4:60. No hour twice.
pub(crate) fn fields(words: &mut Words, execution: bool) -> Option<Fields> {
    let unit = words.number()?;
    let default = words.take_if(b"default");
    let contract = contract(words, execution)?;
    let mut fields = Fields {
        execution,
        default,
        reserved: 0,
        unit,
        contract,
        map: 0,
        energies: [0; HOURS],
        prices: [0; HOURS],
    };
    put_hours(&mut fields, words)?;
    Some(fields)
}
