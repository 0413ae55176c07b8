// A lodging message read field by field, by a reader set over it.
ghost use Rattle.std.specs.Prelude.{◌≡◌, ◌^◌, ◌<◌, replicate};
ghost use Rattle.rules.specs.Message.{form1, bits_of, hour_bits, map_width, message_of, read as reading};
ghost use Rattle.message.specs.View.{fields_as, reading_as, reading_of};
ghost use Rattle.message_cursor.specs.Taking.{SlotsTaken};

use crate::Reader;
use message::form::{ENERGY_WIDTH, FORM_WIDTH, KIND_WIDTH, MARK_WIDTH, NUMBER_WIDTH, price_width};
use message::hours::Hours;
use message::judge::bad_fields;
use message::{Fields, NO_FIELDS, Reading};
use message_ranges::bad_map;
use message_reader::{bad_form, top_of};
use rules::HOURS;
use rules::row::Row;

// Fills in the energy and the price of each hour that the map names, "energy 17, and for an offer price 15", after the fields before the slots
// were taken. The others stay 0.
fn take_hours(reader: &mut Reader, m: &mut Fields)
    requires map { m.old.map < 2 ^ map_width }
    requires energies { m.old.energies ≡ replicate 25 0 }
    requires prices { m.old.prices ≡ replicate 25 0 }
    ensures taken { SlotsTaken (bits_of reader.old.message.now) form1.width m.old.execution (hour_bits m.old.map) reader.old.at m.new.energies m.new.prices reader.new.at }
    ensures others { m.new ≡ record m.old { energies = m.new.energies; prices = m.new.prices } }
{
    let execution = m.execution;
    let hours = Hours::of(m.map);
    let energies = &mut m.energies;
    let prices = &mut m.prices;
    for h in hours {
        energies[h] = reader.take(ENERGY_WIDTH);
        prices[h] = reader.take(price_width(execution));
    }
}

// What a message says, its fields taken one after the other from the first bit on.
fn fields_of(s: &[u8]) -> Fields
    ensures { result ≡ fields_as (message_of s.now) }
{
    let mut reader = Reader::over(s);
    let _form = reader.take(FORM_WIDTH);
    let kind = reader.take(KIND_WIDTH);
    let mark = reader.take(MARK_WIDTH);
    let unit = reader.take(NUMBER_WIDTH);
    let contract = reader.take(NUMBER_WIDTH);
    let map = reader.take(HOURS);
    let mut m = Fields {
        execution: kind == 1,
        default: mark == 1,
        unit,
        contract,
        map,
        ..NO_FIELDS
    };
    take_hours(&mut reader, &mut m);
    m
}

// A message's fields, or the refusal: 3, 4, 5 in the table's order.
fn read_fields(s: &[u8]) -> Result<Fields, Row>
    ensures { reading_of result ≡ reading_as (reading s.now) }
{
    if bad_form(s) {
        return Err(Row::Form);
    }
    let m = fields_of(s);
    if bad_map(m.map) {
        return Err(Row::Hour);
    }
    if bad_fields(&m, top_of(s)) {
        return Err(Row::Range);
    }
    Ok(m)
}

// The same as C has it: what `message_reader::read` answers.
pub fn read(s: &[u8]) -> Reading
    ensures { result ≡ reading_as (reading s.now) }
{
    Reading::from(read_fields(s))
}
