// Reading a lodging message.
#![tactic(auto)]

mod head;

ghost use Rattle.std.specs.Prelude.{◌≡◌, true, false, MatchOption, OnOk};
ghost use Rattle.rules.specs.Message.{form1, form_of, message_of, wrong_form, wrong_range, read as reading};
ghost use Rattle.message.specs.View.{fields_in, no_fields, outcome_of, reading_as};
ghost use Rattle.message_reader.specs.Slots.{ToFill, bad_hours, filled};

use head::Head;
use message::form::{SLOTS_AT, price_width, slot_width};
use message::hours::Hours;
use message::{Fields, NO_FIELDS, Reading};
use message_bits::slot_at;
use message_ranges::{bad_key, bad_map, bad_slot};
use rules::MAX_ENERGY;
use rules::row::Row;

// The head of a message of the right form.
fn right_head(s: &[u8]) -> Option<Head<'_>>
    ensures { MatchOption result (wrong_form s.now ≡ true) (λ head. (wrong_form s.now ≡ false) × (head.bytes ≡ s.entry)) }
{
    let head = Head::over(s)?;
    if head.bad_form() { None } else { Some(head) }
}

// 3: wrong length, form, kind or filling.
pub fn bad_form(s: &[u8]) -> bool
    ensures { result ≡ wrong_form s.now }
{
    right_head(s).is_none()
}

// Fills in the energy and the price of each hour that the map names, and says whether one is outside its range. The kind is a const: so the
// loop is compiled for each, with widths that are fixed.
fn fill<const EXECUTION: bool>(s: &[u8], m: &mut Fields) -> bool
    requires kind { EXECUTION ≡ m.old.execution }
    requires to_fill { ToFill form1 s.now m.old }
    ensures judged { result ≡ bad_hours form1 s.now m.old }
    ensures filled { m.new ≡ filled form1 s.now m.old }
{
    let hours = Hours::of(m.map);
    let energies = &mut m.energies;
    let prices = &mut m.prices;
    let price = price_width(EXECUTION);
    let width = slot_width(EXECUTION);
    let mask = (1u32 << price) - 1;
    // The bit of the next slot: the reader goes by slice and number, as document 01 names the form.
    let mut at = SLOTS_AT;
    let mut bad = false;
    for h in hours {
        let slot = slot_at(s, at, width);
        let e = slot >> price;
        let p = slot & mask;
        energies[h] = e;
        prices[h] = p;
        bad |= bad_slot(MAX_ENERGY, EXECUTION, true, e, p);
        at += width;
    }
    bad
}

// What `fill` does, by the message's kind.
fn fill_by_kind(s: &[u8], m: &mut Fields) -> bool
    requires { ToFill form1 s.now m.old }
    ensures judged { result ≡ bad_hours form1 s.now m.old }
    ensures filled { m.new ≡ filled form1 s.now m.old }
{
    if m.execution {
        fill::<true>(s, m)
    } else {
        fill::<false>(s, m)
    }
}

// A message of the right form: its fields, and whether a value is outside its range (row 5), which is found while they are read.
#[derive(Clone, Copy)]
pub struct InForm {
    pub fields: Fields,
    pub out_of_range: bool,
}

// What a message of the right form says.
fn said(head: Head) -> InForm
    requires { wrong_form head.bytes.now ≡ false }
    ensures fields { fields_in result.fields ≡ message_of head.entry.bytes.now }
    ensures judged { result.out_of_range ≡ wrong_range head.entry.bytes.now }
{
    let mut m = NO_FIELDS;
    head.put(&mut m);
    let key_out = bad_key(m.execution, m.unit, m.contract);
    let hours_out = fill_by_kind(head.bytes, &mut m);
    InForm {
        fields: m,
        out_of_range: key_out | hours_out,
    }
}

// What a message says, or nothing where its form is wrong.
pub fn in_form(s: &[u8]) -> Option<InForm>
    ensures { MatchOption result (wrong_form s.now ≡ true)
        (λ m. (wrong_form s.now ≡ false) × (fields_in m.fields ≡ message_of s.now) × (m.out_of_range ≡ wrong_range s.now)) }
{
    Some(said(right_head(s)?))
}

// Its fields alone.
pub fn formed(s: &[u8]) -> Option<Fields>
    ensures { MatchOption result (wrong_form s.now ≡ true) (λ m. (wrong_form s.now ≡ false) × (fields_in m ≡ message_of s.now)) }
{
    Some(in_form(s)?.fields)
}

// What a message says, after its form was found right. It stands since a public function stays: `formed` is the form to use.
pub fn fields_of(s: &[u8]) -> Fields
    requires { wrong_form s.now ≡ false }
    ensures { fields_in result ≡ message_of s.now }
{
    said(right_head(s).unwrap()).fields
}

// The largest energy that a message's form may say.
#[tactic(auto, unfolding(rules::specs::Message::form_of))]
pub fn top_of(s: &[u8]) -> u32
    ensures { result ≡ (form_of s.now).top }
{
    MAX_ENERGY
}

// Reads a message into fields that are all 0, or finds the refusal: 3, 4, 5 in the table's order. A `Result` that brought the fields
// itself would be copied whole: two hours then take twice as long to read.
fn read_into(s: &[u8], m: &mut Fields) -> Result<(), Row>
    requires { m.old ≡ no_fields }
    ensures outcome { reading s.now ≡ outcome_of (λ _. fields_in m.new) result }
    ensures reserved { OnOk result (m.new.reserved ≡ 0) }
{
    let head = right_head(s).ok_or(Row::Form)?;
    head.put(m);
    if bad_map(m.map) {
        return Err(Row::Hour);
    }
    if bad_key(m.execution, m.unit, m.contract) || fill_by_kind(s, m) {
        return Err(Row::Range);
    }
    Ok(())
}

// A message's fields, or the refusal, as C has it: filled in where it is returned, so that the arrays are copied once.
pub fn read(s: &[u8]) -> Reading
    ensures { result ≡ reading_as (reading s.now) }
{
    let mut reading = Reading {
        row: 0,
        fields: NO_FIELDS,
    };
    if let Err(row) = read_into(s, &mut reading.fields) {
        reading = Reading::from(Err(row));
    }
    reading
}
