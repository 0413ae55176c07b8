// Writing the lodging message: judged first, then written bit after bit into the caller's buffer.
#![tactic(auto)]

ghost use Rattle.std.specs.Prelude.{◌≡◌, length};
ghost use Rattle.rules.specs.Message.{form1, head_bits, write as writing};
ghost use Rattle.rules.specs.Message.{buffer_after};
ghost use Rattle.message.specs.View.{fields_in, written_as, written_of};
ghost use Rattle.message_pen.specs.Pens.{Appended, InRanges, Room, slots_of};

use message::form::{MAP_AT, length_for, slot_width};
use message::hours::Hours;
use message::judge::bad_fields;
use message::{Fields, Written};
use message_pen::{Page, head_word, slot_word};
use message_ranges::bad_map;
use rules::row::Row;
use rules::{HOURS, MAX_ENERGY};

// The first 64 bits, from the start of the buffer on. (`InRanges`, here and below: `message_pen::head_word` says why no type has it; `Room`: a page's
// `put_bits` does.)
fn put_head(m: &Fields, page: &mut Page<'_>)
    requires ranges { InRanges (fields_in m.now) }
    requires room { Room page.old 64 }
    ensures { Appended page.old (head_bits form1 (fields_in m.now)) page.new }
{
    page.put_bits(head_word(m), MAP_AT);
    page.put_bits(u64::from(m.map), HOURS);
}

// The slots of the hours that the map names, rising.
fn put_hours(m: &Fields, page: &mut Page<'_>)
    requires ranges { InRanges (fields_in m.now) }
    requires room { Room page.old (length (slots_of form1.width (fields_in m.now) m.now.map)) }
    ensures { Appended page.old (slots_of form1.width (fields_in m.now) m.now.map) page.new }
{
    let width = slot_width(m.execution);
    for h in Hours::of(m.map) {
        let word = slot_word(m.execution, m.energies[h], m.prices[h]);
        page.put_bits(word, width);
    }
}

// The message's length, or the refusal: 4, 5, 14 in the table's order.
fn judged(m: &Fields, room: usize) -> Result<usize, Row>
    ensures { written_of result ≡ written_as (writing room (fields_in m.now)) }
{
    if bad_map(m.map) {
        return Err(Row::Hour);
    }
    if bad_fields(m, MAX_ENERGY) {
        return Err(Row::Range);
    }
    let count = length_for(m.execution, m.map);
    if room < count {
        return Err(Row::Short);
    }
    Ok(count)
}

// The message of some fields into the caller's buffer: its count of bytes, or the refusal 4, 5 or 14, which leaves the buffer as it was.
pub fn write_fields(m: &Fields, buf: &mut [u8]) -> Result<usize, Row>
    ensures outcome { written_of result ≡ written_as (writing (length buf.old) (fields_in m.now)) }
    ensures buffer { buf.new ≡ buffer_after (writing (length buf.old) (fields_in m.now)) buf.old }
{
    let count = judged(m, buf.len())?;
    let mut page = Page::new(buf);
    put_head(m, &mut page);
    put_hours(m, &mut page);
    page.finish();
    Ok(count)
}

// The same as C has it.
pub fn write(m: Fields, buf: &mut [u8]) -> Written
    ensures written { result ≡ written_as (writing (length buf.old) (fields_in m)) }
    ensures buffer { buf.new ≡ buffer_after (writing (length buf.old) (fields_in m)) buf.old }
{
    Written::from(write_fields(&m, buf))
}
