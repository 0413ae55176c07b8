// The C interface (include/gate.h). "The session is lent to each call and changed in place": thin entries that run the calls
// (`session_changes::perform`; lodging, which reads a message first, by `settle`), and hand on the queries. The numbers at each are the rows of the refusal table that it can answer with.
#![tactic(auto)]

ghost use Rattle.std.specs.Prelude.{◌≡◌, length};
ghost use Rattle.rules.specs.Hours.{hours_at, clock_at, hour_at};
ghost use Rattle.rules.specs.Message.{read as reading, write as writing, buffer_after};
ghost use Rattle.rules.specs.DayBook.{register, lodge, annul, close, clear};
ghost use Rattle.rules.specs.Queries as Q;
ghost use Rattle.calendar.specs.View.{date_in, clock_in};
ghost use Rattle.message.specs.View.{fields_in, reading_as, written_as};
ghost use Rattle.answer.specs.Told.{counted, named};
ghost use Rattle.session.specs.Image.{unit_in, key_in};
ghost use Rattle.session.specs.Steps.{Opens, Met};
ghost use Rattle.notify_unavailability.specs.Notices.{available_in};
ghost use Rattle.notify_rights.specs.Rights.{rights_in};
ghost use Rattle.notify_capacity.specs.Capacities.{capacity_in};
ghost use Rattle.set_loss.specs.Losses.{loss_in};
ghost use Rattle.query.specs.Replies.{Answered};

use answer::{ClockName, Response};
use calendar::{Clock, Date};
use message::{Fields, Reading, Written};
use notify_capacity::Capacities;
use notify_rights::Rights;
use notify_unavailability::Availability;
use session::{Key, Opened, Session, Unit};
use session_changes::{perform, settle};
use set_loss::Loss;

// What the archive is: a program asks before its first call whether it was compiled with the header of this archive.

// `GATE_VERSION` of include/gate.h. Each change of a name, a struct or a meaning there raises it.
#[unsafe(no_mangle)]
pub extern "C" fn gate_version() -> u32
    ensures { result ≡ 4 }
{
    4
}

// The bytes of a session: the size of its type (`session-size` of proofs/SizeLaws.antt).
#[unsafe(no_mangle)]
pub extern "C" fn gate_session_size() -> u64
    ensures { result ≡ 59976 }
{
    59976
}

// Dates

// Opens the session of a date: 1.
#[unsafe(no_mangle)]
pub extern "C" fn gate_open(date: Date) -> Opened
    ensures { Opens (date_in date) result }
{
    session::open(date)
}

// The number of hours of a date: 1.
#[unsafe(no_mangle)]
pub extern "C" fn gate_hours(date: Date) -> Response
    ensures { result ≡ counted (hours_at (date_in date)) }
{
    calendar::hours_at(date)
}

// The clock name and mark of an hour of a date: 1, 4.
#[unsafe(no_mangle)]
pub extern "C" fn gate_clock(date: Date, hour: u32) -> ClockName
    ensures { result ≡ named (clock_at (date_in date) hour) }
{
    calendar::clock_at(date, hour)
}

// The hour of a clock name and mark of a date: 1, 4.
#[unsafe(no_mangle)]
pub extern "C" fn gate_hour(date: Date, clock: Clock) -> Response
    ensures { result ≡ counted (hour_at (date_in date) (clock_in clock)) }
{
    calendar::hour_at(date, clock)
}

// Messages

// A message's fields: 3, 4, 5.
#[unsafe(no_mangle)]
pub extern "C" fn gate_read(message: &[u8]) -> Reading
    ensures { result ≡ reading_as (reading message.now) }
{
    message_reader::read(message)
}

// The message of some fields into the caller's buffer: 4, 5, 14.
#[unsafe(no_mangle)]
pub extern "C" fn gate_write(fields: Fields, buffer: &mut [u8]) -> Written
    ensures { (result ≡ written_as (writing (length buffer.old) (fields_in fields)))
        × (buffer.new ≡ buffer_after (writing (length buffer.old) (fields_in fields)) buffer.old) }
{
    message_writer::write(fields, buffer)
}

// Calls

// Registers a unit: 2, 5, 7, 8, 9, 15.
#[unsafe(no_mangle)]
pub extern "C" fn gate_register(s: &mut Session, unit: Unit) -> Response
    ensures { Met s.old (register (unit_in unit)) (record { session = s.new; answer = result }) }
{
    perform(s, &register::Registration { unit })
}

// Takes an unavailability notice of a unit: 2, 4, 5, 6.
#[unsafe(no_mangle)]
pub extern "C" fn gate_unavailability(s: &mut Session, notice: Availability) -> Response
    ensures { Met s.old (available_in notice) (record { session = s.new; answer = result }) }
{
    perform(s, &notice)
}

// Takes a rights notice of an agent and side: 2, 4, 5, 6.
#[unsafe(no_mangle)]
pub extern "C" fn gate_rights(s: &mut Session, rights: Rights) -> Response
    ensures { Met s.old (rights_in rights) (record { session = s.new; answer = result }) }
{
    perform(s, &rights)
}

// Takes a capacity notice, export and import of border 1, of 2, of 3, of 4: 2, 4, 5.
#[unsafe(no_mangle)]
pub extern "C" fn gate_capacity(s: &mut Session, notice: Capacities) -> Response
    ensures { Met s.old (capacity_in notice) (record { session = s.new; answer = result }) }
{
    perform(s, &notice)
}

// Sets the loss of a border: 2, 5.
#[unsafe(no_mangle)]
pub extern "C" fn gate_loss(s: &mut Session, loss: Loss) -> Response
    ensures { Met s.old (loss_in loss) (record { session = s.new; answer = result }) }
{
    perform(s, &loss)
}

// Lodges a message: 2, 3, 4, 5, 6, 9, 10, 11, 12, 15.
#[unsafe(no_mangle)]
pub extern "C" fn gate_lodge(s: &mut Session, message: &[u8]) -> Response
    ensures { Met s.old (lodge message.now) (record { session = s.new; answer = result }) }
{
    let step = lodge::lodge_change(s, message);
    settle(s, step)
}

// Annuls the lodgement of a key: 2, 5, 6, 13.
#[unsafe(no_mangle)]
pub extern "C" fn gate_annul(s: &mut Session, key: Key) -> Response
    ensures { Met s.old (annul (key_in key)) (record { session = s.new; answer = result }) }
{
    perform(s, &annul::Annulment { key })
}

// Closes the gate: 2.
#[unsafe(no_mangle)]
pub extern "C" fn gate_close(s: &mut Session) -> Response
    ensures { Met s.old close (record { session = s.new; answer = result }) }
{
    perform(s, &close::GateClosing)
}

// Clears the day: 2.
#[unsafe(no_mangle)]
pub extern "C" fn gate_clear(s: &mut Session) -> Response
    ensures { Met s.old clear (record { session = s.new; answer = result }) }
{
    perform(s, &clear::Clearing)
}

// Queries. Unit, border, direction and hour are C's parameters, one by one.

// "a lodging number's verdict", after closing: 2, 13.
#[unsafe(no_mangle)]
pub extern "C" fn gate_verdict(s: &Session, number: u32) -> Response
    ensures { Answered s.now (Q.verdict number) result }
{
    query_verdict::verdict(s, number)
}

// A unit's matched energy in an hour: 2, 4, 5, 6.
#[unsafe(no_mangle)]
pub extern "C" fn gate_matched(s: &Session, unit: u32, hour: u32) -> Response
    ensures { Answered s.now (Q.matched unit hour) result }
{
    query_unit::matched(s, unit, hour)
}

// A unit's executed energy in an hour: 2, 4, 5, 6.
#[unsafe(no_mangle)]
pub extern "C" fn gate_executed(s: &Session, unit: u32, hour: u32) -> Response
    ensures { Answered s.now (Q.executed unit hour) result }
{
    query_unit::executed(s, unit, hour)
}

// The final market balance of a border: 2, 4, 5.
#[unsafe(no_mangle)]
pub extern "C" fn gate_market_balance(s: &Session, border: u32, hour: u32) -> Response
    ensures { Answered s.now (Q.market border hour) result }
{
    query_balance::market(s, border, hour)
}

// The final balance of its executions: 2, 4, 5.
#[unsafe(no_mangle)]
pub extern "C" fn gate_bilateral_balance(s: &Session, border: u32, hour: u32) -> Response
    ensures { Answered s.now (Q.bilateral border hour) result }
{
    query_balance::bilateral(s, border, hour)
}

// The market maximum of a border's direction, "absent without capacity": 2, 4, 5.
#[unsafe(no_mangle)]
pub extern "C" fn gate_market_maximum(s: &Session, border: u32, export: bool, hour: u32) -> Response
    ensures { Answered s.now (Q.market_max border export hour) result }
{
    query_maximum::market_maximum(s, border, export, hour)
}

// Its bilateral maximum, which may be below zero: 2, 4, 5.
#[unsafe(no_mangle)]
pub extern "C" fn gate_bilateral_maximum(
    s: &Session,
    border: u32,
    export: bool,
    hour: u32,
) -> Response
    ensures { Answered s.now (Q.bilateral_max border export hour) result }
{
    query_maximum::bilateral_maximum(s, border, export, hour)
}

// The hour's price: 2, 4.
#[unsafe(no_mangle)]
pub extern "C" fn gate_price(s: &Session, hour: u32) -> Response
    ensures { Answered s.now (Q.price hour) result }
{
    query::price(s, hour)
}
