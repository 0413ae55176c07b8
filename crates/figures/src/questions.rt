// What a line asks.
use crate::hours::Part;
use crate::numbers::Numbers;
use arrayvec::ArrayVec;
use calendar::{Clock, Date};
use hour_offers::{Execution, Holder, Offer};
use message::Fields;

// A question, or a part of the next hour.
#[derive(Drop)]
pub(crate) enum Question {
    // The hours of a date.
    Hours(Date),
    // The clock name of an hour, and its mark.
    ClockName(Date, u32),
    // The hour of a clock name.
    HourNamed(Date, Clock),
    // A message read, as a whole or field by field.
    Read(ArrayVec<u8, 128>),
    ReadFieldwise(ArrayVec<u8, 128>),
    // A message written into so many bytes.
    Write(usize, Fields),
    // Of the next hour.
    Part(Part),
    // The hour so given, cleared if it is in its ranges.
    ClearInRange,
    // The same, if a session can hold it.
    Clear,
}

impl Question {
    // None of a line that asks nothing. No clause says what a line asks: that is the table of main.rt, and a contract would be these functions again.
    pub(crate) fn of(line: &[u8]) -> Option<Question> {
        let (kind, text) = line.split_first()?;
        let numbers = Numbers::decimal(text);
        match *kind {
            b'd' => Some(hours(numbers)),
            b'c' => Some(clock_name(numbers)),
            b'n' => Some(hour_named(numbers)),
            b'r' => Some(Question::Read(bytes(text))),
            b'f' => Some(Question::ReadFieldwise(bytes(text))),
            b'w' => Some(write(numbers)),
            b'o' => Some(Question::Part(offer(numbers))),
            b'x' => Some(Question::Part(execution(numbers))),
            b'O' => Some(Question::Part(offer_of_unit(numbers))),
            b'X' => Some(Question::Part(execution_of_unit(numbers))),
            b'k' => Some(Question::Part(capacity(numbers))),
            b'l' => Some(Question::Part(loss(numbers))),
            b'h' => Some(Question::ClearInRange),
            b'H' => Some(Question::Clear),
            _ => None,
        }
    }
}

fn date(numbers: &mut Numbers<'_>) -> Date {
    let year = numbers.number();
    let month = numbers.number();
    let day = numbers.number();
    Date { year, month, day }
}

fn hours(mut numbers: Numbers<'_>) -> Question {
    Question::Hours(date(&mut numbers))
}

fn clock_name(mut numbers: Numbers<'_>) -> Question {
    let date = date(&mut numbers);
    Question::ClockName(date, numbers.number())
}

fn hour_named(mut numbers: Numbers<'_>) -> Question {
    let date = date(&mut numbers);
    let name = numbers.number();
    let second = numbers.mark();
    let clock = Clock {
        name,
        second,
        reserved: 0,
        reserved2: 0,
    };
    Question::HourNamed(date, clock)
}

// The bytes of a message, 128 at most: no message is longer.
fn bytes(text: &[u8]) -> ArrayVec<u8, 128> {
    let mut bytes = ArrayVec::new();
    for number in Numbers::hexadecimal(text) {
        if bytes.try_push((number % 256) as u8).is_err() {
            break;
        }
    }
    bytes
}

fn write(mut numbers: Numbers<'_>) -> Question {
    let room = numbers.number();
    let execution = numbers.mark();
    let default = numbers.mark();
    let unit = numbers.number();
    let contract = numbers.number();
    let map = numbers.number();
    let mut energies = [0; 25];
    for energy in &mut energies {
        *energy = numbers.number();
    }
    let mut prices = [0; 25];
    for price in &mut prices {
        *price = numbers.number();
    }
    let fields = Fields {
        execution,
        default,
        reserved: 0,
        unit,
        contract,
        map,
        energies,
        prices,
    };
    Question::Write(room as usize, fields)
}

// Of a unit with the number of its lodgement, not given a loss.
fn offer(mut numbers: Numbers<'_>) -> Part {
    let number = numbers.number();
    offered(number, number, numbers)
}

// Of a unit with a number of its own, and with a loss where one stands behind the price.
fn offer_of_unit(mut numbers: Numbers<'_>) -> Part {
    let number = numbers.number();
    let unit = numbers.number();
    offered(number, unit, numbers)
}

fn offered(number: u32, unit: u32, mut numbers: Numbers<'_>) -> Part {
    let border = numbers.number();
    let purchase = numbers.mark();
    let legacy = numbers.mark();
    let energy = numbers.number();
    let price = numbers.number();
    let loss = numbers.number();
    let holder = Holder {
        number,
        unit,
        border,
        purchase,
        legacy,
        loss,
    };
    Part::Offer(Offer::new(holder, price, energy))
}

// Of a unit with the number of its lodgement, not legacy.
fn execution(mut numbers: Numbers<'_>) -> Part {
    let number = numbers.number();
    let border = numbers.number();
    let purchase = numbers.mark();
    let energy = numbers.number();
    let holder = Holder {
        number,
        unit: number,
        border,
        purchase,
        legacy: false,
        loss: 0,
    };
    Part::Execution(Execution::new(holder, energy))
}

// Of a unit with a number and a legacy mark of its own, and with a loss where one stands behind the energy.
fn execution_of_unit(mut numbers: Numbers<'_>) -> Part {
    let number = numbers.number();
    let unit = numbers.number();
    let border = numbers.number();
    let purchase = numbers.mark();
    let legacy = numbers.mark();
    let energy = numbers.number();
    let loss = numbers.number();
    let holder = Holder {
        number,
        unit,
        border,
        purchase,
        legacy,
        loss,
    };
    Part::Execution(Execution::new(holder, energy))
}

// Of a border and direction, true for export.
fn capacity(mut numbers: Numbers<'_>) -> Part {
    let border = numbers.number();
    let export = numbers.mark();
    let energy = numbers.number();
    Part::Capacity {
        border,
        export,
        energy,
    }
}

// Of a border's exports.
fn loss(mut numbers: Numbers<'_>) -> Part {
    let border = numbers.number();
    let loss = numbers.number();
    Part::Loss { border, loss }
}
