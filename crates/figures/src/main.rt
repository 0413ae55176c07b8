// The worked figures and edges of document 01, run: each line of standard input is a question, and each answer is a line.
//
//     d YEAR MONTH DAY               the hours of a date
//     c YEAR MONTH DAY HOUR          the clock name of an hour, and its mark
//     n YEAR MONTH DAY NAME MARK     the hour of a clock name; mark 1 is "second"
//     r BYTE BYTE ..                 a message read; bytes in hexadecimal
//     f BYTE BYTE ..                 the same, field by field through a reader set over it
//     w ROOM EXECUTION DEFAULT UNIT CONTRACT MAP, 25 energies, 25 prices
//                                    a message written into ROOM bytes that all hold A5, and what they then hold
//     o NUMBER BORDER PURCHASE LEGACY ENERGY PRICE
//                                    an offer of the next hour, of a unit with the lodging number
//     x NUMBER BORDER PURCHASE ENERGY
//                                    an execution of it
//     O NUMBER UNIT BORDER PURCHASE LEGACY ENERGY PRICE LOSS
//     X NUMBER UNIT BORDER PURCHASE LEGACY ENERGY LOSS
//                                    the same, of a unit with a number of its own, and a loss of its own, which may be left out
//     k BORDER EXPORT ENERGY         a capacity of it
//     l BORDER LOSS                  the loss of the border's purchases that follow and have none of their own
//     h                              the hour so given, cleared if it is in its ranges; the next begins
//     H                              the same, if a session can hold it
//
// Any other line is written as it stands. tests/figures makes the input and, from the independent model, what is expected.
#![tactic(auto)]

use answers::{Counted, Named, Told, Written};
use hours::NextHour;
use message::Fields;
use output::Output;
use questions::Question;
use std::fmt;
use std::fmt::Write;

mod answers;
mod hours;
mod numbers;
mod questions;

const STDIN: i32 = 0;

// How many bytes of the input are read. A line that is cut there is a line.
const INPUT: usize = 262_144;

// A message written, if its room is not more than the buffer has.
fn write(room: usize, fields: Fields, out: &mut Output) -> fmt::Result {
    let mut buffer = [0xA5; 128];
    match buffer.get_mut(..room) {
        Some(buffer) => writeln!(out, "{}", Written::into(buffer, &fields)),
        None => Ok(()),
    }
}

fn answer(question: Question, hour: &mut NextHour, out: &mut Output) -> fmt::Result {
    match question {
        Question::Hours(date) => writeln!(out, "{}", Counted(calendar::hours_at(date))),
        Question::ClockName(date, hour) => writeln!(
            out,
            "{}",
            Named(calendar::clock_at(date, hour))
        ),
        Question::HourNamed(date, clock) => writeln!(
            out,
            "{}",
            Counted(calendar::hour_at(date, clock))
        ),
        Question::Read(message) => writeln!(out, "{}", Told::of(&message, message_reader::read)),
        Question::ReadFieldwise(message) => writeln!(
            out,
            "{}",
            Told::of(&message, message_cursor::fieldwise::read)
        ),
        Question::Write(room, fields) => write(room, fields, out),
        Question::Part(part) => {
            hour.put(part);
            Ok(())
        }
        Question::ClearInRange => writeln!(out, "{}", hour.clear_in_range()),
        Question::Clear => writeln!(out, "{}", hour.clear()),
    }
}

fn answer_line(line: &[u8], hour: &mut NextHour, out: &mut Output) -> fmt::Result {
    if line.is_empty() {
        return Ok(());
    }
    match Question::of(line) {
        Some(question) => answer(question, hour, out),
        None => {
            out.put(line);
            writeln!(out)
        }
    }
}

fn answer_all(input: &[u8], out: &mut Output) -> fmt::Result {
    let mut hour = NextHour::new();
    for line in input.split(|b| *b == b'\n') {
        answer_line(line, &mut hour, out)?;
    }
    out.flush();
    Ok(())
}

fn main() {
    let mut input = [0; INPUT];
    // A read that fails is the end of the input.
    let count = io::read_full(STDIN, &mut input);
    // An output never fails: what it can't write, it passes over.
    let _ = answer_all(&input[..count], &mut Output::new());
}
