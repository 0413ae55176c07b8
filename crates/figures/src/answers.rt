// What is written of an answer about a date or a message.
ghost use Rattle.std.specs.Prelude.{◌≡◌, length};
ghost use Rattle.std.specs.Fn.{FnReturnsAt};
ghost use Rattle.rules.specs.Message.{write as writing, buffer_after};
ghost use Rattle.message.specs.View.{fields_in, written_as, written_of};

use answer::{ClockName, Kind, Response};
use message::{Fields, Reading};
use rules::row::Row;
use std::fmt;

// A number, or a refusal: "24", "refused 1".
#[derive(Clone, Copy)]
pub(crate) struct Counted(pub Response);

impl fmt::Display for Counted {
    fn fmt<W: fmt::Write>(&self, f: &mut fmt::Formatter<W>) -> fmt::Result {
        let Response { row, value, .. } = self.0;
        if self.0.kind() == Some(Kind::Refused) {
            return write!(f, "refused {row}");
        }
        write!(f, "{value}")
    }
}

// "2 second", "refused 4"
#[derive(Clone, Copy)]
pub(crate) struct Named(pub ClockName);

impl fmt::Display for Named {
    fn fmt<W: fmt::Write>(&self, f: &mut fmt::Formatter<W>) -> fmt::Result {
        let ClockName {
            row,
            name,
            second,
            ..
        } = self.0;
        if row != 0 {
            return write!(f, "refused {row}");
        }
        write!(f, "{name}{}", if second { " second" } else { "" })
    }
}

// A message's fields, or why it is refused.
#[derive(Clone, Copy)]
pub(crate) struct Told(Reading);

impl Told {
    // By whichever reads it.
    pub(crate) fn of<F: Fn(&[u8]) -> Reading>(message: &[u8], read: F) -> Told
        requires { F.IsAlwaysCallable read }
        ensures { FnReturnsAt F.Fn read message.now result.0 }
    {
        Told(read(message))
    }
}

impl fmt::Display for Told {
    fn fmt<W: fmt::Write>(&self, f: &mut fmt::Formatter<W>) -> fmt::Result {
        let Reading { row, fields } = self.0;
        if row != 0 {
            return write!(f, "refused {row}");
        }
        write!(f, "{}", Said(fields))
    }
}

// "offer default unit 7 contract 0 map 6291456 1:120@4500 2:95@4400": the hours that have energy.
#[derive(Clone, Copy)]
struct Said(Fields);

impl fmt::Display for Said {
    fn fmt<W: fmt::Write>(&self, f: &mut fmt::Formatter<W>) -> fmt::Result {
        let Fields {
            execution,
            default,
            unit,
            contract,
            map,
            energies,
            prices,
            ..
        } = self.0;
        f.write_str(if execution { "execution" } else { "offer" })?;
        f.write_str(if default { " default" } else { "" })?;
        write!(f, " unit {unit} contract {contract} map {map}")?;
        for (hour, (energy, price)) in (1..=25).zip(energies.into_iter().zip(prices)) {
            if energy != 0 {
                write!(f, " {hour}:{energy}@{price}")?;
            }
        }
        Ok(())
    }
}

// "count 16: 10 00 0e ..", "refused 14: a5 ..": what the buffer then holds.
#[derive(Clone, Copy)]
pub(crate) struct Written<'a> {
    count: Result<usize, Row>,
    buffer: &'a [u8],
}

impl<'a> Written<'a> {
    pub(crate) fn into(buffer: &'a mut [u8], fields: &Fields) -> Written<'a>
        ensures count { written_of result.count ≡ written_as (writing (length buffer.old) (fields_in fields.now)) }
        ensures buffer { result.buffer.now ≡ buffer_after (writing (length buffer.old) (fields_in fields.now)) buffer.old }
    {
        let count = message_writer::write_fields(fields, buffer);
        Written { count, buffer }
    }
}

impl fmt::Display for Written<'_> {
    fn fmt<W: fmt::Write>(&self, f: &mut fmt::Formatter<W>) -> fmt::Result {
        match self.count {
            Ok(count) => write!(f, "count {count}:")?,
            Err(row) => write!(f, "refused {}:", row.number())?,
        }
        for byte in self.buffer {
            write!(f, " {byte:02x}")?;
        }
        Ok(())
    }
}
