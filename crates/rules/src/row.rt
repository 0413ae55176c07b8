// The rows of the table "When the gate says no", by its words.
ghost use Rattle.std.specs.Prelude.{◌≡◌, Some};
ghost use Rattle.rules.specs.Rows.{number_of, word_of, RowOf};

use std::error::Error;
use std::fmt;

// Why the gate says no: what an `Err` of every call, query, reader and writer brings.
#[derive(Clone, Copy, Debug, PartialEq, Eq)]
pub enum Row {
    Date = 1,
    Gate,
    Form,
    Hour,
    Range,
    Unit,
    Taken,
    Second,
    Full,
    Maximum,
    Available,
    Border,
    Absent,
    Short,
    // In the table after `Border`.
    Rights,
}

impl Row {
    // The table's number: a method, since `From` would not say at a call which number it is.
    pub fn number(self) -> u32
        ensures { result ≡ number_of self }
    {
        self as u32
    }
}

impl Error for Row {}

// A number that is none of the table's. A type of its own: one for several enums would not say whose number it is not.
#[derive(Clone, Copy, Debug, PartialEq, Eq)]
pub struct UnknownRow(pub u32);

impl TryFrom<u32> for Row {
    type Error = UnknownRow;

    ghost try_from_gives = { RowOf };

    fn try_from(number: u32) -> Result<Row, UnknownRow> {
        match number {
            1 => Ok(Row::Date),
            2 => Ok(Row::Gate),
            3 => Ok(Row::Form),
            4 => Ok(Row::Hour),
            5 => Ok(Row::Range),
            6 => Ok(Row::Unit),
            7 => Ok(Row::Taken),
            8 => Ok(Row::Second),
            9 => Ok(Row::Full),
            10 => Ok(Row::Maximum),
            11 => Ok(Row::Available),
            12 => Ok(Row::Border),
            13 => Ok(Row::Absent),
            14 => Ok(Row::Short),
            15 => Ok(Row::Rights),
            _ => Err(UnknownRow(number)),
        }
    }
}

// The table's word.
impl fmt::Display for Row {
    ghost output = { λ row. Some (word_of row) };

    fn fmt<W: fmt::Write>(&self, f: &mut fmt::Formatter<W>) -> fmt::Result {
        f.write_str(match self {
            Row::Date => "date",
            Row::Gate => "gate",
            Row::Form => "form",
            Row::Hour => "hour",
            Row::Range => "range",
            Row::Unit => "unit",
            Row::Taken => "taken",
            Row::Second => "second",
            Row::Full => "full",
            Row::Maximum => "maximum",
            Row::Available => "available",
            Row::Border => "border",
            Row::Absent => "absent",
            Row::Short => "short",
            Row::Rights => "rights",
        })
    }
}
