// The lodging message: its fields, its length, and what its fields are refused for (document 01, "The lodging message").
#![tactic(auto)]

ghost use Rattle.std.specs.Prelude.{◌≡◌};
ghost use Rattle.message.specs.View.{reading_of, written_of};

pub mod form;
pub mod hours;
pub mod judge;

use rules::HOURS;
use rules::row::Row;

// What a message says, and what a writer is given, as C has it. Energies and prices are by hour, hour 1 first. What is reserved, here and
// below, leaves no padding.
#[repr(C)]
#[derive(Clone, Copy, Debug, PartialEq, Eq)]
pub struct Fields {
    pub execution: bool,
    pub default: bool,
    pub reserved: u16,
    pub unit: u32,
    pub contract: u32,
    // The hour map: hour 1 is bit 24, hour 25 bit 0.
    pub map: u32,
    pub energies: [u32; HOURS],
    pub prices: [u32; HOURS],
}

// "Other fields of a refusal are 0". Written out: of an array's default the prover has each element alone, and not the list.
pub const NO_FIELDS: Fields = Fields {
    execution: false,
    default: false,
    reserved: 0,
    unit: 0,
    contract: 0,
    map: 0,
    energies: [0; HOURS],
    prices: [0; HOURS],
};

// A message read, as C has it: row 0 and its fields, or the table's number and fields that are all 0.
#[repr(C)]
#[derive(Clone, Copy, Debug, PartialEq, Eq)]
pub struct Reading {
    pub row: u32,
    pub fields: Fields,
}

// A message written, as C has it: row 0 and the count of its bytes, or the table's number and 0.
#[repr(C)]
#[derive(Clone, Copy, Debug, PartialEq, Eq)]
pub struct Written {
    pub row: u32,
    pub reserved: u32,
    pub count: usize,
}

impl From<Result<Fields, Row>> for Reading {
    ghost from_gives = { λ read c. c ≡ reading_of read };

    fn from(read: Result<Fields, Row>) -> Reading {
        match read {
            Ok(fields) => Reading { row: 0, fields },
            Err(row) => Reading {
                row: row.number(),
                fields: NO_FIELDS,
            },
        }
    }
}

impl From<Result<usize, Row>> for Written {
    ghost from_gives = { λ written c. c ≡ written_of written };

    fn from(written: Result<usize, Row>) -> Written {
        match written {
            Ok(count) => Written {
                row: 0,
                reserved: 0,
                count,
            },
            Err(row) => Written {
                row: row.number(),
                reserved: 0,
                count: 0,
            },
        }
    }
}
