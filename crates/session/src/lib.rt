// The session by value: the day book laid into arrays, and its opening.
#![tactic(auto)]

ghost use Rattle.std.specs.Prelude.{◌≡◌};
ghost use Rattle.rules.specs.Book.{fresh};
ghost use Rattle.calendar.specs.View.{date_in};
ghost use Rattle.session.specs.Image.{image, no_unit, no_notice, no_lodgement, no_energies, no_verdict, no_figures};
ghost use Rattle.session.specs.Steps.{Opens};
ghost use Rattle.session.specs.Parts.{within, refused_as};

use answer::Response;
use calendar::{Date, FIRST};
use rules::row::Row;
use rules::{DIRECTIONS, HOURS, LODGEMENTS, LONG_DAY, LOSSES, UNITS};

pub mod units;

// No struct that C holds has padding, which would keep what the memory held before. Where fields leave a gap stands a reserved one: 0 in a
// session and in every answer, and in what is passed not looked at.

// Number and agent are 1 to 65,535; border is 0 domestic, 1 France, 2 Andorra, 3 Portugal, 4 Morocco. `rights` is the mark "with rights".
#[repr(C)]
#[derive(Clone, Copy, Default)]
pub struct Unit {
    pub number: u32,
    pub agent: u32,
    pub border: u32,
    pub maximum: u32,
    pub purchase: bool,
    pub legacy: bool,
    pub rights: bool,
    pub reserved: u8,
}

// A notice that the session keeps, as C has it (a flag in place of an Option): energies by hour, 0 after the last hour.
#[repr(C)]
#[derive(Clone, Copy)]
pub struct Notice {
    pub given: bool,
    pub reserved: u8,
    pub reserved2: u16,
    pub energies: [u32; HOURS],
}

// A direction of a capacity notice, as C has it: absent, or `count` energies of an array.
#[repr(C)]
#[derive(Clone, Copy)]
pub struct Published {
    pub count: usize,
    pub published: bool,
    pub reserved: u8,
    pub reserved2: u16,
    pub energies: [u32; HOURS],
}

#[repr(C)]
#[derive(Clone, Copy, Default)]
pub struct Key {
    pub execution: bool,
    pub default: bool,
    pub reserved: u16,
    pub unit: u32,
    pub contract: u32,
}

#[repr(C)]
#[derive(Clone, Copy, Default)]
pub struct Lodgement {
    pub key: Key,
    pub number: u32,
}

// Energies and prices of a lodgement by hour, two arrays as C has them.
#[repr(C)]
#[derive(Clone, Copy)]
pub struct Energies {
    pub energies: [u32; HOURS],
    pub prices: [u32; HOURS],
}

// A lodgement's verdict, as C has it: accepted, refused by a limit (0 for none) in an hour, or neither, which is hidden.
#[repr(C)]
#[derive(Clone, Copy, Default)]
pub struct Verdict {
    pub accepted: bool,
    pub reserved: u8,
    pub reserved2: u16,
    pub limit: u32,
    pub hour: u32,
}

// An hour's figures, arrays as C has them. Energies at the borders are by direction, export and import of border 1, of 2, of 3, of 4; those of
// units by the index of the unit.
#[repr(C)]
#[derive(Clone, Copy)]
pub struct HourFigures {
    pub price: u32,
    pub market: [u32; DIRECTIONS],
    pub bilateral: [u32; DIRECTIONS],
    pub maxima: [u32; DIRECTIONS],
    pub matched: [u32; UNITS],
    pub executed: [u32; UNITS],
}

// As C has it, with arrays and their counts. The first `enrolled` units and the first `standing` lodgements count, these in the order of their numbers.
// `capacities` are by direction, as an hour's figures. Verdicts stand at the lodgements' indices once closed,
// figures at the hours' indices once cleared. `rights` are those of a French unit's agent on its side, at the unit's index. `losses` are by border, the
// first, of no border, 0.
#[repr(C)]
#[derive(Clone, Copy)]
pub struct Session {
    pub date: Date,
    pub hours: u32,
    pub enrolled: usize,
    pub units: [Unit; UNITS],
    pub notices: [Notice; UNITS],
    pub capacities: [Notice; DIRECTIONS],
    pub standing: usize,
    pub lodgements: [Lodgement; LODGEMENTS],
    pub energies: [Energies; LODGEMENTS],
    pub last: u32,
    pub closed: bool,
    pub cleared: bool,
    pub reserved: u16,
    pub verdicts: [Verdict; LODGEMENTS],
    pub figures: [HourFigures; HOURS],
    pub reserved2: u32,
    pub rights: [Notice; UNITS],
    pub losses: [u32; LOSSES],
    pub reserved3: u32,
}

// The unit of a number, found once for all that ask about it: its index and itself.
#[derive(Clone, Copy)]
pub struct Holder {
    pub at: usize,
    pub unit: Unit,
}

// A call's answer, and the session that it leaves: of the calls by value, which C is not handed.
#[derive(Clone, Copy)]
pub struct Effect {
    pub session: Session,
    pub answer: Response,
}

// A date's answer, and its fresh session, as C has them.
#[repr(C)]
#[derive(Clone, Copy)]
pub struct Opened {
    pub answer: Response,
    pub session: Session,
}

// What stands at an index that is not used. For three of them the default is it: they have names since contracts name the blanks, these and those
// with arrays.
pub fn no_unit() -> Unit
    ensures { result ≡ no_unit }
{
    Unit::default()
}

// Written out, as the others with arrays: of an array's default the prover has each element alone, and not the list.
pub fn no_notice() -> Notice
    ensures { result ≡ no_notice }
{
    Notice {
        given: false,
        reserved: 0,
        reserved2: 0,
        energies: [0; HOURS],
    }
}

pub fn no_lodgement() -> Lodgement
    ensures { result ≡ no_lodgement }
{
    Lodgement::default()
}

pub fn no_energies() -> Energies
    ensures { result ≡ no_energies }
{
    Energies {
        energies: [0; HOURS],
        prices: [0; HOURS],
    }
}

pub fn no_verdict() -> Verdict
    ensures { result ≡ no_verdict }
{
    Verdict::default()
}

pub fn no_figures() -> HourFigures
    ensures { result ≡ no_figures }
{
    HourFigures {
        price: 0,
        market: [0; DIRECTIONS],
        bilateral: [0; DIRECTIONS],
        maxima: [0; DIRECTIONS],
        matched: [0; UNITS],
        executed: [0; UNITS],
    }
}

impl Session {
    pub const MAX_UNITS: usize = UNITS;

    pub const MAX_LODGEMENTS: usize = LODGEMENTS;

    pub const MAX_ENERGY: u32 = rules::MAX_ENERGY;

    pub const MAX_NUMBER: u32 = rules::MAX_NUMBER;

    // "A fresh session follows from the date only: no units, no notices, no lodgements." The calls promise something of it
    // where the date is one; `open` is the way in that tests it.
    pub fn fresh(date: Date) -> Session
        ensures { result ≡ image (fresh (date_in date)) }
    {
        Session {
            date,
            hours: calendar::hours_of(date),
            enrolled: 0,
            units: [no_unit(); UNITS],
            notices: [no_notice(); UNITS],
            capacities: [no_notice(); DIRECTIONS],
            standing: 0,
            lodgements: [no_lodgement(); LODGEMENTS],
            energies: [no_energies(); LODGEMENTS],
            last: 0,
            closed: false,
            cleared: false,
            reserved: 0,
            verdicts: [no_verdict(); LODGEMENTS],
            figures: [no_figures(); HOURS],
            reserved2: 0,
            rights: [no_notice(); UNITS],
            losses: [0; LOSSES],
            reserved3: 0,
        }
    }

    // The guard: counts that fit their arrays. Contracts ask for it as `Within`. It is no invariant of the type, which is C's and any caller
    // may write; a wrapper around it would be opened at each field that is read.
    pub fn sound(&self) -> bool
        ensures { result ≡ within self.now }
    {
        self.hours <= LONG_DAY
            && self.enrolled <= Self::MAX_UNITS
            && self.standing <= Self::MAX_LODGEMENTS
            && self.last <= Self::MAX_NUMBER
    }

    // A refused call hands the session back. Row and hour are any numbers, since C's fields hold any: a `Refusal` has fifteen rows.
    pub fn refused(self, row: u32, hour: u32) -> Effect
        ensures { result ≡ refused_as self row hour }
    {
        Effect {
            session: self,
            answer: Response::refused(row, hour),
        }
    }
}

// "Beside a refused date stands the fresh session of 2002-01-01." One session is made for both, where it stays: it is long, and was written twice.
pub fn open(date: Date) -> Opened
    ensures { Opens (date_in date) result }
{
    let (answer, day) = if calendar::is_date(date) {
        (Response::accepted(), date)
    } else {
        (Response::from(Row::Date), FIRST)
    };
    Opened {
        answer,
        session: Session::fresh(day),
    }
}
