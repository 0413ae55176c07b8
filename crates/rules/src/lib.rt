// Document 01 as definitions, in specs/, and laws about them, in proofs/; here the numbers that several crates share.
#![tactic(auto)]

ghost use Rattle.std.specs.Prelude.{◌≡◌};
ghost use Rattle.rules.specs.Units.{max_energy, bad_number};

pub mod row;

// "At most 64 units."
pub const UNITS: usize = 64;

// "There are up to 128 standing lodgements"
pub const LODGEMENTS: usize = 128;

// Hours of the longest day: an array by hour has so many.
pub const HOURS: usize = 25;

// "the last Sunday of March has H = 23 hours, the last Sunday of October 25"
pub const SHORT_DAY: u32 = 23;

pub const LONG_DAY: u32 = 25;

// Borders beside 0, the domestic one.
pub const BORDERS: usize = 4;

// A unit's border is 0 to 4, and the border of a notice or a balance 1 to 4.
pub const LAST_BORDER: u32 = 4;

// The border whose units can be marked "with rights".
pub const FRANCE: u32 = 1;

// "A capacity notice covers the 4 borders in 2 directions"
pub const DIRECTIONS: usize = 8;

// Numbers of units, agents, contracts and lodgements are 1 to 65,535.
pub const MAX_NUMBER: u32 = 65_535;

// The largest energy, in tenths of MWh (document 01, "Units and notices").
pub const MAX_ENERGY: u32 = 99_999;

// The largest price, in hundredths of a euro per MWh.
pub const MAX_PRICE: u32 = 18_030;

// K2: "a loss l, 0 to 2,000, in hundredths of a percent".
pub const MAX_LOSS: u32 = 2_000;

// "in hundredths of a percent": what a loss is a part of.
pub const WHOLE: u32 = 10_000;

// A loss for each border, and before them that of no border, which is 0.
pub const LOSSES: usize = 5;

// "hour map 25": a map is below 2 to the 25th.
pub const MAPS: u32 = 33_554_432;

pub fn energy_limit() -> u32
    ensures { result ≡ max_energy }
{
    MAX_ENERGY
}

// "(each 1 to 65,535)": a number outside that, of a unit, an agent or a contract.
#[tactic(auto, unfolding(crate::specs::Units::bad_number))]
pub fn bad_number(n: u32) -> bool
    ensures { result ≡ bad_number n }
{
    !(1..=MAX_NUMBER).contains(&n)
}
