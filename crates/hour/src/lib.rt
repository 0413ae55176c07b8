// An hour as it is cleared and what clearing gives (document 01, "Clearing, hour by hour"): the crate `hour_clear` clears it.
#![tactic(auto)]

pub mod ranges;
pub mod units;

ghost use Rattle.std.specs.Prelude.{◌≡◌};
ghost use Rattle.hour.specs.Ready.{is_in_range, is_ready};

use crate::ranges::{capacities_within, lodged_within};
use hour_offers::{Execution, Offer};
use listed::Listed;
use rules::{DIRECTIONS, LODGEMENTS, UNITS};

// An hour as it is cleared: its accepted offers and executions, each kind by rising lodging number, and its published capacities by
// direction (`hour_borders::direction`). What an offer has as matched, and what stands behind a count, is not looked at; a count may be anything. The default is an hour with nothing, which
// `clear_gather::gather` is lent.
#[derive(Clone, Copy, Default)]
pub struct Hour {
    pub offers: Listed<Offer, LODGEMENTS>,
    pub executions: Listed<Execution, LODGEMENTS>,
    pub capacities: [Option<u32>; DIRECTIONS],
}

// What clearing gives: the offers with what is still offered and what is matched of each, the executions with what is executed of each;
// by direction the market maximum where a capacity is published, and the energy of matched offers and of executions at the end; the count of
// withdrawal steps and the price. Arrays by direction, as C's `HourFigures` has them. The default stands for no hour: it is what a caller lends
// `hour_clear::clear_into`.
#[derive(Clone, Copy, Default)]
pub struct Figures {
    pub offers: Listed<Offer, LODGEMENTS>,
    pub executions: Listed<Execution, LODGEMENTS>,
    pub maxima: [Option<u32>; DIRECTIONS],
    pub market: [u32; DIRECTIONS],
    pub bilateral: [u32; DIRECTIONS],
    pub steps: u32,
    pub price: u32,
}

// Whether an hour is in its ranges, as a session's hours are (`HourInRange` of specs/Ready.antt).
#[tactic(auto, unfolding(crate::specs::Ready::is_in_range, crate::specs::Ranges::capacities_within))]
pub fn in_range(h: &Hour) -> bool
    ensures { result ≡ is_in_range h.now }
{
    let offers = h.offers.as_slice();
    let executions = h.executions.as_slice();
    h.offers.count <= UNITS
        && h.executions.count <= LODGEMENTS - h.offers.count
        && lodged_within(offers)
        && lodged_within(executions)
        && capacities_within(&h.capacities)
}

// Whether an hour is one that a session can hold (`Ready` of specs/Ready.antt).
#[tactic(auto, unfolding(crate::specs::Ready::is_ready))]
pub fn ready(h: &Hour) -> bool
    ensures { result ≡ is_ready h.now }
{
    in_range(h) && crate::units::units_possible(h)
}
