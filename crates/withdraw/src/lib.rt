// The withdrawal of an hour: its step, and the repetition (document 01, "Withdrawal step").
#![tactic(auto)]

ghost use Rattle.std.specs.Prelude.{◌≡◌, ◌^◌, ◌<◌, map, sum};
ghost use Rattle.std.specs.List.{sum_by};
ghost use Rattle.rules.specs.Match.{volume as volume_of};
ghost use Rattle.hour_offers.specs.View.{offers_in};
ghost use Rattle.hour_borders.specs.Directions.{published_in, over_in};
ghost use Rattle.hour_borders.specs.Flows.{MarketFlows};
ghost use Rattle.withdraw.specs.Beside.{Beside};
ghost use Rattle.withdraw.specs.Steps.{Laid, Stepped};
ghost use Rattle.withdraw.specs.Rounds.{Withdrew};

mod abroad;

use crate::abroad::Abroad;
use hour_offers::Offer;
use rules::DIRECTIONS;

// Both sides of an hour in their orders, as indices of its offers. That they are its orders (`Laid`) is asked where they are used: the offers
// change under them from step to step, so no invariant of this type can say it.
#[derive(Clone, Copy, Debug)]
pub struct Orders<'a> {
    pub sales: &'a [usize],
    pub purchases: &'a [usize],
}

// How a withdrawal ended: the count of its steps, and the volume of the last match.
#[derive(Clone, Copy, Debug, PartialEq, Eq)]
pub struct Ended {
    pub steps: u32,
    pub volume: u32,
}

// One step, of the directions with an excess above 0, and the volume after it. The choice of 2 comes before 1: it looks at nothing that is
// offered, and 1 changes nothing else. 5. "Match again."
fn step(
    offers: &mut [Offer],
    orders: Orders<'_>,
    abroad: &mut Abroad,
    over: &[u32; DIRECTIONS],
) -> u32
    requires laid { Laid (offers_in offers.old) orders.sales.now orders.purchases.now }
    requires abroad { Beside (offers_in offers.old) abroad.old }
    ensures stepped { Stepped (over_in over.now) orders.entry.sales.now orders.entry.purchases.now (offers_in offers.old) (offers_in offers.new) result }
    ensures abroad_after { Beside (offers_in offers.new) abroad.new }
{
    let places = abroad.places.as_slice();
    let held = abroad.offers.as_mut_slice();
    let group = withdraw_choose::choose(offers, held, over);
    withdraw_keep::keep_matched(held, over);
    withdraw_take::take_from(held, over, group);
    abroad::put(offers, places, held);
    let volume = hour_match::match_named(offers, orders.sales, orders.purchases);
    abroad::renew(held, offers, places);
    volume
}

// What is offered bounds the steps and never ends them (`withdraw-ends` of the rules). That the sum fits is asked. (Lengths: DECISIONS.)
fn step_bound(offers: &[Offer]) -> u32
    requires { sum_by (λ o. o.offered) offers.now < 2 ^ 32 }
    ensures { result ≡ sum (map (λ o. o.offered) offers.now) }
{
    offers.iter().map(|offer| offer.offered).sum()
}

// The withdrawal of an hour: "while a market balance passes its maximum", from the first match, of that volume and these market flows. Most
// hours pass no maximum: they end before the offers at a border are read.
pub fn withdraw(
    offers: &mut [Offer],
    volume: u32,
    orders: Orders<'_>,
    maxima: &[Option<u32>; DIRECTIONS],
    market: &[u32; DIRECTIONS],
) -> Ended
    requires laid { Laid (offers_in offers.old) orders.sales.now orders.purchases.now }
    requires traded { volume ≡ volume_of (offers_in offers.old) }
    requires flows { MarketFlows market.now (offers_in offers.old) }
    ensures { Withdrew (published_in maxima.now) orders.entry.sales.now orders.entry.purchases.now (offers_in offers.old) (offers_in offers.new) result }
{
    if !hour_borders::passed(&hour_borders::excesses(maxima, market)) {
        return Ended { steps: 0, volume };
    }
    let bound = step_bound(offers);
    let mut abroad = Abroad::of(offers);
    let mut volume = volume;
    let mut flows = *market;
    // The count of steps is answered.
    for steps in 0..bound {
        let over = hour_borders::excesses(maxima, &flows);
        if !hour_borders::passed(&over) {
            return Ended { steps, volume };
        }
        volume = step(offers, orders, &mut abroad, &over);
        flows = hour_borders::market_flows(&abroad.offers);
    }
    Ended {
        steps: bound,
        volume,
    }
}
