// The market of one hour: first match, Split, withdrawal (document 01, "Clearing, hour by hour").
#![tactic(auto)]

ghost use Rattle.std.specs.Prelude.{◌≡◌, ◌≤◌, ◌<◌, List, ℕ, get_or};
ghost use Rattle.rules.specs.Lists.{All, Each};
ghost use Rattle.rules.specs.Borders.{Execution};
ghost use Rattle.hour_offers.specs.View.{offers_in};
ghost use Rattle.hour_offers.specs.Sound.{Sound, SoundUnmatched};
ghost use Rattle.hour_borders.specs.Directions.{energies_of};
ghost use Rattle.hour_borders.specs.Flows.{MarketFlows, ExecutionFlows, Small};
ghost use Rattle.withdraw.specs.Steps.{Lowered};
ghost use Rattle.hour_market.specs.Parts.{MarketCleared};

use hour_offers::Offer;
use rules::DIRECTIONS;
use withdraw::Orders;

// What the market of an hour gives beside its offers: maxima, the flows of the last match, steps and price. Two arrays of eight by direction,
// one of what runs there and one of what may, where the session has them so: no direction has a record of its own.
#[derive(Clone, Copy, Debug, PartialEq, Eq)]
pub struct Market {
    pub maxima: [Option<u32>; DIRECTIONS],
    pub flows: [u32; DIRECTIONS],
    pub steps: u32,
    pub price: u32,
}

// The market of an hour: first match, Split, withdrawal. `executions` are the flows of the hour's executions. "Split figures stay those of
// the first match". What an offer has as matched at entry is not looked at. (Lengths: DECISIONS.)
pub fn clear(
    offers: &mut [Offer],
    capacities: &[Option<u32>; DIRECTIONS],
    executions: &[u32; DIRECTIONS],
) -> Market
    requires sound { SoundUnmatched (offers_in offers.old) }
    requires capacities_small { (d : ℕ) → d < 8 → get_or (energies_of capacities.now) d 0 < 2147483648 }
    requires executions_small { Small executions.now }
    ensures market_cleared { (xs : List Execution) → ExecutionFlows executions.now xs
        → MarketCleared (offers_in offers.old) capacities.now xs (offers_in offers.new) result }
    ensures lowered { Each Lowered (offers_in offers.old) (offers_in offers.new) }
    ensures ranges { Sound (offers_in offers.new) }
    ensures within { All (λ o. o.matched ≤ o.offered) (offers_in offers.new) }
    ensures flows { MarketFlows result.flows (offers_in offers.new) }
    ensures flows_small { Small result.flows }
{
    let sales = hour_match::order(false, offers);
    let purchases = hour_match::order(true, offers);
    let volume = hour_match::match_offers(offers, &sales, &purchases);
    let market = hour_borders::market_flows(offers);
    let legacy = hour_borders::legacy_flows(offers);
    let maxima = hour_borders::maxima(capacities, executions, &market, &legacy);
    let orders = Orders {
        sales: &sales,
        purchases: &purchases,
    };
    let end = withdraw::withdraw(offers, volume, orders, &maxima, &market);
    let flows = hour_borders::market_flows(offers);
    let price = hour_match::price_of(offers, &sales, end.volume);
    Market {
        maxima,
        flows,
        steps: end.steps,
        price,
    }
}
