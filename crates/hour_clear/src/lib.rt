// One hour's clearing (document 01, "Clearing, hour by hour").
#![tactic(auto)]

ghost use Rattle.std.specs.Prelude.{◌≡◌, ◌≤◌, Some, None, cond, map, length};
ghost use Rattle.hour_offers.specs.View.{offers_in};
ghost use Rattle.hour.specs.Ready.{figures_of, figures_in_range};
ghost use Rattle.listed.specs.View.{listed};
ghost use Rattle.hour.specs.View.{fresh_in, padded};

use hour::{Figures, Hour};
use hour_offers::{Execution, Offer};
use listed::Listed;
use rules::LODGEMENTS;

// Offers before their hour's first match, in place of what stood in a list. (Lengths: DECISIONS.)
fn fresh(offers: &[Offer], fresh: &mut Listed<Offer, LODGEMENTS>)
    requires { length offers.now ≤ 128 }
    ensures fresh { offers_in (listed fresh.new) ≡ map fresh_in offers.now }
    ensures count { fresh.new.count ≡ length offers.now }
{
    fresh.clear();
    for offer in offers {
        fresh.push(Offer::new(offer.holder, offer.price, offer.offered));
    }
}

// Executions before their hour's cut, likewise.
fn uncut(executions: &[Execution], uncut: &mut Listed<Execution, LODGEMENTS>)
    requires { length executions.now ≤ 128 }
    ensures uncut { listed uncut.new ≡ executions.now }
    ensures count { uncut.new.count ≡ length executions.now }
{
    uncut.clear();
    for execution in executions {
        uncut.push(*execution);
    }
}

// An hour of which every part is in its range cleared into some figures: its market, then the cut of its executions. They are the rules' figures where
// it is one, and where it is not nothing is said of them: enough for the hours of a session, which are all ready, and quicker to test. The figures
// are lent, whatever stood in them, and what stood behind their lists stays: they are long, and to make and hand on new ones took a quarter of a quiet day's time.
pub fn clear_into(h: &Hour, figures: &mut Figures) -> bool
    ensures { cond result (Some (padded figures.new)) None ≡ figures_in_range h.now }
{
    if hour::in_range(h) {
        fresh(h.offers.as_slice(), &mut figures.offers);
        uncut(h.executions.as_slice(), &mut figures.executions);
        let before = hour_borders::execution_flows(figures.executions.as_slice());
        let offers = &mut figures.offers.items[..figures.offers.count];
        let market = hour_market::clear(offers, &h.capacities, &before);
        let executions = &mut figures.executions.items[..figures.executions.count];
        let bilateral = hour_cut::cut(executions, &h.capacities, &market.flows, &before);
        figures.maxima = market.maxima;
        figures.market = market.flows;
        figures.bilateral = bilateral;
        figures.steps = market.steps;
        figures.price = market.price;
        true
    } else {
        false
    }
}

// The same, into figures of its own, with nothing behind their lists.
#[tactic(auto, unfolding(hour::specs::View::padded))]
pub fn clear_in_range(h: &Hour) -> Option<Figures>
    ensures { result ≡ figures_in_range h.now }
{
    let mut figures = Figures::default();
    if clear_into(h, &mut figures) {
        figures.offers.pad(Offer::default());
        figures.executions.pad(Execution::default());
        Some(figures)
    } else {
        None
    }
}

// An hour cleared: the rules' figures where it is one that a session can hold, and none where it is not.
pub fn clear(h: &Hour) -> Option<Figures>
    ensures { result ≡ figures_of h.now }
{
    if hour::ready(h) {
        clear_in_range(h)
    } else {
        None
    }
}
