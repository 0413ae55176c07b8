// Step 1 of a withdrawal (document 01, "Withdrawal step"): offers in a direction passed keep only what is matched.
#![tactic(auto)]

ghost use Rattle.std.specs.Prelude.{◌≡◌, map};
ghost use Rattle.rules.specs.Lists.{Each};
ghost use Rattle.rules.specs.Withdrawal.{keep_matched, runs_among};
ghost use Rattle.hour_offers.specs.View.{offer_in, offers_in};
ghost use Rattle.hour_borders.specs.Directions.{over_in};
ghost use Rattle.withdraw_keep.specs.Change.{Changed};

use hour_offers::Offer;
use rules::DIRECTIONS;

// Which offers give way in a step, which step 2 chooses: the legacy offers, or those of one side at a price, not legacy.
#[derive(Clone, Copy, Debug, PartialEq, Eq)]
pub enum Group {
    Legacy,
    AtPrice { purchase: bool, price: u32 },
}

// Whether an offer runs in a direction passed. A domestic one runs in none.
pub fn runs_over(over: &[u32; DIRECTIONS], offer: &Offer) -> bool
    ensures { result ≡ runs_among (over_in over.now) (offer_in offer.now) }
{
    match hour_borders::own_direction(&offer.holder) {
        Some(d) => 0 < over[d],
        None => false,
    }
}

// What an offer keeps offered.
#[tactic(auto, unfolding(rules::specs::Withdrawal::keep_matched, rules::specs::Match::with_energies))]
fn kept(offer: &Offer, over: &[u32; DIRECTIONS]) -> u32
    ensures { result ≡ (keep_matched (over_in over.now) (offer_in offer.now)).offered }
{
    if runs_over(over, offer) && !offer.holder.legacy {
        offer.matched
    } else {
        offer.offered
    }
}

// 1. "On each such border, offers in that direction, not legacy, keep only what is matched."
pub fn keep_matched(offers: &mut [Offer], over: &[u32; DIRECTIONS])
    ensures kept { offers_in offers.new ≡ map (keep_matched (over_in over.now)) (offers_in offers.old) }
    ensures changed { Each Changed (offers_in offers.old) (offers_in offers.new) }
{
    for offer in offers.iter_mut() {
        offer.offered = kept(offer, over);
    }
}
