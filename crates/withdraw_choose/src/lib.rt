// Step 2 of a withdrawal (document 01, "Withdrawal step"): which offers give way.
#![tactic(auto)]

ghost use Rattle.std.specs.Prelude.{◌≡◌, ◌^◌, ◌<◌, ◌&&◌, not, cond, min, max, true, false, sum, map, filter, nat_lt};
ghost use Rattle.std.specs.List.{sum_by, reduce};
ghost use Rattle.rules.specs.Withdrawal.{group_of};
ghost use Rattle.hour_offers.specs.View.{offer_in, offers_in};
ghost use Rattle.hour_borders.specs.Directions.{over_in};
ghost use Rattle.withdraw_keep.specs.Abroad.{abroad_of};
ghost use Rattle.withdraw_keep.specs.Group.{group_in};
ghost use Rattle.withdraw_choose.specs.Prices.{priced_of};

use hour_offers::Offer;
use rules::DIRECTIONS;
use withdraw_keep::Group;

// Whether an offer is "among matched, non-legacy offers there in the direction passed", of one side.
fn is_priced(purchase: bool, over: &[u32; DIRECTIONS], offer: &Offer) -> bool
    ensures { result ≡ priced_of purchase (over_in over.now) (offer_in offer.now) }
{
    let holder = &offer.holder;
    holder.purchase == purchase
        && 0 < offer.matched
        && !holder.legacy
        && withdraw_keep::runs_over(over, offer)
}

// 2. "the lowest purchase price" among these. Each price has a chain of its own, as C and V' have: one function with closures for the test
// and the choice would promise more of the closures than the chains are long.
fn lowest_purchase_price(offers: &[Offer], over: &[u32; DIRECTIONS]) -> Option<u32>
    ensures { result ≡ reduce min (map (λ o. o.price) (filter (λ o. priced_of true (over_in over.now) (offer_in o)) offers.now)) }
{
    offers
        .iter()
        .filter(|offer| is_priced(true, over, offer))
        .map(|offer| offer.price)
        .min()
}

// "and the highest sale price".
fn highest_sale_price(offers: &[Offer], over: &[u32; DIRECTIONS]) -> Option<u32>
    ensures { result ≡ reduce max (map (λ o. o.price) (filter (λ o. priced_of false (over_in over.now) (offer_in o)) offers.now)) }
{
    offers
        .iter()
        .filter(|offer| is_priced(false, over, offer))
        .map(|offer| offer.price)
        .max()
}

// What an offer has matched, where it counts. A sum of what each counts is how the contracts below say it; that it fits is
// asked. (Lengths: DECISIONS.)
fn counted(counts: bool, matched: u32) -> u32
    ensures { result ≡ cond counts matched 0 }
{
    if counts { matched } else { 0 }
}

// "C is all matched purchases in the hour below the first".
fn purchases_below(price: u32, offers: &[Offer]) -> u32
    requires { sum_by (λ o. cond (o.holder.purchase && nat_lt o.price price) o.matched 0) offers.now < 2 ^ 32 }
    ensures { result ≡ sum (map (λ o. cond (o.holder.purchase && nat_lt o.price price) o.matched 0) offers.now) }
{
    offers
        .iter()
        .map(|offer| counted(offer.holder.purchase && offer.price < price, offer.matched))
        .sum()
}

// "V' all matched sales above the second."
fn sales_above(price: u32, offers: &[Offer]) -> u32
    requires { sum_by (λ o. cond (not o.holder.purchase && nat_lt price o.price) o.matched 0) offers.now < 2 ^ 32 }
    ensures { result ≡ sum (map (λ o. cond (not o.holder.purchase && nat_lt price o.price) o.matched 0) offers.now) }
{
    offers
        .iter()
        .map(|offer| counted(!offer.holder.purchase && price < offer.price, offer.matched))
        .sum()
}

// "With both prices, purchases go if C ≤ V', else sales; with one, its side goes"; "with neither price", legacy offers. `abroad` is a cache:
// those of the offers that are at a border, which the caller keeps from step to step. Only these run in a direction passed, so the prices are
// looked for among them alone.
pub fn choose(offers: &[Offer], abroad: &[Offer], over: &[u32; DIRECTIONS]) -> Group
    requires fits { sum_by (λ o. o.matched) offers.now < 2 ^ 32 }
    requires abroad { offers_in abroad.now ≡ abroad_of (offers_in offers.now) }
    ensures { group_in result ≡ group_of (over_in over.now) (offers_in offers.now) }
{
    let lowest = lowest_purchase_price(abroad, over);
    let highest = highest_sale_price(abroad, over);
    match (lowest, highest) {
        (None, None) => Group::Legacy,
        (Some(price), None) => Group::AtPrice {
            purchase: true,
            price,
        },
        (None, Some(price)) => Group::AtPrice {
            purchase: false,
            price,
        },
        (Some(lowest), Some(highest)) => {
            if purchases_below(lowest, offers) <= sales_above(highest, offers) {
                Group::AtPrice {
                    purchase: true,
                    price: lowest,
                }
            } else {
                Group::AtPrice {
                    purchase: false,
                    price: highest,
                }
            }
        }
    }
}
