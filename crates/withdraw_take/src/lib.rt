// Steps 3 and 4 of a withdrawal (document 01, "Withdrawal step"): what the group loses.
#![tactic(auto)]

ghost use Rattle.std.specs.Prelude.{◌≡◌, ◌≤◌, if◌then◌else◌, length};
ghost use Rattle.rules.specs.Lists.{All, Each};
ghost use Rattle.rules.specs.Units.{max_energy};
ghost use Rattle.rules.specs.Borders.{kept_energy};
ghost use Rattle.rules.specs.Withdrawal.{in_group, all_deductions, take_from};
ghost use Rattle.hour_offers.specs.View.{offer_in, offers_in};
ghost use Rattle.hour_borders.specs.Directions.{over_in};
ghost use Rattle.withdraw_keep.specs.Change.{Changed};
ghost use Rattle.withdraw_keep.specs.Group.{group_in};
ghost use Rattle.withdraw_take.specs.Given.{gives_in, given_of};

use arrayvec::ArrayVec;
use hour_offers::Offer;
use hour_share::Amount;
use rules::{DIRECTIONS, LODGEMENTS};
use withdraw_keep::Group;

// Whether an offer is of the group.
#[tactic(auto, unfolding(rules::specs::Withdrawal::in_group))]
fn is_inside(group: Group, offer: &Offer) -> bool
    ensures { result ≡ in_group (group_in group) (offer_in offer.now) }
{
    let holder = &offer.holder;
    match group {
        Group::Legacy => holder.legacy,
        Group::AtPrice { purchase, price } => {
            holder.purchase == purchase && !holder.legacy && offer.price == price
        }
    }
}

// Whether an offer gives way in a direction passed. `over` and `group` come one by one: `runs_over` and Share read the one, `is_inside` the other, so
// that a struct of both would be opened in each.
fn gives_way(over: &[u32; DIRECTIONS], group: Group, offer: &Offer) -> bool
    ensures { result ≡ gives_in (group_in group) (over_in over.now) (offer_in offer.now) }
{
    withdraw_keep::runs_over(over, offer) && is_inside(group, offer)
}

// What an offer gives way with, in the direction in which it runs.
fn given(group: Group, offer: &Offer) -> Amount
    ensures { result ≡ given_of (group_in group) (offer_in offer.now) }
{
    let energy = if is_inside(group, offer) {
        offer.matched
    } else {
        0
    };
    hour_borders::amount(&offer.holder, energy)
}

// What remains offered of an offer: where it gives way, "what remains offered is matched less taken".
fn remaining(over: &[u32; DIRECTIONS], group: Group, offer: &Offer, deduction: u32) -> u32
    ensures { result ≡ (if gives_in (group_in group) (over_in over.now) (offer_in offer.now) then kept_energy offer.now.holder.loss offer.now.matched deduction else offer.now.offered) }
{
    if gives_way(over, group, offer) {
        crossing::kept(offer.holder.loss, offer.matched, deduction)
    } else {
        offer.offered
    }
}

// What each offer loses in all directions passed. That offers are at most 128 and in range is asked, here and below, of a slice, which an hour's list and those
// at a border are both lent as.
fn deductions(over: &[u32; DIRECTIONS], group: Group, offers: &[Offer]) -> ArrayVec<u32, LODGEMENTS>
    requires few { length offers.now ≤ 128 }
    requires in_range { All (λ o. o.matched ≤ max_energy) (offers_in offers.now) }
    ensures value { result.items ≡ all_deductions (group_in group) (offers_in offers.now) (over_in over.now) }
    ensures same_length { length result.items ≡ length offers.now }
{
    hour_share::deductions(over, offers, move |offer| given(group, offer))
}

// 3. and 4. Each direction's excess is taken from those that give way in it. (By index: DECISIONS.)
pub fn take_from(offers: &mut [Offer], over: &[u32; DIRECTIONS], group: Group)
    requires few { length offers.old ≤ 128 }
    requires in_range { All (λ o. o.matched ≤ max_energy) (offers_in offers.old) }
    ensures taken { offers_in offers.new ≡ take_from (group_in group) (over_in over.now) (offers_in offers.old) }
    ensures changed { Each Changed (offers_in offers.old) (offers_in offers.new) }
{
    let deductions = deductions(over, group, offers);
    for (i, offer) in offers.iter_mut().enumerate() {
        offer.offered = remaining(over, group, offer, deductions[i]);
    }
}
