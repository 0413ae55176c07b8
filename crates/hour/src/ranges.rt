// Whether the parts of an hour are in their ranges: what `hour_clear::clear` tests first.
ghost use Rattle.std.specs.Prelude.{◌≡◌, ℕ, Bool, map};
ghost use Rattle.std.specs.List.{list_all};
ghost use Rattle.hour_offers.specs.View.{holder_in, offer_in, execution_in};
ghost use Rattle.hour.specs.Ranges.{loss_within, holder_within, offer_within, execution_within, offer_number, execution_number, lodged_within, rises, capacity_within};

use hour_offers::{Execution, Holder, Offer};
use rules::{DIRECTIONS, MAX_ENERGY, MAX_LOSS, MAX_PRICE};

// Whether a holder has no loss, or is a purchase at a border with one that a border can have.
#[tactic(auto, unfolding(crate::specs::Ranges::loss_within))]
fn loss_within(holder: Holder) -> bool
    ensures { result ≡ loss_within (holder_in holder) }
{
    holder.loss == 0 || (holder.purchase && holder.border != 0 && holder.loss <= MAX_LOSS)
}

// Whether a holder's numbers and border are within their ranges, borders going from `first` on, a legacy mark at a border, "(borders 1 to 4 only)", and
// the loss within its range.
#[tactic(auto, unfolding(crate::specs::Ranges::holder_within, crate::specs::Ranges::within))]
fn holder_within(first: u32, holder: Holder) -> bool
    ensures { result ≡ holder_within first (holder_in holder) }
{
    !rules::bad_number(holder.number)
        && !rules::bad_number(holder.unit)
        && (first..=4).contains(&holder.border)
        && !(holder.legacy && holder.border == 0)
        && loss_within(holder)
}

// What stands in an hour's list of lodgements: an offer or an execution.
pub trait Lodged {
    // its lodging number
    ghost number: { Self → ℕ };

    // its numbers, border, price and energy are within their ranges
    ghost within: { Self → Bool };

    fn number(&self) -> u32
        ensures { result ≡ number self.now };

    fn is_within(&self) -> bool
        ensures { result ≡ within self.now };
}

impl Lodged for Offer {
    ghost number = { offer_number };

    ghost within = { λ o. offer_within (offer_in o) };

    fn number(&self) -> u32 {
        self.holder.number
    }

    // "Named energies are 1 to 99,999".
    #[tactic(auto, unfolding(crate::specs::Ranges::offer_within, crate::specs::Ranges::within))]
    fn is_within(&self) -> bool {
        holder_within(0, self.holder)
            && self.price <= MAX_PRICE
            && (1..=MAX_ENERGY).contains(&self.offered)
    }
}

impl Lodged for Execution {
    ghost number = { execution_number };

    ghost within = { λ x. execution_within (execution_in x) };

    fn number(&self) -> u32 {
        self.holder.number
    }

    // "Executions need a border unit."
    #[tactic(auto, unfolding(crate::specs::Ranges::execution_within, crate::specs::Ranges::within))]
    fn is_within(&self) -> bool {
        holder_within(1, self.holder) && (1..=MAX_ENERGY).contains(&self.energy)
    }
}

// Whether each is within its ranges.
fn each_within<L: Lodged>(lodged: &[L]) -> bool
    ensures { result ≡ list_all L.within lodged.now }
{
    lodged.iter().all(|x| x.is_within())
}

// Whether they are by rising lodging number.
fn rise<L: Lodged>(lodged: &[L]) -> bool
    ensures { result ≡ rises (map L.number lodged.now) }
{
    lodged.is_sorted_by(|x, y| x.number() < y.number())
}

// Whether offers, or executions, are by rising lodging number, each within its ranges.
#[tactic(auto, unfolding(crate::specs::Ranges::lodged_within))]
pub fn lodged_within<L: Lodged>(lodged: &[L]) -> bool
    ensures { result ≡ lodged_within L.within L.number lodged.now }
{
    each_within(lodged) && rise(lodged)
}

// Whether a direction's capacity is within its range, where one is published.
#[tactic(auto, unfolding(crate::specs::Ranges::capacity_within))]
fn capacity_within(capacity: &Option<u32>) -> bool
    ensures { result ≡ capacity_within capacity.now }
{
    capacity.is_none_or(|energy| energy <= MAX_ENERGY)
}

// Whether each published capacity is within its range.
pub fn capacities_within(capacities: &[Option<u32>; DIRECTIONS]) -> bool
    ensures { result ≡ list_all capacity_within capacities.now }
{
    capacities.iter().all(|c| capacity_within(c))
}
