// Energy at the borders in one hour: directions, flows, maxima, excesses (document 01, "Split" and "Withdrawal step").
#![tactic(auto)]

ghost use Rattle.std.specs.Prelude.{◌≡◌, List, Option, Some, map, ℕ, ◌≤◌, ◌<◌, get_or, length, ltb};
ghost use Rattle.std.specs.List.{list_any};
ghost use Rattle.std.specs.Fn.{FnReturnsAt};
ghost use Rattle.rules.specs.Lists.{All, sum_of};
ghost use Rattle.rules.specs.Units.{max_energy, direction};
ghost use Rattle.rules.specs.Match.{Offer as RuleOffer};
ghost use Rattle.rules.specs.Borders.{Execution as RuleExecution};
ghost use Rattle.rules.specs.Split.{maximum_of};
ghost use Rattle.rules.specs.Withdrawal.{overruns};
ghost use Rattle.hour_offers.specs.View.{offers_in, executions_in};
ghost use Rattle.hour_offers.specs.Sound.{ExecutionInRange};
ghost use Rattle.hour_share.specs.declared.Amount.{Amount};
ghost use Rattle.hour_share.specs.Deductions.{energy_in};
ghost use Rattle.hour_borders.specs.Directions.{own_direction, energies_of, published_in, over_in};
ghost use Rattle.hour_borders.specs.Flows.{amount_of, Countable, MarketFlows, LegacyFlows, ExecutionFlows, Small};
ghost use Rattle.hour_borders.specs.Limits.{across_of, maximum_in, excess_over, excess_in, non_empty};

use hour_offers::{Execution, Holder, Offer};
use hour_share::Amount;
use hour_split::Flow;
use rules::{DIRECTIONS, LAST_BORDER};

// A direction's index in an array of eight: export of border 1, import of border 1, export of border 2, .. That the border is 1 to 4 is asked: a query
// has refused every other one (row 5), and who has a border 0 says by itself what a domestic unit means there.
#[tactic(auto, unfolding(rules::specs::Units::direction))]
pub fn direction(border: u32, export: bool) -> usize
    requires border { (0 < border) × (border < 5) }
    ensures index { result ≡ direction border export }
    ensures within { result < 8 }
{
    // A cast, since `usize` has no `From<u32>`.
    (border - 1) as usize * 2 + usize::from(!export)
}

// The direction in which a holder's energy runs, a purchase being an export. That of a domestic holder runs in none.
pub fn own_direction(holder: &Holder) -> Option<usize>
    ensures own { result ≡ own_direction holder.now.border holder.now.purchase }
    ensures within { (d : ℕ) → result ≡ Some d → d < 8 }
{
    if (1..=LAST_BORDER).contains(&holder.border) {
        Some(direction(holder.border, holder.purchase))
    } else {
        None
    }
}

// The other direction of the same border: "For import, use the import capacity and legacy imports with B and M negated."
pub fn across(d: usize) -> usize
    requires { d < 8 }
    ensures index { result ≡ across_of d }
    ensures within { result < 8 }
{
    if d % 2 == 0 { d + 1 } else { d - 1 }
}

// What an energy of a holder counts for at its border, in the direction in which it runs.
#[tactic(auto, unfolding(rules::specs::Borders::at_border))]
pub fn amount(holder: &Holder, energy: u32) -> Amount
    ensures { result ≡ amount_of holder.now energy }
{
    Amount {
        direction: own_direction(holder),
        energy: crossing::figure(holder.loss, energy),
    }
}

// The energy of some holders by direction: `of` says what each of them has, and in which direction it runs.
// (Lengths: DECISIONS.)
fn flows<T, F: Fn(&T) -> Amount>(holders: &[T], of: F) -> [u32; DIRECTIONS]
    requires callable { F.IsAlwaysCallable of }
    requires few { length holders.now ≤ 128 }
    requires countable { All (λ x. (a : Amount) → FnReturnsAt F.Fn of x a → Countable a) holders.now }
    ensures sums { (amount : T → Amount)
        → All (λ x. (a : Amount) → FnReturnsAt F.Fn of x a → a ≡ amount x) holders.now
        → (d : ℕ) → get_or result d 0 ≡ sum_of (energy_in d) (map amount holders.now) }
    ensures small { Small result }
{
    let mut flows = [0u32; DIRECTIONS];
    for x in holders {
        let a = of(x);
        if let Some(d) = a.direction {
            flows[d] += a.energy;
        }
    }
    flows
}

// What is matched, by direction. Three functions over `flows`, market, legacy and executions: each says what it gives in the rules' words for a
// list of its own, which one of a trait could not say more plainly. (Lengths: DECISIONS.)
pub fn market_flows(offers: &[Offer]) -> [u32; DIRECTIONS]
    requires few { length offers.now ≤ 128 }
    requires in_range { All (λ o. o.matched ≤ max_energy) (offers_in offers.now) }
    ensures flows { MarketFlows result (offers_in offers.now) }
    ensures small { Small result }
{
    flows(offers, |o| amount(&o.holder, o.matched))
}

// "L matched legacy exports", and imports.
pub fn legacy_flows(offers: &[Offer]) -> [u32; DIRECTIONS]
    requires few { length offers.now ≤ 128 }
    requires in_range { All (λ o. o.matched ≤ max_energy) (offers_in offers.now) }
    ensures flows { LegacyFlows result (offers_in offers.now) }
    ensures small { Small result }
{
    flows(offers, |o| {
        amount(&o.holder, if o.holder.legacy { o.matched } else { 0 })
    })
}

// The executions' energy, by direction.
pub fn execution_flows(executions: &[Execution]) -> [u32; DIRECTIONS]
    requires few { length executions.now ≤ 128 }
    requires in_range { All ExecutionInRange (executions_in executions.now) }
    ensures flows { ExecutionFlows result (executions_in executions.now) }
    ensures small { Small result }
{
    flows(executions, |x| amount(&x.holder, x.energy))
}

// What runs in the direction at an index, and against it.
fn flow_at(flows: &[u32; DIRECTIONS], d: usize) -> Flow
    requires { d < 8 }
    ensures along { result.along ≡ get_or flows.now d 0 }
    ensures against { result.against ≡ get_or flows.now (across_of d) 0 }
{
    Flow {
        along: flows[d],
        against: flows[across(d)],
    }
}

// The market maximum of the direction at an index. "A direction without capacity has no maximum". The index is a number, and the flows are
// arrays of eight as the session has them: neither type tells that the index is one of theirs, or that flows are small
// enough to be added, and a type for either would be opened at each of the session's arrays. Split's own function has the two of a direction as
// `Flow`s, so that the three kinds of flows come together here alone.
fn maximum_at(
    d: usize,
    capacity: Option<u32>,
    executions: &[u32; DIRECTIONS],
    market: &[u32; DIRECTIONS],
    legacy: u32,
) -> Option<u32>
    requires index { d < 8 }
    requires capacity_small { (c : ℕ) → capacity ≡ Some c → c < 2147483648 }
    requires executions_small { Small executions.now }
    requires market_small { Small market.now }
    ensures { result ≡ maximum_in capacity executions.now market.now legacy d }
{
    let capacity = capacity?;
    Some(hour_split::market_maximum(capacity, flow_at(executions, d), flow_at(market, d), legacy))
}

// "Market export maximum" of each border, and its mirror, from the flows of the first match.
pub fn maxima(
    capacities: &[Option<u32>; DIRECTIONS],
    executions: &[u32; DIRECTIONS],
    market: &[u32; DIRECTIONS],
    legacy: &[u32; DIRECTIONS],
) -> [Option<u32>; DIRECTIONS]
    requires capacities_small { Small (energies_of capacities.now) }
    requires executions_small { Small executions.now }
    requires market_small { Small market.now }
    ensures split { (first : List RuleOffer) (xs : List RuleExecution)
        → ExecutionFlows executions.now xs
        → MarketFlows market.now first
        → LegacyFlows legacy.now first
        → published_in result ≡ map (maximum_of first xs) (published_in capacities.now) }
{
    let mut maxima = [None; DIRECTIONS];
    // By index: d is the direction, whose place is the same in each array, and which names the one across from it.
    for d in 0..DIRECTIONS {
        maxima[d] = maximum_at(d, capacities[d], executions, market, legacy[d]);
    }
    maxima
}

// How far a market flow passes a maximum: "the overrun being the excess".
fn excess_over(maximum: Option<u32>, market: Flow) -> u32
    ensures { result ≡ excess_over maximum market.along market.against }
{
    match maximum {
        Some(m) => market.net().saturating_sub(m),
        None => 0,
    }
}

// The excess of each published direction over its maximum, 0 elsewhere.
pub fn excesses(maxima: &[Option<u32>; DIRECTIONS], market: &[u32; DIRECTIONS]) -> [u32; DIRECTIONS]
    ensures result_value { (os : List RuleOffer) → MarketFlows market.now os → over_in result ≡ overruns (published_in maxima.now) os }
    ensures by_index { (d : ℕ) → d < 8 → get_or result d 0 ≡ excess_in maxima.now market.now d }
{
    let mut over = [0u32; DIRECTIONS];
    // By index: d is the direction, as above.
    for d in 0..DIRECTIONS {
        over[d] = excess_over(maxima[d], flow_at(market, d));
    }
    over
}

// Whether one of some energies is above 0.
fn any_left(energies: &[u32]) -> bool
    ensures { result ≡ list_any (λ e. ltb 0 e) energies.now }
{
    energies.iter().any(|e| 0 < *e)
}

// Whether "a market balance passes its maximum".
pub fn passed(over: &[u32; DIRECTIONS]) -> bool
    ensures { result ≡ non_empty (over_in over.now) }
{
    any_left(over)
}
