// Whether a session can have the units of an hour's lodgements. Both kinds stand in one list, offers first.
ghost use Rattle.std.specs.Prelude.{◌≡◌, ◌≤◌, ◌+◌, ◌^◌, ◌++◌, ◌<◌, cond, eqb, map, length};
ghost use Rattle.std.specs.List.{list_any, sum_by};
ghost use Rattle.rules.specs.Lists.{All, any};
ghost use Rattle.rules.specs.Units.{passes};
ghost use Rattle.hour_offers.specs.View.{execution_in, executions_in};
ghost use Rattle.hour_offers.specs.Sound.{ExecutionInRange};
ghost use Rattle.hour_borders.specs.Directions.{published_in};
ghost use Rattle.hour.specs.View.{energy_among, fresh_in, hour_in};
ghost use Rattle.hour.specs.Units.{lodgement_of, lodgements_of, line_in, any_pair, last_ones, same_unit, other_unit, other_loss, clash, beyond, is_over, lodgements_possible};
ghost use Rattle.hour.specs.Ready.{HourInRange, units_possible};

use crate::Hour;
use arrayvec::ArrayVec;
use hour_offers::{Execution, Offer};
use rules::{DIRECTIONS, LODGEMENTS, MAX_ENERGY, UNITS};

// Offers as executions are: a holder and an energy. By a loop: `extend` would bring a `Result` to let go. (Lengths: DECISIONS.)
fn as_lodgements(offers: &[Offer]) -> ArrayVec<Execution, LODGEMENTS>
    requires { length offers.now ≤ 128 }
    ensures lodgements { executions_in result.items ≡ map lodgement_of (map fresh_in offers.now) }
    ensures same_length { length result.items ≡ length offers.now }
{
    let mut lodgements = ArrayVec::new();
    for offer in offers {
        lodgements.push(Execution {
            holder: offer.holder,
            energy: offer.offered,
        });
    }
    lodgements
}

// Executions put behind an hour's other lodgements. By a loop, as above: `try_extend_from_slice` would bring a `Result` too.
fn add(executions: &[Execution], lodgements: &mut ArrayVec<Execution, LODGEMENTS>)
    requires { length lodgements.old.items + length executions.now ≤ 128 }
    ensures { lodgements.new.items ≡ lodgements.old.items ++ executions.now }
{
    for execution in executions {
        lodgements.push(*execution);
    }
}

// Whether two lodgements have one unit's number and two units' border, side or mark.
#[tactic(auto, unfolding(crate::specs::Units::other_unit))]
fn other_unit(x: &Execution, y: &Execution) -> bool
    ensures { result ≡ other_unit (execution_in x.now) (execution_in y.now) }
{
    let (a, b) = (&x.holder, &y.holder);
    a.unit == b.unit && (a.border != b.border || a.purchase != b.purchase || a.legacy != b.legacy)
}

// Whether two lodgements have one border and side and two losses: "Each border 1 to 4 gets a loss l".
#[tactic(auto, unfolding(crate::specs::Units::other_loss))]
fn other_loss(x: &Execution, y: &Execution) -> bool
    ensures { result ≡ other_loss (execution_in x.now) (execution_in y.now) }
{
    let (a, b) = (&x.holder, &y.holder);
    a.border == b.border && a.purchase == b.purchase && a.loss != b.loss
}

// Whether a session cannot have two lodgements together.
#[tactic(auto, unfolding(crate::specs::Units::clash))]
fn clash(x: &Execution, y: &Execution) -> bool
    ensures { result ≡ clash (execution_in x.now) (execution_in y.now) }
{
    x.holder.number == y.holder.number || other_unit(x, y) || other_loss(x, y)
}

// Whether a lodgement clashes with one of the others.
fn clashes(x: &Execution, others: &[Execution]) -> bool
    ensures { result ≡ list_any (λ y. clash (execution_in x.now) (execution_in y)) others.now }
{
    others.iter().any(|y| clash(x, y))
}

// Whether two of some lodgements clash. By a loop: no iterator gives each element with those behind it.
fn any_clash(lodgements: &[Execution]) -> bool
    ensures { result ≡ any_pair clash (executions_in lodgements.now) }
{
    let mut left = lodgements;
    while let Some((x, behind)) = left.split_first() {
        if clashes(x, behind) {
            return true;
        }
        left = behind;
    }
    false
}

// Whether one of the others is of a lodgement's unit.
#[tactic(auto, unfolding(crate::specs::Units::same_unit))]
fn stands_among(x: &Execution, others: &[Execution]) -> bool
    ensures { result ≡ list_any (λ y. same_unit (execution_in x.now) (execution_in y)) others.now }
{
    others.iter().any(|y| x.holder.unit == y.holder.unit)
}

// How many units some lodgements are of: each is counted at its last one. By a loop, as in `any_clash`.
fn count_units(lodgements: &[Execution]) -> usize
    requires { length lodgements.now ≤ 128 }
    ensures { result ≡ length (last_ones same_unit (executions_in lodgements.now)) }
{
    let mut left = lodgements;
    let mut count = 0;
    while let Some((x, behind)) = left.split_first() {
        if !stands_among(x, behind) {
            count += 1;
        }
        left = behind;
    }
    count
}

// A lodgement's energy, if it is the unit's.
fn own(x: &Execution, unit: u32) -> u32
    ensures { result ≡ cond (eqb x.now.holder.unit unit) x.now.energy 0 }
{
    if x.holder.unit == unit { x.energy } else { 0 }
}

// A unit's energy among some lodgements. That it fits is asked. (Lengths: DECISIONS.)
fn energy_of(lodgements: &[Execution], unit: u32) -> u32
    requires { sum_by (λ x. cond (eqb x.holder.unit unit) x.energy 0) lodgements.now < 2 ^ 32 }
    ensures { result ≡ sum_by (λ x. cond (eqb x.holder.unit unit) x.energy 0) lodgements.now }
{
    lodgements.iter().map(|x| own(x, unit)).sum()
}

// A direction's capacity. Only borders 1 to 4 have directions.
fn capacity(capacities: &[Option<u32>; DIRECTIONS], border: u32, export: bool) -> Option<u32>
    ensures { result ≡ energy_among (published_in capacities.now) border export }
{
    match border {
        1..=4 => capacities[hour_borders::direction(border, export)],
        _ => None,
    }
}

// Whether a figure passes "at a border with both directions published, the sum of the two capacities" (limit 12). What is left of it
// above the one is compared with the other, since the type of an option in an array does not tell that two can be added.
#[tactic(auto, unfolding(crate::specs::Units::line_in, crate::specs::Units::both_of, rules::specs::Units::passes), using(crate::proofs::LineLaws::sum_above))]
fn passes_line(capacities: &[Option<u32>; DIRECTIONS], border: u32, figure: u32) -> bool
    ensures { result ≡ passes figure (line_in (published_in capacities.now) border) }
{
    let Some(export) = capacity(capacities, border, true) else {
        return false;
    };
    let Some(import) = capacity(capacities, border, false) else {
        return false;
    };
    export < figure && import < figure - export
}

// Whether a lodgement's unit has more than any unit of its border and loss can have. An energy passes "(sum × (10,000 + l)) / 10,000 rounded down" exactly
// where its figure passes the sum, and for that 32 bits are enough.
fn is_over(capacities: &[Option<u32>; DIRECTIONS], lodgements: &[Execution], x: &Execution) -> bool
    requires few { length lodgements.now ≤ 128 }
    requires in_range { All ExecutionInRange (executions_in lodgements.now) }
    ensures { result ≡ is_over (published_in capacities.now) (executions_in lodgements.now) (execution_in x.now) }
{
    let energy = energy_of(lodgements, x.holder.unit);
    let figure = crossing::figure(x.holder.loss, energy);
    MAX_ENERGY < energy || passes_line(capacities, x.holder.border, figure)
}

// Whether the unit of one of some lodgements has more than it can have.
fn any_over(capacities: &[Option<u32>; DIRECTIONS], lodgements: &[Execution]) -> bool
    requires few { length lodgements.now ≤ 128 }
    requires in_range { All ExecutionInRange (executions_in lodgements.now) }
    ensures { result ≡ list_any (λ x. is_over (published_in capacities.now) (executions_in lodgements.now) (execution_in x)) lodgements.now }
{
    lodgements
        .iter()
        .any(|x| is_over(capacities, lodgements, x))
}

// The lodgements of an hour, offers first.
#[tactic(auto, unfolding(crate::specs::Units::lodgements_of, crate::specs::View::hour_in))]
fn lodgements_of(h: &Hour) -> ArrayVec<Execution, LODGEMENTS>
    requires { h.now.offers.count + h.now.executions.count ≤ 128 }
    ensures { executions_in result.items ≡ lodgements_of (hour_in h.now) }
{
    let mut lodgements = as_lodgements(h.offers.as_slice());
    add(h.executions.as_slice(), &mut lodgements);
    lodgements
}

// Whether no two of some lodgements are of one unit.
fn units_differ(lodgements: &[Execution]) -> bool
    requires { length lodgements.now ≤ 128 }
    ensures { result ≡ eqb (length (last_ones same_unit (executions_in lodgements.now))) (length (executions_in lodgements.now)) }
{
    count_units(lodgements) == lodgements.len()
}

// Whether a session can have the units of some lodgements.
#[tactic(auto, unfolding(crate::specs::Units::lodgements_possible), using(crate::proofs::LineLaws::over_each))]
fn lodgements_possible(capacities: &[Option<u32>; DIRECTIONS], lodgements: &[Execution]) -> bool
    requires few { length lodgements.now ≤ 128 }
    requires in_range { All ExecutionInRange (executions_in lodgements.now) }
    ensures { result ≡ lodgements_possible (published_in capacities.now) (executions_in lodgements.now) }
{
    count_units(lodgements) <= UNITS && !any_clash(lodgements) && !any_over(capacities, lodgements)
}

// Whether a session can have the units of an hour that is in its ranges (`UnitsPossible` of specs/Ready.antt).
#[tactic(auto, unfolding(crate::specs::Ready::units_possible, crate::specs::View::hour_in))]
pub fn units_possible(h: &Hour) -> bool
    requires { HourInRange h.now }
    ensures { result ≡ units_possible h.now }
{
    units_differ(&as_lodgements(h.offers.as_slice()))
        && lodgements_possible(&h.capacities, &lodgements_of(h))
}
