// An hour of the day, from the lodgements accepted at closing that name it.
#![tactic(auto)]

ghost use Rattle.std.specs.Prelude.{◌≡◌, ◌&&◌, ◌≤◌, ◌<◌, ltb, map, length};
ghost use Rattle.rules.specs.Lists.{from};
ghost use Rattle.clear_gather.specs.Built.{unit_among, holder_of, capacity_on, Built};

use arrayvec::ArrayVec;
use hour::Hour;
use hour_offers::{Execution, Holder, Offer};
use rules::{DIRECTIONS, LODGEMENTS, LOSSES};
use session::units::{self, unit_loss};
use session::{Lodgement, Notice, Session, Unit, Verdict};

// The unit with a number among some units; of a number that none has, a unit with nothing, which stands for none in C's arrays.
fn unit_among(units: &[Unit], number: u32) -> Unit
    ensures { result ≡ unit_among units.now number }
{
    match units::holder_of(units, number) {
        Some(found) => found.unit,
        None => session::no_unit(),
    }
}

// Whose a lodgement's energies are.
#[tactic(auto, unfolding(crate::specs::Built::holder_of))]
fn holder_of(units: &[Unit], losses: &[u32; LOSSES], lodgement: &Lodgement) -> Holder
    ensures { result ≡ holder_of units.now losses.now lodgement.now }
{
    let unit = unit_among(units, lodgement.key.unit);
    Holder {
        number: lodgement.number,
        unit: unit.number,
        border: unit.border,
        purchase: unit.purchase,
        legacy: unit.legacy,
        loss: unit_loss(&unit, losses),
    }
}

// The holders of some lodgements, each found once for all hours of the day. (Lengths: DECISIONS.)
pub fn holders_of(
    units: &[Unit],
    losses: &[u32; LOSSES],
    lodgements: &[Lodgement],
) -> ArrayVec<Holder, LODGEMENTS>
    requires { length lodgements.now ≤ 128 }
    ensures { result.items ≡ map (holder_of units.now losses.now) lodgements.now }
{
    let mut holders = ArrayVec::new();
    for lodgement in lodgements {
        holders.push(holder_of(units, losses, lodgement));
    }
    holders
}

// Whether a lodgement is accepted at closing, and names an hour, in which it has some energy.
fn counted(verdict: &Verdict, energy: u32) -> bool
    ensures { result ≡ (verdict.now.accepted && ltb 0 energy) }
{
    verdict.accepted && 0 < energy
}

// The capacity of a direction in the hour at index k: "Absent means no maximum". The direction and the hour are indices of C's arrays.
// (Lengths: DECISIONS.)
#[tactic(auto, unfolding(crate::specs::Built::capacity_on))]
fn capacity_on(notices: &[Notice; DIRECTIONS], k: usize, direction: usize) -> Option<u32>
    requires { (k < 25) × (direction < 8) }
    ensures { result ≡ capacity_on notices.now k direction }
{
    let notice = &notices[direction];
    notice.given.then_some(notice.energies[k])
}

// The capacities of the hour at index k, by direction.
fn capacities_at(notices: &[Notice; DIRECTIONS], k: usize) -> [Option<u32>; DIRECTIONS]
    requires { k < 25 }
    ensures { result ≡ map (capacity_on notices.now k) (from 0 8) }
{
    std::array::from_fn(|direction| capacity_on(notices, k, direction))
}

// The hour at index k, in place of what stood in `hour`: its accepted offers and executions by rising lodging number, and its published capacities.
// `holders` are those of the standing lodgements (`holders_of`), at the index of each, which is also the lodgement's in three arrays of the session, as C
// has them. The hour is lent, since its lists are long to make and to hand on. (Lengths: DECISIONS.)
pub fn gather(s: &Session, holders: &[Holder], k: usize, hour: &mut Hour)
    requires { (length holders.now ≤ 128) × (k < 25) }
    ensures { Built s.now holders.now k hour.new }
{
    hour.offers.clear();
    hour.executions.clear();
    for (i, holder) in holders.iter().enumerate() {
        let energy = s.energies[i].energies[k];
        if !counted(&s.verdicts[i], energy) {
            continue;
        }
        if s.lodgements[i].key.execution {
            hour.executions.push(Execution::new(*holder, energy));
        } else {
            hour.offers
                .push(Offer::new(*holder, s.energies[i].prices[k], energy));
        }
    }
    hour.capacities = capacities_at(&s.capacities, k);
}

// The same, an hour of its own. (Lengths: DECISIONS.)
pub fn hour_at(s: &Session, holders: &[Holder], k: usize) -> Hour
    requires { (length holders.now ≤ 128) × (k < 25) }
    ensures { Built s.now holders.now k result }
{
    let mut hour = Hour::default();
    gather(s, holders, k, &mut hour);
    hour
}
