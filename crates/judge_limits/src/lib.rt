// The energy of a lodgement by hour, with that of others that are counted, against limits 10, 11, 12 and 15.
#![tactic(auto)]

ghost use Rattle.std.specs.Prelude.{◌≡◌, cond, map, ℕ, ◌+◌, ◌-◌, ◌<◌, ◌≤◌, replicate, get_or, length};
ghost use Rattle.rules.specs.Units.{border_sum, increased, increased_sum};
ghost use Rattle.judge_loads.specs.Loads.{IndicesIn, load_by};
ghost use Rattle.session.specs.Parts.{said};
ghost use Rattle.judge_limits.specs.Limits.{notice_in, line_at, maximum_limit_for, own_limits_for, border_limits_for, first_passed, limit_at};

use answer::Refusal;
use judge_loads::lowest_hour;
use rules::row::Row;
use rules::{DIRECTIONS, HOURS, LAST_BORDER, LOSSES, WHOLE};
use session::units::unit_loss;
use session::{Energies, Notice, Unit};
use std::array;

// Limit 10 by hour: the unit's maximum in each.
pub fn maximum_energies(maximum: u32) -> [u64; HOURS]
    ensures { result ≡ replicate 25 maximum }
{
    [u64::from(maximum); HOURS]
}

// Limit 11 by hour: "without one, the maximum is available". By index: `map` of an array takes it by value, and would copy the notice's.
pub fn available_energies(maximum: u32, notice: &Notice) -> [u64; HOURS]
    ensures { result ≡ cond notice.now.given notice.now.energies (replicate 25 maximum) }
{
    if notice.given {
        return array::from_fn(|h| u64::from(notice.energies[h]));
    }
    maximum_energies(maximum)
}

// "the sum of the two capacities" in each hour.
fn together(exports: &[u32; HOURS], imports: &[u32; HOURS]) -> [u64; HOURS]
    ensures sums { (h : ℕ) → h < 25 → get_or result h 0 ≡ get_or exports.now h 0 + get_or imports.now h 0 }
    ensures long { (length result ≡ 25) × (length exports.now ≡ 25) × (length imports.now ≡ 25) }
{
    array::from_fn(|h| u64::from(exports[h]) + u64::from(imports[h]))
}

// The sum "becomes (sum × (10,000 + l)) / 10,000 rounded down". 10,000 + l is parted into ten thousands, of which a sound session's loss leaves one, and
// a rest: so no product passes 64 bits, whatever loss is read.
fn increased(loss: u32, export: u32, import: u32) -> u64
    ensures { result ≡ increased loss (export + import) }
{
    let sum = u64::from(export) + u64::from(import);
    let times = u64::from(loss / WHOLE) + 1;
    let rest = u64::from(loss % WHOLE);
    sum * times + sum * rest / u64::from(WHOLE)
}

// In each hour. Not inlined: most borders have no loss, and `border_limit` keeps its sums in registers there.
#[inline(never)]
fn increased_together(loss: u32, exports: &[u32; HOURS], imports: &[u32; HOURS]) -> [u64; HOURS]
    ensures sums { (h : ℕ) → h < 25 → get_or result h 0 ≡ increased loss (get_or exports.now h 0 + get_or imports.now h 0) }
    ensures long { (length result ≡ 25) × (length exports.now ≡ 25) × (length imports.now ≡ 25) }
{
    array::from_fn(|h| increased(loss, exports[h], imports[h]))
}

// The sum that is limit 12, by hour: "at a border with both directions published, the sum of the two capacities", by a loss.
#[tactic(auto, using(crate::proofs::BorderLaws::border_laws))]
pub fn border_limit(
    border: u32,
    loss: u32,
    capacities: &[Notice; DIRECTIONS],
) -> Option<[u64; HOURS]>
    ensures { (h : ℕ) → limit_at result h ≡ increased_sum loss (border_sum (map notice_in capacities.now) border h) }
{
    let 1..=LAST_BORDER = border else {
        return None;
    };
    let index = (border as usize - 1) * 2;
    let export = &capacities[index];
    let import = &capacities[index + 1];
    if !export.given || !import.given {
        return None;
    }
    if loss == 0 {
        return Some(together(&export.energies, &import.energies));
    }
    Some(increased_together(loss, &export.energies, &import.energies))
}

// "lessened by them, never below 0" in each hour.
fn less(sums: &[u64; HOURS], rights: &[u32; HOURS]) -> [u64; HOURS]
    ensures left { (h : ℕ) → h < 25 → get_or result h 0 ≡ get_or sums.now h 0 - get_or rights.now h 0 }
    ensures long { (length result ≡ 25) × (length sums.now ≡ 25) × (length rights.now ≡ 25) }
{
    array::from_fn(|h| sums[h].saturating_sub(u64::from(rights[h])))
}

// Limit 12 of a unit by hour: the sum with its loss, "before rights come off"; "An unmarked one's border sum is lessened by them". Where no sum applies
// nothing is lessened.
pub fn unit_line(
    unit: &Unit,
    rights: &Notice,
    capacities: &[Notice; DIRECTIONS],
    losses: &[u32; LOSSES],
) -> Option<[u64; HOURS]>
    ensures { (h : ℕ) → limit_at result h ≡ line_at unit.now rights.now capacities.now losses.now h }
{
    let loss = unit_loss(unit, losses);
    if unit.rights || !rights.given {
        return border_limit(unit.border, loss, capacities);
    }
    let Some(sums) = border_limit(unit.border, loss, capacities) else {
        return None;
    };
    Some(less(&sums, &rights.energies))
}

// A limit by hour, none where it does not apply, and the row that refuses what passes it.
#[derive(Clone, Copy)]
pub struct Limit {
    pub row: Row,
    pub by_hour: Option<[u64; HOURS]>,
}

// "its maximum": all that a default lodgement is judged by, "against 10 only".
#[tactic(auto, unfolding(crate::specs::Limits::maximum_limit_for))]
pub fn maximum_limit(unit: &Unit) -> Limit
    ensures { result ≡ maximum_limit_for unit.now }
{
    Limit {
        row: Row::Maximum,
        by_hour: Some(maximum_energies(unit.maximum)),
    }
}

// The limits that a unit has of its own, in the table's order. Energy is judged by these first: where one is passed, those by the border are
// not laid, which takes longer than the look at them.
#[tactic(auto, unfolding(crate::specs::Limits::own_limits_for))]
pub fn own_limits(unit: &Unit, notice: &Notice) -> [Limit; 2]
    ensures { result ≡ own_limits_for unit.now notice.now }
{
    let available = Limit {
        row: Row::Available,
        by_hour: Some(available_energies(unit.maximum, notice)),
    };
    [maximum_limit(unit), available]
}

// Those that it has by its border, which come after its own. The line is limit 12. The rights are a marked unit's limit, "without a notice they
// are 0".
#[tactic(auto, unfolding(crate::specs::Limits::border_limits_for))]
pub fn border_limits(unit: &Unit, rights: &Notice, line: Option<[u64; HOURS]>) -> [Limit; 2]
    ensures { result ≡ border_limits_for unit.now rights.now line }
{
    let border = Limit {
        row: Row::Border,
        by_hour: line,
    };
    let bought = if !unit.rights {
        None
    } else {
        Some(available_energies(0, rights))
    };
    let bought = Limit {
        row: Row::Rights,
        by_hour: bought,
    };
    [border, bought]
}

// The first limit that is passed, with the lowest hour in which it is. "Places, not numbers, now give the order", and the limits after it are
// not looked at. It asks the same as `lowest_hour`.
pub fn judge_energy(
    limits: &[Limit],
    own: &[u32; HOURS],
    energies: &[Energies],
    others: &[usize],
    hours: usize,
) -> Result<(), Refusal>
    requires { (hours ≤ 25) × IndicesIn energies.now others.now }
    ensures { said result ≡ first_passed limits.now hours own.now (load_by own.now energies.now others.now) }
{
    for limit in limits {
        let Some(by_hour) = &limit.by_hour else {
            continue;
        };
        if let Some(hour) = lowest_hour(own, energies, others, hours, by_hour) {
            return Err(Refusal {
                row: limit.row,
                hour,
            });
        }
    }
    Ok(())
}
