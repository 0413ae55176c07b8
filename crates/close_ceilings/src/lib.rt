// The ceilings of units by hour: "the ceiling of a unit in an hour is the least of" its limits.
#![tactic(auto)]

ghost use Rattle.std.specs.Prelude.{◌≡◌, [], ◌∷◌, List, ℕ, suc, ◌<◌, ◌≤◌, length, get_or};
ghost use Rattle.rules.specs.Units.{lessened, least_of};
ghost use Rattle.session.specs.declared.Notice.{Notice};
ghost use Rattle.judge_limits.specs.Limits.{limit_at};
ghost use Rattle.close_ceilings.specs.Ceilings.{SumsOf, LinesOf, line_row, line_of, own_in, rights_in, ceiling_in, ceiling_of, CeilingsOf};

use arrayvec::ArrayVec;
use judge_limits::border_limit;
use rules::{BORDERS, DIRECTIONS, HOURS, LAST_BORDER, LOSSES, UNITS};
use session::{Notice, Unit};
use std::array;

// The border sums by border and hour, none where limit 12 does not apply; row 0 is of domestic units.
pub type Sums = [Option<[u64; HOURS]>; BORDERS + 1];

// Those of each side's units: "For a purchase unit the border sum becomes (sum × (10,000 + l)) / 10,000 rounded down".
#[derive(Clone, Copy)]
pub struct Lines {
    pub sales: Sums,
    pub purchases: Sums,
}

// The border sums with losses by border. A loop, and a cast of its index: `map` over the borders' numbers was tried, and its proof did not close, as
// nothing is inferred of a closure that gives an array.
#[tactic(auto, unfolding(rules::specs::Units::loss_of))]
fn sums_of(capacities: &[Notice; DIRECTIONS], losses: &[u32; LOSSES]) -> Sums
    ensures { SumsOf capacities.now losses.now result }
{
    let mut sums = [None; BORDERS + 1];
    for (border, sum) in sums.iter_mut().enumerate() {
        *sum = border_limit(border as u32, losses[border], capacities);
    }
    sums
}

// A sale's are those without a loss.
pub fn lines_of(capacities: &[Notice; DIRECTIONS], losses: &[u32; LOSSES]) -> Lines
    ensures { LinesOf capacities.now losses.now result }
{
    Lines {
        sales: sums_of(capacities, &[0; LOSSES]),
        purchases: sums_of(capacities, losses),
    }
}

// The row of a border. Row 0, that of domestic units, is also for a number above 4: no border has it, and so limit 12 does not apply.
#[tactic(auto, unfolding(crate::specs::Ceilings::line_row))]
fn line_row(border: u32) -> usize
    ensures row { result ≡ line_row border }
    ensures among { result < 5 }
{
    if LAST_BORDER < border {
        return 0;
    }
    border as usize
}

impl Lines {
    // That of a unit: of its border, on its side.
    fn of(&self, unit: &Unit) -> &Option<[u64; HOURS]>
        ensures { result.now ≡ line_of self.now unit.now }
    {
        let row = line_row(unit.border);
        if unit.purchase {
            &self.purchases[row]
        } else {
            &self.sales[row]
        }
    }
}

// The lesser of limits 10 and 11 in the hour at index h: "without one, the maximum is available".
#[tactic(auto, unfolding(crate::specs::Ceilings::own_in))]
fn own_at(maximum: u32, notice: &Notice, h: usize) -> u32
    requires { h < 25 }
    ensures { result ≡ own_in maximum notice.now h }
{
    if notice.given {
        maximum.min(notice.energies[h])
    } else {
        maximum
    }
}

// The rights in the hour at index h: "without a notice they are 0".
#[tactic(auto, unfolding(crate::specs::Ceilings::rights_in))]
fn rights_at(rights: &Notice, h: usize) -> u32
    requires { h < 25 }
    ensures { result ≡ rights_in rights.now h }
{
    if rights.given { rights.energies[h] } else { 0 }
}

// The lesser of a limit and the border sum less what is taken off it, "never below 0". Where there is no sum nothing is lessened.
fn under_line(limit: u32, line: &Option<[u64; HOURS]>, taken: u32, h: usize) -> u32
    requires { h < 25 }
    ensures { result ≡ least_of limit (lessened taken (limit_at line.now (suc h)) ∷ []) }
{
    let Some(sums) = line else {
        return limit;
    };
    let left = sums[h].saturating_sub(u64::from(taken));
    u64::from(limit).min(left) as u32
}

// The least of the limits in the hour at index h. A marked unit's takes in the rights, beside the whole border sum; an unmarked one's border sum
// is lessened by them.
#[tactic(auto, unfolding(crate::specs::Ceilings::ceiling_in))]
fn ceiling_at(
    unit: &Unit,
    notice: &Notice,
    rights: &Notice,
    line: &Option<[u64; HOURS]>,
    h: usize,
) -> u32
    requires { h < 25 }
    ensures { result ≡ ceiling_in unit.now notice.now rights.now line.now h }
{
    let own = own_at(unit.maximum, notice, h);
    let bought = rights_at(rights, h);
    if unit.rights {
        under_line(own.min(bought), line, 0, h)
    } else {
        under_line(own, line, bought, h)
    }
}

// A unit's ceiling by hour.
fn ceilings_at(unit: &Unit, notice: &Notice, rights: &Notice, lines: &Lines) -> [u32; HOURS]
    ensures { (cs : List Notice) (losses : List ℕ) → LinesOf cs losses lines.now → (h : ℕ) → h < 25
        → get_or result h 0 ≡ ceiling_of unit.now notice.now rights.now cs losses h }
{
    let line = lines.of(unit);
    array::from_fn(|h| ceiling_at(unit, notice, rights, line, h))
}

// The ceilings of units by hour. By index: three slices stand side by side. (Lengths: DECISIONS.)
pub fn ceilings_of(
    units: &[Unit],
    notices: &[Notice],
    rights: &[Notice],
    lines: &Lines,
) -> ArrayVec<[u32; HOURS], UNITS>
    requires few { length units.now ≤ 64 }
    requires noticed { length notices.now ≡ length units.now }
    requires with_rights { length rights.now ≡ length units.now }
    ensures same_length { length result.items ≡ length units.now }
    ensures ceilings { (cs : List Notice) (losses : List ℕ) → LinesOf cs losses lines.now → CeilingsOf units.now notices.now rights.now cs losses result.items }
{
    let mut ceilings = ArrayVec::new();
    for (p, unit) in units.iter().enumerate() {
        ceilings.push(ceilings_at(unit, &notices[p], &rights[p], lines));
    }
    ceilings
}
