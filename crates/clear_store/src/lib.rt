// The figures of an hour as the session keeps them.
#![tactic(auto)]

mod portions;
pub mod unit_slots;

ghost use Rattle.std.specs.Prelude.{◌≡◌, ◌≤◌, ◌<◌, ◌+◌, ◌^◌, ℕ, map, length, unwrap_or};
ghost use Rattle.std.specs.List.{sum_by};
ghost use Rattle.std.specs.Fn.{FnReturnsAt};
ghost use Rattle.rules.specs.Lists.{All};
ghost use Rattle.rules.specs.Units.{max_energy};
ghost use Rattle.session.specs.Laid.{pad};
ghost use Rattle.listed.specs.View.{listed};
ghost use Rattle.hour.specs.View.{figures_in, figures_as, padded};
ghost use Rattle.clear_store.specs.Slots.{energy_of, energy_in, Kept};
ghost use Rattle.clear_store.specs.Shown.{cleared_as};

use crate::portions::{Portion, Slots};
use crate::unit_slots::{SLOTS, UnitSlots};
use arrayvec::ArrayVec;
use hour::Figures;
use rules::{DIRECTIONS, UNITS};
use session::{HourFigures, Unit};

impl Portion {
    // What a unit has of it.
    #[tactic(auto, unfolding(crate::specs::Slots::energy_of))]
    fn energy_of(&self, unit: u32) -> u32
        ensures { result ≡ energy_of unit self.now }
    {
        if self.unit == unit { self.energy } else { 0 }
    }
}

// What a unit has of some portions.
fn energy_among(unit: u32, portions: &[Portion]) -> u32
    requires { sum_by (energy_of unit) portions.now < 2 ^ 32 }
    ensures { result ≡ sum_by (energy_of unit) portions.now }
{
    portions.iter().map(|portion| portion.energy_of(unit)).sum()
}

impl<'a> Slots<'a> {
    fn new(table: &'a UnitSlots) -> Slots<'a>
        ensures none { (u : ℕ) → energy_in u result ≡ 0 }
        ensures kept { Kept 0 result }
    {
        let others = ArrayVec::new();
        Slots {
            table,
            held: [Portion { unit: 0, energy: 0 }; SLOTS],
            others,
        }
    }

    // A portion more: at its unit's slot where the unit has it or nothing stands there, or else beside. A slot with energy 0 is empty: it adds
    // nothing to a sum, so an Option would say what the sum says.
    fn add(&mut self, portion: Portion)
        requires kept { Kept 127 self.old }
        requires ranged { portion.energy ≤ max_energy }
        ensures sums { (u : ℕ) → energy_in u self.new ≡ energy_in u self.old + energy_of u portion }
        ensures kept_after { (k : ℕ) → Kept k self.old → Kept (k + 1) self.new }
    {
        let slot = self.table.slot(portion.unit);
        let held = self.held[slot];
        if held.unit == portion.unit || held.energy == 0 {
            self.held[slot] = Portion {
                unit: portion.unit,
                energy: held.energy + portion.energy,
            };
        } else {
            self.others.push(portion);
        }
    }

    // What some holders have: `of` says which unit each one's energy is, and how much it is. No type tells that `of` may be called always, nor
    // that a slice has at most 128 elements.
    fn of<T, F: Fn(&T) -> Portion>(table: &'a UnitSlots, holders: &[T], of: F) -> Slots<'a>
        requires callable { F.IsAlwaysCallable of }
        requires few { length holders.now ≤ 128 }
        requires ranged { All (λ x. (p : Portion) → FnReturnsAt F.Fn of x p → p.energy ≤ max_energy) holders.now }
        ensures { (portion : T → Portion)
            → All (λ x. (p : Portion) → FnReturnsAt F.Fn of x p → p ≡ portion x) holders.now
            → (u : ℕ) → energy_in u result ≡ sum_by (energy_of u) (map portion holders.now) }
    {
        let mut slots = Slots::new(table);
        for x in holders {
            slots.add(of(x));
        }
        slots
    }

    // "a unit's matched [..] and executed energy in an hour": what stands at its slot, and beside.
    fn energy_of(&self, unit: u32) -> u32
        ensures { result ≡ energy_in unit self.now }
    {
        let held = self.held[self.table.slot(unit)];
        held.energy_of(unit) + energy_among(unit, self.others.as_slice())
    }

    // Each unit's, at the unit's index. There may be fewer units than indices, so that `from_fn` would have to test each.
    // (By index: DECISIONS.)
    fn by_unit(&self, units: &[Unit]) -> [u32; UNITS]
        requires units { length units.now ≤ 64 }
        ensures { result ≡ pad 64 0 (map (λ u. energy_in u.number self.now) units.now) }
    {
        let mut energies = [0; UNITS];
        for (i, unit) in units.iter().enumerate() {
            energies[i] = self.energy_of(unit.number);
        }
        energies
    }
}

// Maxima by direction, as C's figures have them: 0 where there is none.
fn plain(maxima: &[Option<u32>; DIRECTIONS]) -> [u32; DIRECTIONS]
    ensures { result ≡ map (λ m. unwrap_or m 0) maxima.now }
{
    maxima.map(|maximum| maximum.unwrap_or(0))
}

// What the session keeps of an hour's figures, `units` being those registered. The table is theirs, for speed; any would do. Energies are asked to be in
// range, as an hour's figures are: any caller can build the type. What stands behind their lists is not looked at.
pub fn stored(units: &[Unit], table: &UnitSlots, figures: &Figures) -> HourFigures
    requires { (length units.now ≤ 64) × All (λ o. o.matched ≤ max_energy) (listed figures.now.offers)
        × All (λ x. x.energy ≤ max_energy) (listed figures.now.executions) }
    ensures { padded figures.now ≡ figures_as (figures_in figures.now) → result ≡ cleared_as (figures_in figures.now) units.now }
{
    let matched = Slots::of(
        table,
        figures.offers.as_slice(),
        |o| Portion {
            unit: o.holder.unit,
            energy: o.matched,
        },
    );
    let executed = Slots::of(
        table,
        figures.executions.as_slice(),
        |x| Portion {
            unit: x.holder.unit,
            energy: x.energy,
        },
    );
    HourFigures {
        price: figures.price,
        market: figures.market,
        bilateral: figures.bilateral,
        maxima: plain(&figures.maxima),
        matched: matched.by_unit(units),
        executed: executed.by_unit(units),
    }
}
