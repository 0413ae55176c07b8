// Portions of energy, and the slots at which each unit's are added up.
ghost use Rattle.std.specs.Prelude.{◌≤◌, ◌*◌};
ghost use Rattle.std.specs.List.{All};
ghost use Rattle.rules.specs.Units.{max_energy};

use crate::unit_slots::{SLOTS, UnitSlots};
use arrayvec::ArrayVec;
use rules::LODGEMENTS;

// An energy, and the number of the unit that has it. Beside `hour_share::Amount`, whose energy is looked up by direction: one type over both keys
// would name neither.
#[derive(Clone, Copy, Default)]
pub struct Portion {
    pub unit: u32,
    pub energy: u32,
}

// What units have in all: a unit's energies added up at its slot, and each by itself where another unit's stand there.
#[derive(Drop)]
pub struct Slots<'a> {
    pub table: &'a UnitSlots,
    pub held: [Portion; SLOTS],
    pub others: ArrayVec<Portion, LODGEMENTS>,
    // No sum is of more energies than there are lodgements.
    pub ghost sums: { All (λ p. p.energy ≤ 128 * max_energy) held },
    pub ghost ranged: { All (λ p. p.energy ≤ max_energy) others.items },
}
