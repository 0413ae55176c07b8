// The slot of each unit, found by the two bytes of its number.
ghost use Rattle.std.specs.Prelude.{ℕ, ◌≡◌, ◌≤◌, ◌<◌, ◌+◌, ◌%◌, length, get_or};
ghost use Rattle.std.specs.List.{All};
ghost use Rattle.session.specs.Image.{no_unit};
ghost use Rattle.clear_store.specs.UnitSlots.{row_of, slot_of, Rows, Last};

use rules::UNITS;
use session::Unit;

// One for each unit, and slot 0 for a number that no unit has.
pub const SLOTS: usize = UNITS + 1;

const BYTES: usize = 256;

// Units are told apart by both bytes of their numbers, so that each is found by two looks, whatever the numbers: a pass over all for each unit, or over
// those whose numbers share a byte, would take most of an hour's time, and a map would need a heap, which the gate does not use. Sums do not rest on it.
#[derive(Drop)]
pub struct UnitSlots {
    // By a number's last byte: a row of the slots. Row 0 is for a last byte that no unit's number has.
    pub rows: [u8; BYTES],
    // By row and by the byte before.
    pub slots: [u8; SLOTS * BYTES],
    pub ghost rows_fit: { All (λ r. r ≤ 64) rows },
    pub ghost slots_fit: { All (λ s. s ≤ 64) slots },
}

impl UnitSlots {
    fn new() -> UnitSlots
        ensures { Rows 0 result.rows }
    {
        UnitSlots {
            rows: [0; BYTES],
            slots: [0; SLOTS * BYTES],
        }
    }

    // The row of a number's last byte.
    #[tactic(auto, unfolding(crate::specs::UnitSlots::row_of))]
    fn row(&self, number: u32) -> usize
        ensures value { result ≡ row_of self.now.rows number }
        ensures fits { result ≤ 64 }
    {
        usize::from(self.rows[number as usize % BYTES])
    }

    // The slot of a number's unit.
    #[tactic(auto, unfolding(crate::specs::UnitSlots::slot_of))]
    pub(crate) fn slot(&self, number: u32) -> usize
        ensures value { result ≡ slot_of self.now.rows self.now.slots number }
        ensures fits { result ≤ 64 }
    {
        usize::from(self.slots[self.row(number) * BYTES + number as usize / BYTES % BYTES])
    }

    // A row for a number's last byte, where it has none: it is as the slot, which is above those before.
    #[tactic(auto, unfolding(crate::specs::UnitSlots::row_of))]
    fn bring_row(&mut self, number: u32, slot: u8)
        requires { slot ≤ 64 }
        ensures rows { (k : ℕ) → Rows k self.old.rows → k < slot → Rows slot self.new.rows }
        ensures kept { (n : ℕ) → 0 < row_of self.old.rows n → row_of self.new.rows n ≡ row_of self.old.rows n }
        ensures found { 0 < slot → 0 < row_of self.new.rows number }
        ensures slots { self.new.slots ≡ self.old.slots }
    {
        let end = number as usize % BYTES;
        if self.rows[end] == 0 {
            self.rows[end] = slot;
        }
    }

    // A slot more, above those before, for a number.
    fn add(&mut self, number: u32, slot: u8)
        requires { slot ≤ 64 }
        ensures rows { (k : ℕ) → Rows k self.old.rows → k < slot → Rows slot self.new.rows }
        ensures kept { (n : ℕ) → 0 < row_of self.old.rows n → row_of self.new.rows n ≡ row_of self.old.rows n }
        ensures found { 0 < slot → 0 < row_of self.new.rows number }
        ensures its { slot_of self.new.rows self.new.slots number ≡ slot }
        ensures others { (k : ℕ) → Rows k self.old.rows → k < slot → (n : ℕ) → 0 < row_of self.old.rows n → (n % 65536 ≡ number % 65536 → ⊥)
            → slot_of self.new.rows self.new.slots n ≡ slot_of self.old.rows self.old.slots n }
    {
        self.bring_row(number, slot);
        let row = self.row(number);
        self.slots[row * BYTES + number as usize / BYTES % BYTES] = slot;
    }

    // Those of some units, found once a day: each has its own where their numbers, of 16 bits, differ.
    pub fn of(units: &[Unit]) -> UnitSlots
        requires { length units.now ≤ 64 }
        ensures { (i : ℕ) → i < length units.now → Last i units.now → slot_of result.rows result.slots (get_or units.now i no_unit).number ≡ i + 1 }
    {
        let mut table = UnitSlots::new();
        for (i, unit) in units.iter().enumerate() {
            table.add(unit.number, (i + 1) as u8);
        }
        table
    }
}
