// The room under a unit's ceilings by hour: what is accepted on the unit takes of it.
ghost use Rattle.std.specs.Prelude.{◌≤◌, length};
ghost use Rattle.close_order.specs.Room.{Fits, Admitted};

use rules::HOURS;

// Whether the room holds a lodgement's energies, one for each hour of the day.
fn fits(row: &[u32; HOURS], own: &[u32]) -> bool
    requires { length own.now ≤ 25 }
    ensures { Fits row.now own.now result }
{
    own.iter().zip(row).all(|(energy, left)| energy <= left)
}

// A lodgement that fits is admitted, and takes its energies of the room; else the room stays. No mere test, then.
// (Lengths: DECISIONS.)
pub fn admits(row: &mut [u32; HOURS], own: &[u32]) -> bool
    requires { length own.now ≤ 25 }
    ensures { Admitted own.now row.old row.new result }
{
    if !fits(row, own) {
        return false;
    }
    // (By index: DECISIONS.)
    for (h, energy) in own.iter().enumerate() {
        row[h] -= *energy;
    }
    true
}
