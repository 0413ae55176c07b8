// The holders of lodgements: the index of each one's unit.
#![tactic(auto)]

ghost use Rattle.std.specs.Prelude.{◌≡◌, map, ◌≤◌, length};
ghost use Rattle.close_holders.specs.Holders.{Firsts, holder_of};

use arrayvec::ArrayVec;
use rules::LODGEMENTS;
use session::units::index;
use session::{Lodgement, Unit};

// For each last byte of a number, the index of the first unit whose number ends in it. It keeps closing fast: one look there in place of a
// search through the units for each lodgement.
fn firsts_of(units: &[Unit]) -> [Option<usize>; 256]
    ensures { Firsts units.now result }
{
    let mut firsts = [None; 256];
    for (at, unit) in units.iter().enumerate() {
        let end = (unit.number % 256) as usize;
        firsts[end] = firsts[end].or(Some(at));
    }
    firsts
}

// The index of a lodgement's unit: mostly the first that ends in the number's last byte, else it is searched.
#[tactic(auto, unfolding(crate::specs::Holders::holder_of))]
fn holder_of(units: &[Unit], firsts: &[Option<usize>; 256], lodgement: &Lodgement) -> Option<usize>
    requires { Firsts units.now firsts.now }
    ensures { result ≡ holder_of units.now lodgement.now }
{
    let number = lodgement.key.unit;
    let at = firsts[(number % 256) as usize]?;
    if units[at].number == number {
        return Some(at);
    }
    index(units, number)
}

// The index of each lodgement's unit. (Lengths: DECISIONS.)
pub fn holders_of(units: &[Unit], lodgements: &[Lodgement]) -> ArrayVec<Option<usize>, LODGEMENTS>
    requires { length lodgements.now ≤ 128 }
    ensures { result.items ≡ map (holder_of units.now) lodgements.now }
{
    let firsts = firsts_of(units);
    let mut holders = ArrayVec::new();
    for lodgement in lodgements {
        holders.push(holder_of(units, &firsts, lodgement));
    }
    holders
}
