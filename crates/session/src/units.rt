// Units by their numbers.
ghost use Rattle.std.specs.Prelude.{◌≡◌, position};
ghost use Rattle.rules.specs.Units.{unit_loss};
ghost use Rattle.session.specs.Image.{unit_in};
ghost use Rattle.session.specs.Parts.{number_is, held};

use crate::{Holder, Unit};
use rules::LOSSES;

// The index of the unit with this number.
pub fn index(units: &[Unit], number: u32) -> Option<usize>
    ensures { result ≡ position (number_is number) units.now }
{
    units.iter().position(|u| u.number == number)
}

// The unit with this number.
pub fn holder_of(units: &[Unit], number: u32) -> Option<Holder>
    ensures { result ≡ held units.now number }
{
    let at = index(units, number)?;
    Some(Holder {
        at,
        unit: units[at],
    })
}

// "exporters there must bring the losses too": a purchase unit has the loss of its border, and a sale unit none.
#[tactic(auto, unfolding(rules::specs::Units::unit_loss, rules::specs::Units::loss_of))]
pub fn unit_loss(unit: &Unit, losses: &[u32; LOSSES]) -> u32
    ensures { result ≡ unit_loss losses.now (unit_in unit.now) }
{
    if unit.purchase {
        losses.get(unit.border as usize).copied().unwrap_or(0)
    } else {
        0
    }
}
