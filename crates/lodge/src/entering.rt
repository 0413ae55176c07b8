// Entering a message that no row refuses.
ghost use Rattle.std.specs.Prelude.{◌≡◌};
ghost use Rattle.session_changes.specs.Changes.{Indexed, standing_with};
ghost use Rattle.session_changes.specs.Effects.{done};
ghost use Rattle.lodge_pending.specs.Awaiting.{Awaits};
ghost use Rattle.lodge.specs.Entries.{EnteredFields};

use answer::Response;
use lodge_keys::left_of;
use lodge_pending::Pending;
use session::{Energies, Lodgement, Session};
use session_changes::{StandingChange, Step};

// "A lodgement replaces the one with its key, and takes and answers the next lodging number": those after the replaced one
// go forward, and the new one stands at the end.
pub fn enter(s: &Session, p: &Pending) -> Step<StandingChange>
    requires { Awaits s.now p.now }
    ensures entered { EnteredFields s.now p.now.fields (done standing_with s.now result) }
    ensures indexed { Indexed result.change }
{
    let number = s.last + 1;
    let left = left_of(s.standing, p.replaces);
    Step {
        change: StandingChange {
            from: p.replaces.unwrap_or(s.standing),
            to: left,
            at: left,
            lodgement: Lodgement { key: p.key, number },
            energies: Energies {
                energies: p.fields.energies,
                prices: p.fields.prices,
            },
            standing: left + 1,
            last: number,
        },
        answer: Response::numbered(number),
    }
}
