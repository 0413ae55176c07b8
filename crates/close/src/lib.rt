// Closing: "closing gives each standing one its verdict".
#![tactic(auto)]

ghost use Rattle.rules.specs.DayBook.{close};
ghost use Rattle.session.specs.Steps.{Met};
ghost use Rattle.session.specs.Parts.{Within, Entered};
ghost use Rattle.close.specs.Closed.{closed_effect};

use answer::Response;
use close_order::{Class, Closing};
use rules::LODGEMENTS;
use rules::row::Row;
use session::{Effect, Session, Verdict};
use session_changes::{Call, ClosingChange, Step, run};

// The verdicts of the standing lodgements: "normal executions, default executions, offers". It is all that closing changes
// beside the mark. (`Within`: `Session::sound` says why no type has it.)
fn verdicts(s: &Session) -> [Verdict; LODGEMENTS]
    requires { Within s.now }
    ensures { Entered s.now close (closed_effect s.now result) }
{
    let mut closing = Closing::of(s);
    closing.pass(Class::Normal);
    closing.pass(Class::Default);
    closing.pass(Class::Offers);
    closing.verdicts
}

// The closing of the gate.
#[derive(Clone, Copy)]
pub struct GateClosing;

impl Call for GateClosing {
    type Found = ();

    type Part = ClosingChange;

    ghost call = { λ _. close };

    ghost is_found = { λ _ _ _. Unit {0} };

    // The row that refuses closing: 2, "closing or clearing twice".
    fn judge(&self, s: &Session) -> Result<(), Row> {
        if s.closed {
            return Err(Row::Gate);
        }
        Ok(())
    }

    fn enter(&self, s: &Session, _found: ()) -> Step<ClosingChange> {
        Step {
            change: ClosingChange {
                verdicts: verdicts(s),
            },
            answer: Response::accepted(),
        }
    }
}

// Closes the gate: 2.
pub fn close(s: Session) -> Effect
    ensures { Met s close result }
{
    run(s, &GateClosing)
}
