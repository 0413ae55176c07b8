// Losses of the borders (K2): each is set before closing, and replaces the one before it.
#![tactic(auto)]

ghost use Rattle.std.specs.Prelude.{◌≡◌, ◌<◌, false};
ghost use Rattle.rules.specs.Units.{bad_loss};
ghost use Rattle.session.specs.Steps.{Met};
ghost use Rattle.set_loss.specs.Losses.{loss_in};

use answer::Response;
use rules::row::Row;
use rules::{LAST_BORDER, MAX_LOSS};
use session::{Effect, Session};
use session_changes::{Call, LossChange, Step, run};

// A border, and the loss that it gets, in hundredths of a percent.
#[repr(C)]
#[derive(Clone, Copy)]
pub struct Loss {
    pub border: u32,
    pub loss: u32,
}

// Row 5: "Each border 1 to 4 gets a loss l, 0 to 2,000".
#[tactic(auto, unfolding(rules::specs::Units::bad_loss))]
fn bad_loss(border: u32, loss: u32) -> bool
    ensures { result ≡ bad_loss border loss }
{
    border == 0 || LAST_BORDER < border || MAX_LOSS < loss
}

impl Call for Loss {
    type Found = ();

    type Part = LossChange;

    ghost call = { loss_in };

    // A border that row 5 lets through has its place among the losses.
    ghost is_found = { λ s c _. bad_loss c.border c.loss ≡ false };

    // The row that refuses a loss: 2, 5.
    fn judge(&self, s: &Session) -> Result<(), Row> {
        if s.closed {
            return Err(Row::Gate);
        }
        if bad_loss(self.border, self.loss) {
            return Err(Row::Range);
        }
        Ok(())
    }

    // It stands at its border.
    fn enter(&self, _s: &Session, _found: ()) -> Step<LossChange> {
        Step {
            change: LossChange {
                at: self.border as usize,
                loss: self.loss,
            },
            answer: Response::accepted(),
        }
    }
}

// Sets the loss of a border: 2, 5.
pub fn set(s: Session, loss: Loss) -> Effect
    ensures { Met s (loss_in loss) result }
{
    run(s, &loss)
}
