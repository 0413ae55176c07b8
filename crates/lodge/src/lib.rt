// Lodging: "takes a message's bytes".
#![tactic(auto)]

mod entering;

ghost use Rattle.std.specs.Prelude.{IfOk};
ghost use Rattle.rules.specs.DayBook.{lodge};
ghost use Rattle.session_changes.specs.Changes.{Indexed, standing_with};
ghost use Rattle.session_changes.specs.Effects.{effect_of};
ghost use Rattle.session.specs.Steps.{Met};

use crate::entering::enter;
use answer::Refusal;
use lodge_limits::judge;
use lodge_pending::pend;
use session::{Effect, Session};
use session_changes::{StandingChange, Step, effect};

// What lodging a message changes.
pub fn lodge_change(s: &Session, message: &[u8]) -> Result<Step<StandingChange>, Refusal>
    ensures met { Met s.now (lodge message.now) (effect_of standing_with s.now result) }
    ensures indexed { IfOk result (λ t. Indexed t.change) }
{
    let p = pend(s, message)?;
    judge(s, &p)?;
    Ok(enter(s, &p))
}

// Lodges a message: 2, 3, 4, 5, 6, 9, 10, 11, 12, 15.
pub fn lodge(s: Session, message: &[u8]) -> Effect
    ensures { Met s (lodge message.now) result }
{
    effect(s, lodge_change(&s, message))
}
