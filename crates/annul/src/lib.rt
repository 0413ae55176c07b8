// Annulling: "names a key and removes it".
#![tactic(auto)]

ghost use Rattle.std.specs.Prelude.{◌≡◌, Some};
ghost use Rattle.rules.specs.DayBook.{annul};
ghost use Rattle.session.specs.Image.{key_in};
ghost use Rattle.session.specs.Steps.{Met};
ghost use Rattle.lodge_keys.specs.Keys.{key_index};

use answer::Response;
use lodge_keys::{bad_key, holder_for, key_index};
use rules::row::Row;
use session::{Effect, Key, Session, no_energies, no_lodgement};
use session_changes::{Call, StandingChange, Step, run};

// The annulment of a key's lodgement.
#[derive(Clone, Copy)]
pub struct Annulment {
    pub key: Key,
}

impl Call for Annulment {
    type Found = usize;

    type Part = StandingChange;

    ghost call = { λ c. annul (key_in c.key) };

    ghost is_found = { λ s c at. key_index s c.key ≡ Some at };

    // The index of the key's lodgement, or the row that refuses to annul it: 2, 5, 6, 13.
    fn judge(&self, s: &Session) -> Result<usize, Row> {
        let key = self.key;
        if s.closed {
            return Err(Row::Gate);
        }
        if bad_key(key) {
            return Err(Row::Range);
        }
        holder_for(s, key)?;
        key_index(&s.lodgements[..s.standing], key).ok_or(Row::Absent)
    }

    // "annulling drops the key's lodgement": those after it go forward, and the last index is empty.
    fn enter(&self, s: &Session, at: usize) -> Step<StandingChange> {
        let left = s.standing - 1;
        Step {
            change: StandingChange {
                from: at,
                to: left,
                at: left,
                lodgement: no_lodgement(),
                energies: no_energies(),
                standing: left,
                last: s.last,
            },
            answer: Response::accepted(),
        }
    }
}

// Annuls the lodgement of a key: 2, 5, 6, 13.
pub fn annul(s: Session, key: Key) -> Effect
    ensures { Met s (annul (key_in key)) result }
{
    run(s, &Annulment { key })
}
