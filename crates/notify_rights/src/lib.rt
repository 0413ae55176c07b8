// Rights notices: capacity rights of an agent on a side of the French border.
#![tactic(auto)]

ghost use Rattle.std.specs.Prelude.{◌≡◌, ◌<◌, take, position, length, Some};
ghost use Rattle.session.specs.Steps.{Met};
ghost use Rattle.notify_rights.specs.Rights.{rights_in, french_unit, next_index};

use answer::Response;
use notify_unavailability::{bad_energies, front, stored_notice};
use register::french_of;
use rules::row::Row;
use rules::{HOURS, bad_number};
use session::{Effect, Session, Unit};
use session_changes::{Call, RightsChange, Step, run};

// A rights notice: `count` energies of an agent and side. C hands the count beside the array; what is reserved is not looked at.
#[repr(C)]
#[derive(Clone, Copy)]
pub struct Rights {
    pub agent: u32,
    pub purchase: bool,
    pub reserved: u8,
    pub reserved2: u16,
    pub count: usize,
    pub energies: [u32; HOURS],
    pub reserved3: u32,
}

// The index of the agent's first French unit on the side.
fn first_index(units: &[Unit], agent: u32, purchase: bool) -> Option<usize>
    ensures { result ≡ position (french_unit agent purchase) units.now }
{
    units.iter().position(|u| french_of(*u, agent, purchase))
}

// The index of its other one there, after that at `at`. There are at most two, marked and unmarked; where there is one, this is its own.
fn second_index(units: &[Unit], at: usize, agent: u32, purchase: bool) -> usize
    requires { at < length units.now }
    ensures { result ≡ next_index (french_unit agent purchase) units.now at }
{
    match first_index(&units[at + 1..], agent, purchase) {
        Some(next) => at + 1 + next,
        None => at,
    }
}

impl Call for Rights {
    type Found = usize;

    type Part = RightsChange;

    ghost call = { rights_in };

    ghost is_found = { λ s c x. position (french_unit c.agent c.purchase) (take s.enrolled s.units) ≡ Some x };

    // The row that refuses a notice, or else the index of the agent's first unit there: 2, 4, 5, 6.
    fn judge(&self, s: &Session) -> Result<usize, Row> {
        if s.closed {
            return Err(Row::Gate);
        }
        if self.count != s.hours as usize {
            return Err(Row::Hour);
        }
        if bad_number(self.agent) || bad_energies(front(self.count, &self.energies)) {
            return Err(Row::Range);
        }
        first_index(&s.units[..s.enrolled], self.agent, self.purchase).ok_or(Row::Unit)
    }

    // A rights notice "replaces the earlier one for the two": it stands at both units of the agent and side.
    fn enter(&self, s: &Session, at: usize) -> Step<RightsChange> {
        let also = second_index(&s.units[..s.enrolled], at, self.agent, self.purchase);
        Step {
            change: RightsChange {
                at,
                also,
                rights: stored_notice(front(self.count, &self.energies)),
            },
            answer: Response::accepted(),
        }
    }
}

// Takes a rights notice: 2, 4, 5, 6.
pub fn grant(s: Session, notice: Rights) -> Effect
    ensures { Met s (rights_in notice) result }
{
    run(s, &notice)
}
