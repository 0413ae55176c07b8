// Unavailability notices: what a unit has available.
#![tactic(auto)]

ghost use Rattle.std.specs.Prelude.{◌≡◌, take, Some};
ghost use Rattle.std.specs.List.{list_any};
ghost use Rattle.session.specs.Steps.{Met};
ghost use Rattle.session.specs.Parts.{held};
ghost use Rattle.notify_unavailability.specs.Notices.{over_limit, stored_as, available_in};

use answer::Response;
use rules::row::Row;
use rules::{HOURS, bad_number};
use session::units::holder_of;
use session::{Effect, Holder, Notice, Session};
use session_changes::{Call, NoticeChange, Step, run};

// An unavailability notice: `count` available energies of a unit. C hands the count beside the array.
#[repr(C)]
#[derive(Clone, Copy)]
pub struct Availability {
    pub count: usize,
    pub unit: u32,
    pub energies: [u32; HOURS],
}

// The energies that C's count gives: at most as many as the array has.
pub fn front(count: usize, energies: &[u32; HOURS]) -> &[u32]
    ensures { result.now ≡ take count energies.now }
{
    &energies[..count.min(HOURS)]
}

// Row 5: one of the energies is above the limit.
pub fn bad_energies(energies: &[u32]) -> bool
    ensures { result ≡ list_any over_limit energies.now }
{
    energies.iter().any(|energy| Session::MAX_ENERGY < *energy)
}

// A notice as the session keeps it: its energies, 0 after them. No `From`: `Notice` is not this crate's, and more than one could be meant.
pub fn stored_notice(energies: &[u32]) -> Notice
    ensures { result ≡ stored_as energies.now }
{
    let mut stored = [0u32; HOURS];
    let count = energies.len().min(HOURS);
    stored[..count].copy_from_slice(&energies[..count]);
    Notice {
        given: true,
        reserved: 0,
        reserved2: 0,
        energies: stored,
    }
}

impl Call for Availability {
    type Found = Holder;

    type Part = NoticeChange;

    ghost call = { available_in };

    ghost is_found = { λ s c x. held (take s.enrolled s.units) c.unit ≡ Some x };

    // The row that refuses a notice, or else its unit: 2, 4, 5, 6.
    fn judge(&self, s: &Session) -> Result<Holder, Row> {
        if s.closed {
            return Err(Row::Gate);
        }
        if self.count != s.hours as usize {
            return Err(Row::Hour);
        }
        if bad_number(self.unit) || bad_energies(front(self.count, &self.energies)) {
            return Err(Row::Range);
        }
        holder_of(&s.units[..s.enrolled], self.unit).ok_or(Row::Unit)
    }

    // "a notice replaces its earlier one": the unit stays at its index.
    fn enter(&self, s: &Session, holder: Holder) -> Step<NoticeChange> {
        Step {
            change: NoticeChange {
                at: holder.at,
                notice: stored_notice(front(self.count, &self.energies)),
            },
            answer: Response::accepted(),
        }
    }
}

// Takes an unavailability notice: 2, 4, 5, 6.
pub fn available(s: Session, notice: Availability) -> Effect
    ensures { Met s (available_in notice) result }
{
    run(s, &notice)
}
