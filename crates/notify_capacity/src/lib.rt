// Capacity notices: the borders' 4 times 2 directions, each absent or its energies.
#![tactic(auto)]

ghost use Rattle.std.specs.Prelude.{◌≡◌, map};
ghost use Rattle.std.specs.List.{list_any};
ghost use Rattle.session.specs.Steps.{Met};
ghost use Rattle.notify_capacity.specs.Capacities.{direction_as, off_hours, off_range, capacity_in, capacities_with};

use answer::Response;
use notify_unavailability::{bad_energies, front};
use rules::row::Row;
use rules::{DIRECTIONS, HOURS};
use session::{Effect, Notice, Published, Session, no_notice};
use session_changes::{Call, Change, Step, run};

// A capacity notice: export and import of border 1, of 2, of 3, of 4.
#[repr(C)]
#[derive(Clone, Copy)]
pub struct Capacities {
    pub directions: [Published; DIRECTIONS],
}

// Row 4, of a direction: "a notice not of H hours". What is absent has no hours.
#[tactic(auto, using(crate::proofs::DirectionLaws::directions))]
fn not_of_hours(hours: usize, p: &Published) -> bool
    ensures { result ≡ off_hours hours p.now }
{
    p.published && p.count != hours
}

// Row 5, of a direction.
#[tactic(auto, using(crate::proofs::DirectionLaws::directions))]
fn bad_published(p: &Published) -> bool
    ensures { result ≡ off_range p.now }
{
    p.published && bad_energies(front(p.count, &p.energies))
}

// Row 4 of the table, for the whole notice.
fn any_off_hours(hours: usize, ps: &[Published]) -> bool
    ensures { result ≡ list_any (off_hours hours) ps.now }
{
    ps.iter().any(|p| not_of_hours(hours, p))
}

// Row 5 of the table, for the whole notice.
fn any_off_range(ps: &[Published]) -> bool
    ensures { result ≡ list_any off_range ps.now }
{
    ps.iter().any(|p| bad_published(p))
}

// A direction laid where the session keeps it: made by `notify_unavailability::stored_notice` and then copied, all eight took twice as long.
#[tactic(auto, unfolding(crate::specs::Capacities::direction_as))]
fn lay(stored: &mut Notice, p: &Published)
    ensures { stored.new ≡ direction_as p.now }
{
    if p.published {
        stored.given = true;
        stored.reserved = 0;
        stored.reserved2 = 0;
        stored.energies = p.energies;
        stored.energies[p.count.min(HOURS)..].fill(0);
    } else {
        *stored = no_notice();
    }
}

// All directions laid, each where it stands. (By index: DECISIONS.)
fn lay_all(stored: &mut [Notice; DIRECTIONS], ps: &[Published; DIRECTIONS])
    ensures { stored.new ≡ map direction_as ps.now }
{
    for (i, notice) in stored.iter_mut().enumerate() {
        lay(notice, &ps[i]);
    }
}

// A notice is what it changes: its directions are laid in the lent session, and made nowhere before.
impl Change for Capacities {
    ghost applied = { capacities_with };

    ghost fits = { λ _. Unit {0} };

    fn apply(&self, s: &mut Session) {
        lay_all(&mut s.capacities, &self.directions);
    }
}

impl Call for Capacities {
    type Found = ();

    type Part = Capacities;

    ghost call = { capacity_in };

    ghost is_found = { λ _ _ _. Unit {0} };

    // The row that refuses a capacity notice: 2, 4, 5.
    fn judge(&self, s: &Session) -> Result<(), Row> {
        if s.closed {
            return Err(Row::Gate);
        }
        if any_off_hours(s.hours as usize, &self.directions) {
            return Err(Row::Hour);
        }
        if any_off_range(&self.directions) {
            return Err(Row::Range);
        }
        Ok(())
    }

    // "It replaces the notice before it."
    fn enter(&self, _s: &Session, _found: ()) -> Step<Capacities> {
        Step {
            change: *self,
            answer: Response::accepted(),
        }
    }
}

// Takes a capacity notice: 2, 4, 5.
pub fn capacity(s: Session, notice: Capacities) -> Effect
    ensures { Met s (capacity_in notice) result }
{
    run(s, &notice)
}
