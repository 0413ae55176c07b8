// Registering units.
#![tactic(auto)]

ghost use Rattle.std.specs.Prelude.{◌≡◌, ◌<◌, ◌&&◌, ◌||◌, not, take, position, IfSome, is_none};
ghost use Rattle.std.specs.List.{list_any};
ghost use Rattle.rules.specs.Units.{bad_unit, domestic, french, french_of, is_second_to};
ghost use Rattle.rules.specs.DayBook.{register};
ghost use Rattle.session.specs.Image.{unit_in};
ghost use Rattle.session.specs.Steps.{Met};
ghost use Rattle.session.specs.Parts.{number_is};
ghost use Rattle.register.specs.Registry.{beside_unit, shares_rights, rights_from};

use answer::Response;
use rules::row::Row;
use rules::{FRANCE, LAST_BORDER, UNITS, bad_number};
use session::{Effect, Notice, Session, Unit, no_notice};
use session_changes::{Call, RegistryChange, Step, run};

// A legacy mark on a domestic unit, or the mark "with rights" on one that is not French.
#[tactic(auto, unfolding(rules::specs::Units::domestic, rules::specs::Units::french))]
fn bad_marks(u: Unit) -> bool
    ensures { result ≡ ((u.legacy && domestic (unit_in u)) || (u.rights && not (french (unit_in u)))) }
{
    u.legacy && u.border == 0 || u.rights && u.border != FRANCE
}

// Row 5: a value outside its range, or a mark that the unit cannot have.
#[tactic(auto, unfolding(rules::specs::Units::bad_unit))]
fn bad_unit(u: Unit) -> bool
    ensures { result ≡ bad_unit (unit_in u) }
{
    bad_number(u.number)
        || bad_number(u.agent)
        || LAST_BORDER < u.border
        || Session::MAX_ENERGY < u.maximum
        || bad_marks(u)
}

// Whether v is of the agent, border (1 to 4), side and mark of u: no equality of units, since nothing else of them counts.
#[tactic(auto, unfolding(rules::specs::Units::is_second_to, rules::specs::Units::domestic))]
fn is_second_to(u: Unit, v: Unit) -> bool
    ensures { result ≡ is_second_to (unit_in u) (unit_in v) }
{
    u.border != 0
        && u.agent == v.agent
        && u.border == v.border
        && u.purchase == v.purchase
        && u.rights == v.rights
}

// Whether v is a French unit of this agent and side.
#[tactic(auto, unfolding(rules::specs::Units::french_of, rules::specs::Units::french))]
pub fn french_of(v: Unit, agent: u32, purchase: bool) -> bool
    ensures { result ≡ french_of agent purchase (unit_in v) }
{
    v.border == FRANCE && v.agent == agent && v.purchase == purchase
}

// Whether u and v are French units of one agent and side: these have the same rights.
#[tactic(auto, unfolding(rules::specs::Units::french))]
fn shares_rights(u: Unit, v: Unit) -> bool
    ensures { result ≡ shares_rights (unit_in u) v }
{
    u.border == FRANCE && french_of(v, u.agent, u.purchase)
}

// Row 7: one of the units has the number. (Not by `units::index`: the row asks no index.)
fn is_taken(units: &[Unit], number: u32) -> bool
    ensures { result ≡ list_any (number_is number) units.now }
{
    units.iter().any(|v| v.number == number)
}

// Row 8: one of the units has the agent, border, side and mark.
fn has_second(units: &[Unit], u: Unit) -> bool
    ensures { result ≡ list_any (beside_unit (unit_in u)) units.now }
{
    units.iter().any(|v| is_second_to(u, *v))
}

// The index of the first unit that has the rights of u.
fn partner_index(units: &[Unit], u: Unit) -> Option<usize>
    ensures { result ≡ position (shares_rights (unit_in u)) units.now }
{
    units.iter().position(|v| shares_rights(u, *v))
}

// Row 15: a marked unit, and no unit was found that has its rights.
fn no_partner(u: Unit, from: Option<usize>) -> bool
    ensures { result ≡ (u.rights && is_none from) }
{
    u.rights && from.is_none()
}

// The rights at an index that was found, or none.
fn rights_from(rights: &[Notice; UNITS], from: Option<usize>) -> Notice
    requires { IfSome from (λ at. at < 64) }
    ensures { result ≡ rights_from rights.now from }
{
    match from {
        Some(at) => rights[at],
        None => no_notice(),
    }
}

// The registration of a unit.
#[derive(Clone, Copy)]
pub struct Registration {
    pub unit: Unit,
}

impl Call for Registration {
    type Found = Option<usize>;

    type Part = RegistryChange;

    ghost call = { λ c. register (unit_in c.unit) };

    ghost is_found = { λ s c x. (x ≡ position (shares_rights (unit_in c.unit)) (take s.enrolled s.units)) × (s.enrolled < 64) };

    // The row that refuses the unit, or else the index of the one whose rights it gets: 2, 5, 7, 8, 9, 15.
    fn judge(&self, s: &Session) -> Result<Option<usize>, Row> {
        let u = self.unit;
        if s.closed {
            return Err(Row::Gate);
        }
        if bad_unit(u) {
            return Err(Row::Range);
        }
        let units = &s.units[..s.enrolled];
        if is_taken(units, u.number) {
            return Err(Row::Taken);
        }
        if has_second(units, u) {
            return Err(Row::Second);
        }
        if Session::MAX_UNITS <= s.enrolled {
            return Err(Row::Full);
        }
        let from = partner_index(units, u);
        if no_partner(u, from) {
            return Err(Row::Rights);
        }
        Ok(from)
    }

    // "registering adds the unit", after the others. What the session keeps of it has reserved bytes of 0, whatever the caller's hold.
    fn enter(&self, s: &Session, from: Option<usize>) -> Step<RegistryChange> {
        let u = self.unit;
        Step {
            change: RegistryChange {
                at: s.enrolled,
                unit: Unit { reserved: 0, ..u },
                rights: rights_from(&s.rights, from),
            },
            answer: Response::accepted(),
        }
    }
}

// Registers a unit: 2, 5, 7, 8, 9, 15.
pub fn register(s: Session, unit: Unit) -> Effect
    ensures { Met s (register (unit_in unit)) result }
{
    run(s, &Registration { unit })
}
