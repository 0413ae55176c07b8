// The queries of a unit's energies, after clearing.
#![tactic(auto)]

ghost use Rattle.std.specs.Prelude.{◌≡◌, ◌<◌, IfOk};
ghost use Rattle.rules.specs.Queries as Q;
ghost use Rattle.query.specs.Replies.{Answered};
ghost use Rattle.query.specs.Parts.{Judges};
ghost use Rattle.query_unit.specs.Parts.{UnitFits, energy_of, energy_query};

use answer::Response;
use query::{Query, judge_hour, reply};
use rules::bad_number;
use rules::row::Row;
use session::units::index;
use session::{HourFigures, Session};

// Which of a unit's energies is asked for.
#[derive(Clone, Copy, Debug, PartialEq, Eq)]
enum Energy {
    Matched,
    Executed,
}

// Where a unit's energies in an hour stand: the index of the hour's figures, and the unit's own.
#[derive(Clone, Copy, Debug, PartialEq, Eq)]
struct Indices {
    hour: usize,
    unit: usize,
}

impl Energy {
    // The energy among an hour's figures, at a unit's index.
    fn among(self, figures: &HourFigures, unit: usize) -> u32
        requires { unit < 64 }
        ensures { result ≡ energy_of self figures.now unit }
    {
        match self {
            Energy::Matched => figures.matched[unit],
            Energy::Executed => figures.executed[unit],
        }
    }
}

// A unit in an hour, or the row that refuses it: 2, 4, 5, 6.
fn judge_unit(s: &Session, unit: u32, hour: u32) -> Result<Indices, Row>
    ensures judges { Judges s.now (Q.matched unit hour) result }
    ensures found { IfOk result (λ p. UnitFits s.now unit hour p) }
{
    let at = judge_hour(s, hour)?;
    if bad_number(unit) {
        return Err(Row::Range);
    }
    let of = index(&s.units[..s.enrolled], unit).ok_or(Row::Unit)?;
    Ok(Indices { hour: at, unit: of })
}

// Of a unit's energy in an hour: 2, 4, 5, 6.
#[derive(Clone, Copy)]
struct UnitQuery {
    energy: Energy,
    unit: u32,
    hour: u32,
}

impl Query for UnitQuery {
    type Found = Indices;

    ghost query = { λ q. energy_query q.energy q.unit q.hour };

    ghost is_found = { λ s q p. UnitFits s q.unit q.hour p };

    fn judge(self, s: &Session) -> Result<Indices, Row> {
        judge_unit(s, self.unit, self.hour)
    }

    fn show(self, s: &Session, at: Indices) -> Response {
        Response::from(self.energy.among(&s.figures[at.hour], at.unit))
    }
}

// Two functions over one query, since C has an entry for each; what is asked comes one by one, as C hands it.

// "a unit's matched [..] energy in an hour": 2, 4, 5, 6.
pub fn matched(s: &Session, unit: u32, hour: u32) -> Response
    ensures { Answered s.now (Q.matched unit hour) result }
{
    let energy = Energy::Matched;
    reply(s, UnitQuery { energy, unit, hour })
}

// "and executed energy": 2, 4, 5, 6.
pub fn executed(s: &Session, unit: u32, hour: u32) -> Response
    ensures { Answered s.now (Q.executed unit hour) result }
{
    let energy = Energy::Executed;
    reply(s, UnitQuery { energy, unit, hour })
}
