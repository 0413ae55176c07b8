// Clearing a session's day, hour by hour (document 01, "Clearing, hour by hour").
#![tactic(auto)]

ghost use Rattle.std.specs.Prelude.{◌<◌, ◌≤◌, length};
ghost use Rattle.rules.specs.DayBook.{clear};
ghost use Rattle.session.specs.Steps.{Met};
ghost use Rattle.session.specs.Parts.{Within, JudgesRow};
ghost use Rattle.clear_gather.specs.Built.{Holders};
ghost use Rattle.clear.specs.Hours.{HourAs, HoursAs};
ghost use Rattle.clear.specs.Slotted.{Slotted};

use answer::Response;
use clear_store::unit_slots::UnitSlots;
use hour::{Figures, Hour};
use hour_offers::Holder;
use rules::HOURS;
use rules::row::Row;
use session::{Effect, HourFigures, Session};
use session_changes::{Call, ClearingChange, Step, run};

// An hour's withdrawal steps and figures.
#[derive(Clone, Copy)]
pub struct HourEnd {
    pub steps: u32,
    pub figures: HourFigures,
}

// The day's: "The count of withdrawal steps, summed over the hours", and the figures at the hours' indices.
#[derive(Clone, Copy)]
pub struct DayEnd {
    pub steps: u64,
    pub figures: [HourFigures; HOURS],
}

// The hour at index k, `holders` being those of the standing lodgements and the table the units' slots: it is gathered into `hour` and cleared into
// `figures`, which all hours are. An hour out of its ranges, which no sound book has, gets figures of 0. `Within` is asked: a session is C's struct, so no
// type of this repository's can say it.
fn clear_hour(
    s: &Session,
    holders: &[Holder],
    table: &UnitSlots,
    k: usize,
    hour: &mut Hour,
    figures: &mut Figures,
) -> HourEnd
    requires { Within s.now × (length holders.now ≤ 128) × (k < 25) }
    ensures { Holders s.now holders.now → HourAs s.now k result }
{
    clear_gather::gather(s, holders, k, hour);
    if hour_clear::clear_into(hour, figures) {
        HourEnd {
            steps: figures.steps,
            figures: clear_store::stored(&s.units[..s.enrolled], table, figures),
        }
    } else {
        HourEnd {
            steps: 0,
            figures: session::no_figures(),
        }
    }
}

// The slots of the units: that of a lodgement's holder is by the index of its unit.
fn slots_of(s: &Session) -> UnitSlots
    requires { Within s.now }
    ensures { Slotted s.now result.rows result.slots }
{
    UnitSlots::of(&s.units[..s.enrolled])
}

// Every hour of the day, 1 to H. The loop is by index: it is the hour's, in several arrays of C's session and in the figures.
fn clear_hours(s: &Session) -> DayEnd
    requires { Within s.now }
    ensures { HoursAs s.now s.now.hours result.figures result.steps }
{
    let holders = clear_gather::holders_of(
        &s.units[..s.enrolled],
        &s.losses,
        &s.lodgements[..s.standing],
    );
    let table = slots_of(s);
    let none = session::no_figures();
    let n = s.hours as usize;
    let mut hour = Hour::default();
    let mut cleared = Figures::default();
    let mut figures = [none; HOURS];
    let mut steps: u64 = 0;
    for k in 0..n {
        let end = clear_hour(s, &holders, &table, k, &mut hour, &mut cleared);
        figures[k] = end.figures;
        steps += u64::from(end.steps);
    }
    DayEnd { steps, figures }
}

// The clearing of the day.
#[derive(Clone, Copy)]
pub struct Clearing;

// The row that refuses clearing, of any session: 2, "clearing [..] before closing", "closing or clearing twice".
pub fn judge_clear(s: &Session) -> Result<(), Row>
    ensures { JudgesRow s.now clear result }
{
    if !s.closed {
        return Err(Row::Gate);
    }
    if s.cleared {
        return Err(Row::Gate);
    }
    Ok(())
}

impl Call for Clearing {
    type Found = ();

    type Part = ClearingChange;

    ghost call = { λ _. clear };

    ghost is_found = { λ _ _ _. Unit {0} };

    fn judge(&self, s: &Session) -> Result<(), Row> {
        judge_clear(s)
    }

    // "clearing gives the figures of Queries by the rules above and answers the step count"
    fn enter(&self, s: &Session, _found: ()) -> Step<ClearingChange> {
        let day = clear_hours(s);
        let figures = day.figures;
        Step {
            change: ClearingChange { figures },
            answer: Response::steps(day.steps),
        }
    }
}

// Clears the day: 2.
pub fn clear(s: Session) -> Effect
    ensures { Met s clear result }
{
    run(s, &Clearing)
}
