// What calls change, by itself: a lent session is changed in place and not copied. A refused call changes nothing.
#![tactic(auto)]

ghost use Rattle.std.specs.Prelude.{◌≡◌, ◌<◌, ◌≤◌, IfOk, length};
ghost use Rattle.rules.specs.DayBook as D;
ghost use Rattle.session.specs.declared.Session.{Session};
ghost use Rattle.session.specs.Steps.{Met};
ghost use Rattle.session.specs.Parts.{Within, JudgesRow, Entered};
ghost use Rattle.session_changes.specs.Changes.{Indexed, Granted, registry_with, notice_with, rights_with, loss_with, moved, standing_with, closed_with, cleared_with};
ghost use Rattle.session_changes.specs.Effects.{effect_of, done};

use answer::{Refusal, Response};
use rules::row::Row;
use rules::{HOURS, LODGEMENTS};
use session::{
    Effect, Energies, HourFigures, Lodgement, Notice, Session, Unit, Verdict, no_notice,
};

// A part of a session that a call writes.
pub trait Change: Copy {
    // the session with it
    ghost applied: { Session → Self → Session };

    // Its indices are those of the arrays. It is asked where a step is stored: a ghost field of `Step` would be proved at each of the
    // seven places that make one.
    ghost fits: { Self → Type 0 };

    fn apply(&self, s: &mut Session)
        requires { fits self.now }
        ensures { s.new ≡ applied s.old self.now };
}

// What a call that no row refuses changes, and what it answers.
#[derive(Clone, Copy)]
pub struct Step<C> {
    pub change: C,
    pub answer: Response,
}

// A unit more: it stands at an index, without a notice, with the rights of its agent and side.
#[derive(Clone, Copy)]
pub struct RegistryChange {
    pub at: usize,
    pub unit: Unit,
    pub rights: Notice,
}

impl Change for RegistryChange {
    ghost applied = { registry_with };

    ghost fits = { λ c. c.at < 64 };

    fn apply(&self, s: &mut Session) {
        s.enrolled = self.at + 1;
        s.units[self.at] = self.unit;
        s.notices[self.at] = no_notice();
        s.rights[self.at] = self.rights;
    }
}

// The unavailability notice of the unit at an index.
#[derive(Clone, Copy)]
pub struct NoticeChange {
    pub at: usize,
    pub notice: Notice,
}

impl Change for NoticeChange {
    ghost applied = { notice_with };

    ghost fits = { λ c. c.at < 64 };

    fn apply(&self, s: &mut Session) {
        s.notices[self.at] = self.notice;
    }
}

// An agent's rights on a side: they stand at the indices of its two French units, one index twice where it has one.
#[derive(Clone, Copy)]
pub struct RightsChange {
    pub at: usize,
    pub also: usize,
    pub rights: Notice,
}

impl Change for RightsChange {
    ghost applied = { rights_with };

    ghost fits = { Granted };

    fn apply(&self, s: &mut Session) {
        s.rights[self.at] = self.rights;
        s.rights[self.also] = self.rights;
    }
}

// The loss of a border: it stands at the border's number.
#[derive(Clone, Copy)]
pub struct LossChange {
    pub at: usize,
    pub loss: u32,
}

impl Change for LossChange {
    ghost applied = { loss_with };

    ghost fits = { λ c. c.at < 5 };

    fn apply(&self, s: &mut Session) {
        s.losses[self.at] = self.loss;
    }
}

// Standing lodgements: those after index `from`, up to index `to`, move to the index before theirs; then one is put at an index.
#[derive(Clone, Copy)]
pub struct StandingChange {
    pub from: usize,
    pub to: usize,
    pub at: usize,
    pub lodgement: Lodgement,
    pub energies: Energies,
    pub standing: usize,
    pub last: u32,
}

impl Change for StandingChange {
    ghost applied = { standing_with };

    ghost fits = { Indexed };

    fn apply(&self, s: &mut Session) {
        move_forward(&mut s.lodgements, &mut s.energies, self.from, self.to);
        s.lodgements[self.at] = self.lodgement;
        s.energies[self.at] = self.energies;
        s.standing = self.standing;
        s.last = self.last;
    }
}

// The elements after index `from`, up to index `to`, move to the index before theirs: one by one, both arrays in one loop. With `copy_within` the
// archive for C would need `memmove`.
fn move_forward(lodgements: &mut [Lodgement], energies: &mut [Energies], from: usize, to: usize)
    requires forward { from ≤ to }
    requires lodgements { to < length lodgements.old }
    requires energies { to < length energies.old }
    ensures lodgements { lodgements.new ≡ moved from to lodgements.old }
    ensures energies { energies.new ≡ moved from to energies.old }
{
    for i in from..to {
        lodgements[i] = lodgements[i + 1];
        energies[i] = energies[i + 1];
    }
}

// The verdicts; the gate is then closed.
#[derive(Clone, Copy)]
pub struct ClosingChange {
    pub verdicts: [Verdict; LODGEMENTS],
}

impl Change for ClosingChange {
    ghost applied = { closed_with };

    ghost fits = { λ _. Unit {0} };

    fn apply(&self, s: &mut Session) {
        s.verdicts = self.verdicts;
        s.closed = true;
    }
}

// The figures; the day is then cleared.
#[derive(Clone, Copy)]
pub struct ClearingChange {
    pub figures: [HourFigures; HOURS],
}

impl Change for ClearingChange {
    ghost applied = { cleared_with };

    ghost fits = { λ _. Unit {0} };

    fn apply(&self, s: &mut Session) {
        s.figures = self.figures;
        s.cleared = true;
    }
}

// A call that changes a session: the rows that refuse it, and what it changes where none does.
pub trait Call: Copy {
    // what the judgement finds on its way
    type Found: Copy;

    type Part: Change;

    // the rules' call
    ghost call: { Self → D.Call };

    ghost is_found: { Session → Self → Self.Found → Type 0 };

    // (`Within`: `Session::sound` says why no type has it.)
    fn judge(&self, s: &Session) -> Result<Self::Found, Row>
        requires { Within s.now }
        ensures judges { JudgesRow s.now (call self.now) result }
        ensures found { IfOk result (λ x. is_found s.now self.now x) };

    fn enter(&self, s: &Session, found: Self::Found) -> Step<Self::Part>
        requires within { Within s.now }
        requires found { is_found s.now self.now found }
        ensures entered { Entered s.now (call self.now) (done Self.Part.applied s.now result) }
        ensures fits { Self.Part.fits result.change };
}

// What a call changes: nothing where the guard or a row refuses it.
pub fn step_of<C: Call>(s: &Session, call: &C) -> Result<Step<C::Part>, Refusal>
    ensures met { Met s.now (C.call call.now) (effect_of C.Part.applied s.now result) }
    ensures fits { IfOk result (λ t. C.Part.fits t.change) }
{
    if !s.sound() {
        return Err(Refusal::from(Row::Gate));
    }
    let found = call.judge(s)?;
    Ok(call.enter(s, found))
}

// A step stored in the lent session, and the call's answer; a refusal stores nothing.
pub fn settle<C: Change>(s: &mut Session, step: Result<Step<C>, Refusal>) -> Response
    requires { IfOk step (λ t. C.fits t.change) }
    ensures session { s.new ≡ (effect_of C.applied s.old step).session }
    ensures answer { result ≡ (effect_of C.applied s.old step).answer }
{
    match step {
        Ok(step) => {
            step.change.apply(s);
            step.answer
        }
        Err(refusal) => Response::from(refusal),
    }
}

// The same of a session by value.
pub fn effect<C: Change>(s: Session, step: Result<Step<C>, Refusal>) -> Effect
    requires { IfOk step (λ t. C.fits t.change) }
    ensures { result ≡ effect_of C.applied s step }
{
    let mut session = s;
    let answer = settle(&mut session, step);
    Effect { session, answer }
}

// A call on a lent session, and its answer.
pub fn perform<C: Call>(s: &mut Session, call: &C) -> Response
    ensures { Met s.old (C.call call.now) (record { session = s.new; answer = result }) }
{
    let step = step_of(s, call);
    settle(s, step)
}

// A call on a session by value.
pub fn run<C: Call>(s: Session, call: &C) -> Effect
    ensures { Met s (C.call call.now) result }
{
    effect(s, step_of(&s, call))
}
