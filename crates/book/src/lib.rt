// Demand 3: specs/Demand3.antt states it over every list of calls, proofs/DemandLaws.antt proves it. `replay` runs a log of
// calls, `replay_on` from a session: every answer and the session at its end are the day book's, so that a recovery can run on it.
#![tactic(auto)]

ghost use Rattle.std.specs.Prelude.{cond, length};
ghost use Rattle.calendar.specs.View.{date_in};
ghost use Rattle.session.specs.Steps.{Met};
ghost use Rattle.book_log.specs.Calls.{call_of};
ghost use Rattle.book_log.specs.Kinds.{number_of};
ghost use Rattle.book.specs.Replays.{StartsWith, RunsRecord, ReplaysOn, Replays};

use answer::Response;
use book_log::{Kind, answer_word};
use calendar::Date;
use notify_capacity::Capacities;
use notify_rights::Rights;
use notify_unavailability::Availability;
use rules::row::Row;
use session::{Effect, Session};
use set_loss::Loss;

// A log run: the session at its end, how many calls were run and the bytes of their records. Fewer bytes than the log has: there
// was room for no more answers, or what follows is no call. Answers go to the caller's room, since there is no heap; `calls` says how much of it
// is written.
#[derive(Clone, Copy)]
pub struct Reached {
    pub session: Session,
    pub calls: usize,
    pub read: usize,
}

// A log run from a fresh session, and the date's answer.
#[derive(Clone, Copy)]
pub struct Replayed {
    pub opened: Response,
    pub run: Reached,
}

// The head of a call's record: its kind, and how many bytes follow.
#[derive(Clone, Copy)]
struct Head {
    kind: Kind,
    size: usize,
}

// The calls that take more of a record than its bytes, each of its kind.

// A unit without rights or, where the mark says so, one "with rights".
fn run_register(s: Session, rights: bool, p: &[u8]) -> Effect
    ensures { Met s (call_of (cond rights 9 1) p.now) result }
{
    register::register(s, book_log::unit_of(rights, p))
}

fn run_capacity(s: Session, p: &[u8]) -> Effect
    ensures { Met s (call_of 2 p.now) result }
{
    let directions = book_log::directions_of(p);
    notify_capacity::capacity(s, Capacities { directions })
}

fn run_available(s: Session, p: &[u8]) -> Effect
    ensures { Met s (call_of 3 p.now) result }
{
    let notice = Availability {
        count: book_log::number_at(p, 4) as usize,
        unit: book_log::number_at(p, 0),
        energies: book_log::numbers_at(p, 8),
    };
    notify_unavailability::available(s, notice)
}

fn run_rights(s: Session, p: &[u8]) -> Effect
    ensures { Met s (call_of 8 p.now) result }
{
    let notice = Rights {
        agent: book_log::number_at(p, 0),
        purchase: book_log::mark_at(p, 4),
        reserved: 0,
        reserved2: 0,
        count: book_log::number_at(p, 5) as usize,
        energies: book_log::numbers_at(p, 9),
        reserved3: 0,
    };
    notify_rights::grant(s, notice)
}

fn run_loss(s: Session, p: &[u8]) -> Effect
    ensures { Met s (call_of 10 p.now) result }
{
    let loss = Loss {
        border: book_log::number_at(p, 0),
        loss: book_log::number_at(p, 4),
    };
    set_loss::set(s, loss)
}

fn run_annul(s: Session, p: &[u8]) -> Effect
    ensures { Met s (call_of 5 p.now) result }
{
    annul::annul(s, book_log::key_of(p))
}

// A record's call. The record has as many bytes as its kind says.
fn run_call(s: Session, kind: Kind, p: &[u8]) -> Effect
    ensures { Met s (call_of (number_of kind) p.now) result }
{
    match kind {
        Kind::Register => run_register(s, false, p),
        Kind::Capacity => run_capacity(s, p),
        Kind::Available => run_available(s, p),
        Kind::Lodge => lodge::lodge(s, p),
        Kind::Annul => run_annul(s, p),
        Kind::Close => close::close(s),
        Kind::Clear => clear::clear(s),
        Kind::Rights => run_rights(s, p),
        Kind::RegisterMarked => run_register(s, true, p),
        Kind::Loss => run_loss(s, p),
    }
}

// Runs the call of one record. What is no call's record is refused as 3 and changes nothing: the kind is a number, which may be no kind's.
pub fn run(s: Session, kind: u8, p: &[u8]) -> Effect
    ensures { RunsRecord s kind p.now result }
{
    match Kind::of(kind, p.len()) {
        Some(kind) => run_call(s, kind, p),
        None => s.refused(Row::Form.number(), 0),
    }
}

// The head of the record that a log starts with: none where that is no call's, or is not all there.
fn head_of(log: &[u8]) -> Option<Head>
    ensures { StartsWith log.now result }
{
    let [number, high, low, rest @ ..] = log else {
        return None;
    };
    let size = usize::from(*high) * 256 + usize::from(*low);
    if rest.len() < size {
        return None;
    }
    let kind = Kind::of(*number, size)?;
    Some(Head { kind, size })
}

// Runs the calls of a log from a session, one after the other, and writes down each answer. By index: how far the log was read is answered.
pub fn replay_on(start: Session, log: &[u8], answers: &mut [u64]) -> Reached
    ensures { ReplaysOn start log.now (length answers.old) answers.old answers.new result }
{
    let mut session = start;
    let mut read = 0;
    for (calls, answer) in answers.iter_mut().enumerate() {
        let Some(head) = head_of(&log[read..]) else {
            return Reached {
                session,
                calls,
                read,
            };
        };
        let from = read + 3;
        let to = from + head.size;
        let effect = run_call(session, head.kind, &log[from..to]);
        session = effect.session;
        *answer = answer_word(effect.answer);
        read = to;
    }
    Reached {
        session,
        calls: answers.len(),
        read,
    }
}

// Runs the calls of a log from a fresh session of the date.
pub fn replay(date: Date, log: &[u8], answers: &mut [u64]) -> Replayed
    ensures { Replays (date_in date) log.now (length answers.old) answers.old answers.new result }
{
    let opened = session::open(date);
    let run = replay_on(opened.session, log, answers);
    Replayed {
        opened: opened.answer,
        run,
    }
}
