// A line of a rehearsal run on a session.
#![tactic(auto)]

pub mod telling;

ghost use Rattle.std.specs.Prelude.{◌≡◌, ◌≢◌, ◌↔◌};
ghost use Rattle.rules.specs.Message as M;
ghost use Rattle.calendar.specs.View.{date_in};
ghost use Rattle.message.specs.View.{fields_in};
ghost use Rattle.session.specs.Image.{image};
ghost use Rattle.session.specs.Steps.{Met, Opens};
ghost use Rattle.rules.specs.Book.{fresh};
ghost use Rattle.rehearse_lines.specs.Runs.{call_in, Lodges, Ran, IfAnswer};

use crate::telling::Said;
use answer::Response;
use calendar::{Date, FIRST};
use message::Fields;
use message::form::LONGEST;
use rehearse_words::calls::Call;
use rehearse_words::lines::Line;
use session::{Effect, Session};

// The session before the first `open`.
pub fn first_session() -> Session
    ensures { result ≡ image (fresh (record { year = 2002; month = 1; day = 1 })) }
{
    Session::fresh(FIRST)
}

fn open(session: &mut Session, date: Date) -> Response
    ensures { Opens (date_in date) (record { answer = result; session = session.new }) }
{
    let opened = session::open(date);
    *session = opened.session;
    opened.answer
}

// What a call does.
fn effect(s: Session, call: Call) -> Effect
    ensures { Met s (call_in call) result }
{
    match call {
        Call::Register(unit) => register::register(s, unit),
        Call::Capacity(notice) => notify_capacity::capacity(s, notice),
        Call::Available(notice) => notify_unavailability::available(s, notice),
        Call::Rights(notice) => notify_rights::grant(s, notice),
        Call::Loss(loss) => set_loss::set(s, loss),
        Call::Lodge(message) => lodge::lodge(s, message.as_slice()),
        Call::Annul(key) => annul::annul(s, key),
        Call::Close => close::close(s),
        Call::Clear => clear::clear(s),
    }
}

fn run_call(session: &mut Session, call: Call) -> Response
    ensures { Met session.old (call_in call) (record { session = session.new; answer = result }) }
{
    let effect = effect(*session, call);
    *session = effect.session;
    effect.answer
}

// A message written and lodged.
fn lodge_message(session: &mut Session, fields: Fields) -> Response
    ensures { Lodges session.old (M.write 108 (fields_in fields)) session.new result }
{
    let mut message = [0u8; LONGEST];
    match message_writer::write_fields(&fields, &mut message) {
        Ok(count) => {
            let effect = lodge::lodge(*session, &message[..count]);
            *session = effect.session;
            effect.answer
        }
        Err(row) => Response::from(row),
    }
}

// A line that is understood.
pub fn run(session: &mut Session, line: Line) -> Said
    ensures answer { IfAnswer result (Ran session.old line session.new) }
    ensures report { (result ≡ Said.Report) ↔ (line ≡ Line.Report) }
    ensures report_kept { result ≡ Said.Report → session.new ≡ session.old }
    ensures understood { result ≢ Said.NotUnderstood }
{
    match line {
        Line::Open(date) => Said::Answer(open(session, date)),
        Line::Call(call) => Said::Answer(run_call(session, call)),
        Line::Message(fields) => Said::Answer(lodge_message(session, fields)),
        Line::Query(query) => Said::Answer(query.reply(session)),
        Line::Report => Said::Report,
    }
}
