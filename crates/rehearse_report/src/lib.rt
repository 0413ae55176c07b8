// A session's day as text for a control room: the verdicts once it is closed, the figures once it is cleared
// (docs/REHEARSAL.md, "Report").
#![tactic(auto)]

ghost use Rattle.std.specs.Prelude.{◌≡◌, eqb, not};
ghost use Rattle.std.specs.List.{list_any};

use borders::Hours;
use calendar::Date;
use session::Session;
use std::fmt;
use units::{Energies, Energy};
use verdicts::Verdicts;

mod borders;
mod cells;
pub mod replies;
mod units;
mod verdicts;

// The report of a session: lines that are empty or start with two blanks.
#[derive(Clone, Copy)]
pub struct Report<'a>(pub &'a Session);

impl fmt::Display for Report<'_> {
    fn fmt<W: fmt::Write>(&self, f: &mut fmt::Formatter<W>) -> fmt::Result {
        let session = self.0;
        writeln!(f, "  {}, {} hours", Day(session.date), session.hours)?;
        if !session.closed {
            return writeln!(f, "  not closed");
        }
        write!(f, "{}", Verdicts(session))?;
        if !session.cleared {
            return writeln!(f, "\n  not cleared");
        }
        write!(f, "{}", Figures(session))
    }
}

// "2006-10-29"
#[derive(Clone, Copy)]
struct Day(Date);

impl fmt::Display for Day {
    fn fmt<W: fmt::Write>(&self, f: &mut fmt::Formatter<W>) -> fmt::Result {
        let Date { year, month, day } = self.0;
        write!(f, "{year}-{month:02}-{day:02}")
    }
}

// Whether a border has a loss: then exports do not count there what units have.
fn loses(session: &Session) -> bool
    ensures { result ≡ list_any (λ loss. not (eqb loss 0)) session.now.losses }
{
    session.losses.iter().any(|loss| *loss != 0)
}

#[derive(Clone, Copy)]
struct Figures<'a>(&'a Session);

impl fmt::Display for Figures<'_> {
    fn fmt<W: fmt::Write>(&self, f: &mut fmt::Formatter<W>) -> fmt::Result {
        let session = self.0;
        let counted = if loses(session) {
            "; balances and maxima as counted at the border"
        } else {
            ""
        };
        writeln!(
            f,
            "\n  Energies in tenths of MWh, prices in hundredths of a euro per MWh, balances exports less imports{counted}."
        )?;
        write!(f, "{}", Hours(session))?;
        for energy in [Energy::Matched, Energy::Executed] {
            write!(f, "{}", Energies { session, energy })?;
        }
        Ok(())
    }
}
