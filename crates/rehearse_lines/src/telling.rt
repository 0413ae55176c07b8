// A rehearsal line's answer, and how it is written.
ghost use Rattle.std.specs.Prelude.{◌≡◌};
ghost use Rattle.rehearse_lines.specs.Runs.{is_refused};

use answer::{Kind, Response};
use rehearse_report::Report;
use rehearse_report::replies::InWords;
use session::Session;
use std::fmt;

// The answer of a call or a query, a report, or that the line is none of these.
#[derive(Clone, Copy)]
pub enum Said {
    NotUnderstood,
    Answer(Response),
    Report,
}

impl Said {
    pub fn is_refused(&self) -> bool
        ensures { result ≡ is_refused self.now }
    {
        matches!(self, Said::Answer(answer) if answer.kind() == Some(Kind::Refused))
    }
}

impl fmt::Display for Said {
    fn fmt<W: fmt::Write>(&self, f: &mut fmt::Formatter<W>) -> fmt::Result {
        match self {
            Said::NotUnderstood => write!(f, "not understood"),
            Said::Answer(answer) => write!(f, "{}", InWords(*answer)),
            Said::Report => write!(f, "report"),
        }
    }
}

// "12: accepted"; a report's tables are further lines. No clause: it writes, and what it writes is `Said`'s and `Report`'s `Display`.
pub fn tell<W: fmt::Write>(out: &mut W, index: u64, said: Said, session: &Session) -> fmt::Result {
    writeln!(out, "{index}: {said}")?;
    match said {
        Said::Report => write!(out, "{}", Report(session)),
        _ => Ok(()),
    }
}
