// What the gate says, in words.
ghost use Rattle.std.specs.Prelude.{Some};
ghost use Rattle.rehearse_report.specs.Words.{row_words, hour_words, reason_words, told_words};

use answer::{Kind, Response};
use rules::row::Row;
use std::fmt;

// The answer of a call or a query: "accepted", "refused 10 maximum hour 3", "number 5". What has the number of no kind reads as steps.
#[derive(Clone, Copy, Debug, PartialEq, Eq)]
pub struct InWords(pub Response);

impl fmt::Display for InWords {
    ghost output = { λ t. Some (told_words t.0) };

    fn fmt<W: fmt::Write>(&self, f: &mut fmt::Formatter<W>) -> fmt::Result {
        let Response {
            row,
            hour,
            value,
            count,
            ..
        } = self.0;
        match self.0.kind() {
            Some(Kind::Accepted) => f.write_str("accepted"),
            Some(Kind::Refused) => write!(f, "refused {}", Reason { row, hour }),
            Some(Kind::Numbered) => write!(f, "number {value}"),
            Some(Kind::Hidden) => f.write_str("hidden"),
            Some(Kind::Limit) => write!(f, "limit {}", Reason { row, hour }),
            Some(Kind::Figure) => write!(f, "{value}"),
            Some(Kind::Absent) => f.write_str("none"),
            Some(Kind::Steps) | None => write!(f, "steps {count}"),
        }
    }
}

// A row of the refusal table by its number and word, and the hour: "10 maximum hour 3", "2 gate". Both are numbers as the `Response` has them for
// C, which may be those of no row and no hour.
#[derive(Clone, Copy)]
struct Reason {
    row: u32,
    hour: u32,
}

impl fmt::Display for Reason {
    ghost output = { λ r. Some (reason_words r.row r.hour) };

    fn fmt<W: fmt::Write>(&self, f: &mut fmt::Formatter<W>) -> fmt::Result {
        let Reason { row, hour } = *self;
        write!(f, "{row}{}{}", Word(row), At(hour))
    }
}

#[derive(Clone, Copy)]
struct Word(u32);

impl fmt::Display for Word {
    ghost output = { λ w. Some (row_words w.0) };

    #[tactic(auto, using(crate::proofs::WordLaws::word_laws))]
    fn fmt<W: fmt::Write>(&self, f: &mut fmt::Formatter<W>) -> fmt::Result {
        match Row::try_from(self.0) {
            Ok(row) => write!(f, " {row}"),
            Err(_) => Ok(()),
        }
    }
}

// 0 where the table gives no hour.
#[derive(Clone, Copy)]
struct At(u32);

impl fmt::Display for At {
    ghost output = { λ h. Some (hour_words h.0) };

    fn fmt<W: fmt::Write>(&self, f: &mut fmt::Formatter<W>) -> fmt::Result {
        match self.0 {
            0 => Ok(()),
            hour => write!(f, " hour {hour}"),
        }
    }
}
