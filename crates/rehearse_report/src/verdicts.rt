// The verdicts: a row for each lodgement that stood at closing.
use crate::cells::Cell;
use crate::replies::InWords;
use query_any::Query;
use session::{Key, Session};
use std::fmt;

#[derive(Clone, Copy)]
pub struct Verdicts<'a>(pub &'a Session);

impl fmt::Display for Verdicts<'_> {
    fn fmt<W: fmt::Write>(&self, f: &mut fmt::Formatter<W>) -> fmt::Result {
        let session = self.0;
        writeln!(
            f,
            "\n  number  kind       mark        unit  contract  verdict"
        )?;
        for lodgement in session.lodgements.iter().take(session.standing) {
            let number = lodgement.number;
            let verdict = InWords(Query::Verdict(number).reply(session));
            writeln!(f, "  {number:>6}  {}  {verdict}", Holder(lodgement.key))?;
        }
        Ok(())
    }
}

// "execution  normal       8        12"
#[derive(Clone, Copy)]
struct Holder(Key);

impl fmt::Display for Holder {
    fn fmt<W: fmt::Write>(&self, f: &mut fmt::Formatter<W>) -> fmt::Result {
        let key = self.0;
        let kind = if key.execution { "execution" } else { "offer" };
        let mark = if key.default { "default" } else { "normal" };
        let contract = Cell(key.execution.then_some(key.contract));
        write!(f, "{kind:<9}  {mark:<7}{:>7}{contract:>10}", key.unit)
    }
}
