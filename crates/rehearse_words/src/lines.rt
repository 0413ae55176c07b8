// What a line asks for.
ghost use Rattle.std.specs.Prelude.{◌≡◌, All, IsTrue, IsNone, Some, codes};
ghost use Rattle.rehearse_words.specs.Blanks.{is_blank};

use crate::calls::{Call, availability, capacities, key, loss, rights, unit};
use crate::messages::fields;
use crate::queries::query;
use crate::words::{Words, number, parted};
use calendar::Date;
use message::Fields;
use query_any::Query;

#[derive(Drop)]
pub enum Line {
    // A fresh session of the date.
    Open(Date),
    Call(Call),
    // A message of these fields, written and lodged.
    Message(Fields),
    Query(Query),
    Report,
}

// 2006-10-29
fn date(word: &[u8]) -> Option<Date> {
    let (year, rest) = parted(word, b'-')?;
    let (month, day) = parted(rest, b'-')?;
    Some(Date {
        year: number(year)?,
        month: number(month)?,
        day: number(day)?,
    })
}

// What a line asks for: its first word says it, and the words after that are read. The clauses say it for the first words that need no other.
// For the rest it is all of docs/REHEARSAL.md, and a contract would be these functions again.
pub fn asked(name: &[u8], words: &mut Words) -> Option<Line>
    ensures close { name.now ≡ codes "close" → result ≡ Some (Line.Call Call.Close) }
    ensures clear { name.now ≡ codes "clear" → result ≡ Some (Line.Call Call.Clear) }
    ensures report { name.now ≡ codes "report" → result ≡ Some Line.Report }
{
    Some(match name {
        b"open" => Line::Open(date(words.next()?)?),
        b"register" => Line::Call(Call::Register(unit(words)?)),
        b"capacity" => Line::Call(Call::Capacity(capacities(words)?)),
        b"available" => Line::Call(Call::Available(availability(words)?)),
        b"rights" => Line::Call(Call::Rights(rights(words)?)),
        b"loss" => Line::Call(Call::Loss(loss(words)?)),
        b"offer" => Line::Message(fields(words, false)?),
        b"execution" => Line::Message(fields(words, true)?),
        b"lodge" => Line::Call(Call::Lodge(words.bytes()?)),
        b"annul" => Line::Call(Call::Annul(key(words)?)),
        b"close" => Line::Call(Call::Close),
        b"clear" => Line::Call(Call::Clear),
        b"report" => Line::Report,
        _ => Line::Query(query(name, words)?),
    })
}

impl Line {
    // What a line asks for, where all its words are understood.
    pub fn read(line: &[u8]) -> Option<Line>
        ensures { All (λ b. IsTrue (is_blank b)) line.now → IsNone result }
    {
        let mut words = Words { rest: line };
        let name = words.next()?;
        let line = asked(name, &mut words)?;
        words.end()?;
        Some(line)
    }
}
