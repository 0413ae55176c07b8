// A recovery: a day's call log (docs/LOG.md) run again, by `book::replay` from a date and by `book::replay_on` from the
// session that is left. Each line of standard input is one of these, and each is answered with a line:
//
//     log HEX                              the log's bytes
//     byte AT VALUE                        one of them is another
//     replay YEAR MONTH DAY ROOM FROM TO   those from an index up to another, from a fresh session of the date; there is room for so
//                                          many answers
//     replay-on ROOM FROM TO               the same from the session that is left
//
// Any other line is one of a rehearsal (docs/REHEARSAL.md), run on that session. tests/recovery makes the input and, from the
// independent model, what is expected.
#![tactic(auto)]

use answer::Response;
use arrayvec::ArrayVec;
use book::Replayed;
use calendar::Date;
use output::Output;
use rehearse_lines::telling::{Said, tell};
use rehearse_report::replies::InWords;
use rehearse_words::lines;
use rehearse_words::words::{Words, is_blank};
use session::Session;
use std::fmt;
use std::fmt::Write;

const STDIN: i32 = 0;

// How many bytes of the input are read.
const INPUT: usize = 262144;

// How many bytes a log may have.
const LOG: usize = 16384;

// How many answers there is room for at most.
const ANSWERS: usize = 256;

// What stands where no answer was written: no answer has all its bits. It is a number, as the answers are that `book::replay` writes down.
const NO_ANSWER: u64 = u64::MAX;

// The bytes of the log that are run, and the room for answers.
#[derive(Clone, Copy)]
struct Part {
    room: usize,
    from: usize,
    to: usize,
}

// What a line asks for.
#[derive(Drop)]
enum Line {
    Log(ArrayVec<u8, LOG>),
    Byte(usize, u8),
    Replay(Date, Part),
    ReplayOn(Part),
    Rehearsed(lines::Line),
}

fn read_part(words: &mut Words) -> Option<Part> {
    Some(Part {
        room: words.number()? as usize,
        from: words.number()? as usize,
        to: words.number()? as usize,
    })
}

fn read_date(words: &mut Words) -> Option<Date> {
    Some(Date {
        year: words.number()?,
        month: words.number()?,
        day: words.number()?,
    })
}

fn asked(words: &mut Words) -> Option<Line> {
    let name = words.next()?;
    Some(match name {
        b"log" => Line::Log(words.bytes()?),
        b"byte" => Line::Byte(
            words.number()? as usize,
            u8::try_from(words.number()?).ok()?,
        ),
        b"replay" => Line::Replay(read_date(words)?, read_part(words)?),
        b"replay-on" => Line::ReplayOn(read_part(words)?),
        _ => Line::Rehearsed(lines::asked(name, words)?),
    })
}

// What a line asks for, where all its words are understood: `Line::read` of rehearse_words, for more lines.
fn read(line: &[u8]) -> Option<Line> {
    let mut words = Words { rest: line };
    let line = asked(&mut words)?;
    words.end()?;
    Some(line)
}

// A log run: "calls 12, bytes 1848:", then for each index in the room an answer or `NO_ANSWER`. The date's answer stands first, where there is
// a date.
#[derive(Clone, Copy)]
struct Run<'a> {
    opened: Option<Response>,
    calls: usize,
    read: usize,
    answers: &'a [u64],
}

impl fmt::Display for Run<'_> {
    fn fmt<W: fmt::Write>(&self, f: &mut fmt::Formatter<W>) -> fmt::Result {
        if let Some(opened) = self.opened {
            write!(f, "{}, ", InWords(opened))?;
        }
        write!(f, "calls {}, bytes {}:", self.calls, self.read)?;
        for answer in self.answers {
            write!(f, " {answer:016x}")?;
        }
        Ok(())
    }
}

// The session that is left, the log, and the lines so far.
#[derive(Drop)]
struct Day {
    session: Session,
    log: ArrayVec<u8, LOG>,
    lines: u64,
}

impl Day {
    fn new() -> Day {
        Day {
            session: rehearse_lines::first_session(),
            log: ArrayVec::new(),
            lines: 0,
        }
    }

    fn not_understood(&self, out: &mut Output) -> fmt::Result {
        tell(out, self.lines, Said::NotUnderstood, &self.session)
    }

    fn tell_bytes(&self, out: &mut Output) -> fmt::Result {
        writeln!(out, "{}: bytes {}", self.lines, self.log.len())
    }

    // From a fresh session of the date, where one is given. Each of the two is a line, and a closure for it would be longer.
    fn run_log(&mut self, out: &mut Output, date: Option<Date>, part: Part) -> fmt::Result {
        let mut room = [NO_ANSWER; ANSWERS];
        let Some(answers) = room.get_mut(..part.room) else {
            return self.not_understood(out);
        };
        let Some(log) = self.log.as_slice().get(part.from..part.to) else {
            return self.not_understood(out);
        };
        let (opened, reached) = match date {
            Some(date) => {
                let Replayed { opened, run } = book::replay(date, log, answers);
                (Some(opened), run)
            }
            None => (None, book::replay_on(self.session, log, answers)),
        };
        self.session = reached.session;
        let run = Run {
            opened,
            calls: reached.calls,
            read: reached.read,
            answers,
        };
        writeln!(out, "{}: {run}", self.lines)
    }

    fn put_byte(&mut self, out: &mut Output, at: usize, byte: u8) -> fmt::Result {
        let Some(x) = self.log.as_mut_slice().get_mut(at) else {
            return self.not_understood(out);
        };
        *x = byte;
        self.tell_bytes(out)
    }

    fn run(&mut self, out: &mut Output, line: Option<Line>) -> fmt::Result {
        match line {
            None => self.not_understood(out),
            Some(Line::Log(log)) => {
                self.log = log;
                self.tell_bytes(out)
            }
            Some(Line::Byte(at, byte)) => self.put_byte(out, at, byte),
            Some(Line::Replay(date, part)) => self.run_log(out, Some(date), part),
            Some(Line::ReplayOn(part)) => self.run_log(out, None, part),
            Some(Line::Rehearsed(line)) => {
                let said = rehearse_lines::run(&mut self.session, line);
                tell(out, self.lines, said, &self.session)
            }
        }
    }

    // A line's end: blank lines and comments say nothing.
    fn end_line(&mut self, out: &mut Output, line: &[u8]) -> fmt::Result {
        self.lines = self.lines.saturating_add(1);
        if line.iter().all(|b| is_blank(*b)) || line.starts_with(b"#") {
            return Ok(());
        }
        self.run(out, read(line))
    }
}

fn recover(out: &mut Output, input: &[u8]) -> fmt::Result {
    let mut day = Day::new();
    for line in input.split(|b| *b == b'\n') {
        day.end_line(out, line)?;
        out.flush();
    }
    Ok(())
}

fn main() {
    let mut input = [0; INPUT];
    // A read that fails is the end of the input.
    let count = io::read_full(STDIN, &mut input);
    // An output never fails: what it can't write, it passes over.
    let _ = recover(&mut Output::new(), &input[..count]);
}
