// A rehearsal: calls and queries as lines of text on standard input, run on the session that the last one left; each answer
// is a line, a report a line and its tables (docs/REHEARSAL.md). At the end it says how many were run, refused and not understood.
#![tactic(auto)]

use arrayvec::ArrayVec;
use output::Output;
use rehearse_lines::run;
use rehearse_lines::telling::{Said, tell};
use rehearse_words::lines;
use rehearse_words::words::is_blank;
use session::Session;
use std::fmt;
use std::fmt::Write;
use std::io::Read;

// How many bytes of a line are kept.
const ROOM: usize = 8192;

// How many bytes are read at once, at most.
const PIECE: usize = 4096;

// A line so far, from its first word on, and whether there was more than there is room for: a mark beside the bytes, which still say whether a line
// that is too long is a comment.
#[derive(Drop)]
struct Line {
    bytes: ArrayVec<u8, ROOM>,
    is_long: bool,
}

impl Line {
    fn new() -> Line {
        Line {
            bytes: ArrayVec::new(),
            is_long: false,
        }
    }

    fn push(&mut self, byte: u8) {
        if self.bytes.is_empty() && is_blank(byte) {
            return;
        }
        if self.bytes.try_push(byte).is_err() {
            self.is_long = true;
        }
    }

    // What it asks for, where it is understood; a line that is too long is not.
    fn read(&self) -> Option<lines::Line> {
        if self.is_long {
            return None;
        }
        lines::Line::read(self.bytes.as_slice())
    }

    fn clear(&mut self) {
        self.bytes.clear();
        self.is_long = false;
    }
}

// The session, and the counts: lines, calls and queries, those refused, lines that are neither.
#[derive(Drop)]
struct Day {
    session: Session,
    lines: u64,
    calls: u64,
    refused: u64,
    not_understood: u64,
}

impl Day {
    fn new() -> Day {
        Day {
            session: rehearse_lines::first_session(),
            lines: 0,
            calls: 0,
            refused: 0,
            not_understood: 0,
        }
    }

    // A report, which asks for nothing that could be refused, is not counted.
    fn count(&mut self, said: Said) {
        match said {
            Said::NotUnderstood => self.not_understood = self.not_understood.saturating_add(1),
            Said::Answer(_) => self.calls = self.calls.saturating_add(1),
            Said::Report => {}
        }
        if said.is_refused() {
            self.refused = self.refused.saturating_add(1);
        }
    }

    // A line's end: blank lines and comments say nothing.
    fn end_line(&mut self, out: &mut Output, line: &Line) -> fmt::Result {
        self.lines = self.lines.saturating_add(1);
        if matches!(line.bytes.first(), None | Some(b'#')) {
            return Ok(());
        }
        let said = match line.read() {
            Some(asked) => run(&mut self.session, asked),
            None => Said::NotUnderstood,
        };
        self.count(said);
        tell(out, self.lines, said, &self.session)?;
        // Whoever writes the next line reads this answer first.
        out.flush();
        Ok(())
    }

    // Bytes of the input: the rest of the line so far, and what follows it.
    fn take(&mut self, out: &mut Output, line: &mut Line, bytes: &[u8]) -> fmt::Result {
        for byte in bytes {
            if *byte == b'\n' {
                self.end_line(out, line)?;
                line.clear();
            } else {
                line.push(*byte);
            }
        }
        Ok(())
    }
}

impl fmt::Display for Day {
    fn fmt<W: fmt::Write>(&self, f: &mut fmt::Formatter<W>) -> fmt::Result {
        write!(
            f,
            "{} calls, {} refused, {} not understood",
            self.calls, self.refused, self.not_understood
        )
    }
}

// A read that fails is the end. A proved loop has to end, and nothing says that the input does: no run uses up so many turns.
fn rehearse<R: Read>(out: &mut Output, input: &mut R) -> fmt::Result {
    let mut day = Day::new();
    let mut line = Line::new();
    let mut piece = [0; PIECE];
    for _ in 0..u64::MAX {
        match input.read(&mut piece) {
            Ok(0) | Err(_) => break,
            Ok(count) => day.take(out, &mut line, &piece[..count])?,
        }
    }
    day.end_line(out, &line)?;
    writeln!(out, "{day}")?;
    out.flush();
    Ok(())
}

fn main(rt: HostRuntime) {
    // An output never fails: what it can't write, it passes over.
    let _ = rehearse(&mut Output::new(), &mut rt.reader());
}
