// The lines of a rehearsal read (docs/REHEARSAL.md): their words, and what a line asks for. Nothing of a session.
#![tactic(auto)]

pub mod calls;
pub mod lines;
mod messages;
mod queries;
pub mod words;
