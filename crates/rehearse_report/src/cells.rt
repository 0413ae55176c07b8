// What stands in the cells of the tables.
ghost use Rattle.std.specs.Prelude.{◌≡◌};
ghost use Rattle.rehearse_report.specs.Cells.{number_in};

use answer::{Kind, Response};
use calendar::Date;
use std::fmt;

// A reply's number; no other reply has one.
pub fn number_in(r: Response) -> Option<i64>
    ensures { result ≡ number_in r }
{
    (r.kind() == Some(Kind::Figure)).then_some(r.value)
}

// A number, or "-", as for a maximum without capacity.
#[derive(Clone, Copy)]
pub struct Cell<N>(pub Option<N>);

impl<N: fmt::Display> fmt::Display for Cell<N> {
    fn fmt<W: fmt::Write>(&self, f: &mut fmt::Formatter<W>) -> fmt::Result {
        match &self.0 {
            Some(number) => number.fmt(f),
            None => f.pad("-"),
        }
    }
}

// An hour with its clock name beside it, the first cells of a row: "     4  02 second".
#[derive(Clone, Copy)]
pub struct Hour {
    pub date: Date,
    pub hour: u32,
}

impl fmt::Display for Hour {
    fn fmt<W: fmt::Write>(&self, f: &mut fmt::Formatter<W>) -> fmt::Result {
        let clock = calendar::clock_at(self.date, self.hour);
        write!(f, "  {:>4}  ", self.hour)?;
        if clock.row != 0 {
            write!(f, "{:<9}", "-")
        } else {
            let mark = if clock.second { " second" } else { "" };
            write!(f, "{:02}{mark:<7}", clock.name)
        }
    }
}
