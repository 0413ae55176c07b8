// The hours with their prices, and in each hour a row for each border.
use crate::cells::{Cell, Hour, number_in};
use query_any::Query;
use rules::BORDERS;
use session::Session;
use std::fmt;

#[derive(Clone, Copy, Debug, PartialEq, Eq)]
enum Border {
    France = 1,
    Andorra,
    Portugal,
    Morocco,
}

impl Border {
    const ALL: [Border; BORDERS] = [
        Border::France,
        Border::Andorra,
        Border::Portugal,
        Border::Morocco,
    ];

    fn number(self) -> u32 {
        self as u32
    }
}

impl fmt::Display for Border {
    fn fmt<W: fmt::Write>(&self, f: &mut fmt::Formatter<W>) -> fmt::Result {
        f.pad(match self {
            Border::France => "France",
            Border::Andorra => "Andorra",
            Border::Portugal => "Portugal",
            Border::Morocco => "Morocco",
        })
    }
}

// The number that a query is answered with.
fn figure(session: &Session, query: Query) -> Option<i64> {
    number_in(query.reply(session))
}

// Whether a border has a capacity, or a balance other than 0, in an hour.
fn is_used(session: &Session, border: u32, hour: u32) -> bool {
    let has_capacity = |export| {
        figure(
            session,
            Query::MarketMaximum {
                border,
                export,
                hour,
            },
        )
        .is_some()
    };
    figure(session, Query::Market { border, hour }).unwrap_or(0) != 0
        || figure(session, Query::Bilateral { border, hour }).unwrap_or(0) != 0
        || has_capacity(true)
        || has_capacity(false)
}

// The figures of a border in an hour.
#[derive(Clone, Copy)]
struct Row<'a> {
    session: &'a Session,
    border: Border,
    hour: u32,
}

impl fmt::Display for Row<'_> {
    fn fmt<W: fmt::Write>(&self, f: &mut fmt::Formatter<W>) -> fmt::Result {
        let session = self.session;
        let border = self.border.number();
        let hour = self.hour;
        write!(f, "  {:<8}", self.border)?;
        for query in [
            Query::Market { border, hour },
            Query::Bilateral { border, hour },
            Query::MarketMaximum {
                border,
                export: true,
                hour,
            },
            Query::MarketMaximum {
                border,
                export: false,
                hour,
            },
            Query::BilateralMaximum {
                border,
                export: true,
                hour,
            },
            Query::BilateralMaximum {
                border,
                export: false,
                hour,
            },
        ] {
            write!(f, "{:>10}", Cell(figure(session, query)))?;
        }
        writeln!(f)
    }
}

const HEAD: &str = "
                                                          market    market bilateral bilateral
                                      market bilateral   maximum   maximum   maximum   maximum
  hour  clock      price  border     balance   balance    export    import    export    import
";

// All hours of the day. Borders without a capacity and a balance in the day are left out.
#[derive(Clone, Copy)]
pub struct Hours<'a>(pub &'a Session);

impl fmt::Display for Hours<'_> {
    fn fmt<W: fmt::Write>(&self, f: &mut fmt::Formatter<W>) -> fmt::Result {
        let session = self.0;
        let shown = Border::ALL.map(|border| {
            (1..=session.hours)
                .any(|hour| is_used(session, border.number(), hour))
                .then_some(border)
        });
        f.write_str(HEAD)?;
        for hour in 1..=session.hours {
            let date = session.date;
            let price = Cell(figure(session, Query::Price(hour)));
            write!(f, "{}{price:>7}", Hour { date, hour })?;
            // The first border stands beside the hour.
            let mut indent = 0;
            for border in shown.into_iter().flatten() {
                write!(
                    f,
                    "{:indent$}{}",
                    "",
                    Row {
                        session,
                        border,
                        hour
                    }
                )?;
                indent = 24;
            }
            if indent == 0 {
                writeln!(f)?;
            }
        }
        Ok(())
    }
}
