// The queries of a border's maxima, after clearing.
#![tactic(auto)]

ghost use Rattle.std.specs.Prelude.{◌≡◌, ◌<◌};
ghost use Rattle.rules.specs.Queries as Q;
ghost use Rattle.answer.specs.Told as T;
ghost use Rattle.query.specs.Replies.{Answered};
ghost use Rattle.query_maximum.specs.Parts.{DirectionFits, maximum_query, maximum_of};

use answer::Response;
use hour_borders::direction;
use query::{Query, reply};
use query_balance::judge_border;
use rules::row::Row;
use session::{HourFigures, Session};

// Which of a direction's maxima is asked for. The cases of `query_balance`'s enum, of another figure: one for both would be no plainer at either use.
#[derive(Clone, Copy, Debug, PartialEq, Eq)]
enum Maximum {
    Market,
    Bilateral,
}

// Where a query of a direction finds what it asks for: the index of the hour's figures, and among the energies at the borders those of
// the direction and of the other one at its border. Its capacity in the hour is the last notice's energy, if it gives one.
#[derive(Clone, Copy, Debug, PartialEq, Eq)]
struct Asked {
    at: usize,
    direction: usize,
    other: usize,
    capacity: Option<u32>,
}

impl Maximum {
    // The maximum, from the hour's figures and the capacity's energy E. "The bilateral maximum is E less the final market balance, which
    // may be below zero": seen in the direction, that balance is the energy along it less the energy against it.
    fn figure(self, figures: &HourFigures, p: Asked, energy: u32) -> Response
        requires direction { p.direction < 8 }
        requires other { p.other < 8 }
        ensures { result ≡ T.figure (maximum_of self figures.now p energy) }
    {
        match self {
            Maximum::Market => Response::from(figures.maxima[p.direction]),
            Maximum::Bilateral => {
                let along = i64::from(figures.market[p.direction]);
                let against = i64::from(figures.market[p.other]);
                Response::figure(i64::from(energy) + against - along)
            }
        }
    }
}

// Of a direction's maximum in an hour: 2, 4, 5.
#[derive(Clone, Copy)]
struct MaximumQuery {
    maximum: Maximum,
    border: u32,
    export: bool,
    hour: u32,
}

impl Query for MaximumQuery {
    type Found = Asked;

    ghost query = { λ q. maximum_query q.maximum q.border q.export q.hour };

    ghost is_found = { λ s q p. DirectionFits s q.border q.export q.hour p };

    fn judge(self, s: &Session) -> Result<Asked, Row> {
        let at = judge_border(s, self.border, self.hour)?;
        let along = direction(self.border, self.export);
        let other = direction(self.border, !self.export);
        let notice = &s.capacities[along];
        let capacity = notice.given.then_some(notice.energies[at]);
        Ok(Asked {
            at,
            direction: along,
            other,
            capacity,
        })
    }

    // "absent without capacity"
    fn show(self, s: &Session, p: Asked) -> Response {
        match p.capacity {
            Some(energy) => self.maximum.figure(&s.figures[p.at], p, energy),
            None => Response::absent(),
        }
    }
}

// Two functions over one query, since C has an entry for each; what is asked comes one by one, as C hands it.

// The market maximum of a border's direction, "absent without capacity": 2, 4, 5.
pub fn market_maximum(s: &Session, border: u32, export: bool, hour: u32) -> Response
    ensures { Answered s.now (Q.market_max border export hour) result }
{
    let maximum = Maximum::Market;
    reply(
        s,
        MaximumQuery {
            maximum,
            border,
            export,
            hour,
        },
    )
}

// Its bilateral maximum: 2, 4, 5.
pub fn bilateral_maximum(s: &Session, border: u32, export: bool, hour: u32) -> Response
    ensures { Answered s.now (Q.bilateral_max border export hour) result }
{
    let maximum = Maximum::Bilateral;
    reply(
        s,
        MaximumQuery {
            maximum,
            border,
            export,
            hour,
        },
    )
}
