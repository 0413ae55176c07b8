// Queries: what all of them share, and the price. Verdicts are asked in `query_verdict`, a unit's energies in `query_unit`, a border's
// balances in `query_balance` and its maxima in `query_maximum`. The session is lent: an answer reads one element of an array.
#![tactic(auto)]

ghost use Rattle.std.specs.Prelude.{◌≡◌, IfOk};
ghost use Rattle.rules.specs.Hours.{not_an_hour};
ghost use Rattle.rules.specs.Queries as Q;
ghost use Rattle.session.specs.declared.Session.{Session};
ghost use Rattle.query.specs.Replies.{Answered};
ghost use Rattle.query.specs.Parts.{Judges, Shows, HourFits};

use answer::Response;
use rules::row::Row;
use session::Session;

// Row 4: "an hour" outside 1 to the day's hours.
#[tactic(auto, unfolding(rules::specs::Hours::not_an_hour))]
fn not_an_hour(hours: u32, hour: u32) -> bool
    ensures { result ≡ not_an_hour hours hour }
{
    !(1..=hours).contains(&hour)
}

// The index of an hour's figures, or the row that refuses them: 2, 4. A session that the guard rejects is answered 2; no call leaves
// one.
pub fn judge_hour(s: &Session, hour: u32) -> Result<usize, Row>
    ensures judges { Judges s.now (Q.price hour) result }
    ensures found { IfOk result (λ at. HourFits s.now hour at) }
{
    if !s.sound() || !s.cleared {
        return Err(Row::Gate);
    }
    if not_an_hour(s.hours, hour) {
        return Err(Row::Hour);
    }
    Ok(hour as usize - 1)
}

// A query: the rows that refuse it, and what it shows where none does.
pub trait Query: Copy {
    // what the judgement finds on its way
    type Found: Copy;

    // the rules' query
    ghost query: { Self → Q.Query };

    ghost is_found: { Session → Self → Self.Found → Type 0 };

    fn judge(self, s: &Session) -> Result<Self::Found, Row>
        ensures judges { Judges s.now (query self) result }
        ensures found { IfOk result (λ x. is_found s.now self x) };

    fn show(self, s: &Session, found: Self::Found) -> Response
        requires { is_found s.now self found }
        ensures { Shows s.now (query self) result };
}

// The reply to a query.
pub fn reply<A: Query>(s: &Session, asked: A) -> Response
    ensures { Answered s.now (A.query asked) result }
{
    match asked.judge(s) {
        Ok(found) => asked.show(s, found),
        Err(row) => Response::from(row),
    }
}

// Of an hour's price.
#[derive(Clone, Copy)]
struct PriceQuery {
    hour: u32,
}

impl Query for PriceQuery {
    type Found = usize;

    ghost query = { λ q. Q.price q.hour };

    ghost is_found = { λ s q at. HourFits s q.hour at };

    fn judge(self, s: &Session) -> Result<usize, Row> {
        judge_hour(s, self.hour)
    }

    fn show(self, s: &Session, at: usize) -> Response {
        Response::from(s.figures[at].price)
    }
}

// The hour's price: 2, 4.
pub fn price(s: &Session, hour: u32) -> Response
    ensures { Answered s.now (Q.price hour) result }
{
    reply(s, PriceQuery { hour })
}
