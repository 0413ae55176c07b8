// The query of a verdict, after closing.
#![tactic(auto)]

ghost use Rattle.std.specs.Prelude.{◌≡◌, ◌<◌, length, position, IfSome};
ghost use Rattle.rules.specs.Queries as Q;
ghost use Rattle.query.specs.Replies.{Answered};
ghost use Rattle.query_verdict.specs.Parts.{lodged, told_as, Rising, VerdictFits};

use answer::Response;
use query::{Query, reply};
use rules::row::Row;
use session::{Lodgement, Session, Verdict};

// The index of a lodging number, by halving, since the numbers rise.
fn lodged_at(lodgements: &[Lodgement], number: u32) -> Option<usize>
    ensures inside { IfSome result (λ at. at < length lodgements.now) }
    ensures found { Rising lodgements.now → result ≡ position (lodged number) lodgements.now }
{
    lodgements.binary_search_by_key(&number, |l| l.number).ok()
}

// A verdict with no limit's number is hidden. No `From`: it would stand in `session`, far from this one use of it.
#[tactic(auto, unfolding(crate::specs::Parts::told_as))]
fn response_of(v: Verdict) -> Response
    ensures { result ≡ told_as v }
{
    if v.accepted {
        Response::accepted()
    } else if v.limit == 0 {
        Response::hidden()
    } else {
        Response::limit(v.limit, v.hour)
    }
}

// Of a lodging number's verdict: 2, 13.
#[derive(Clone, Copy)]
struct VerdictQuery {
    number: u32,
}

impl Query for VerdictQuery {
    type Found = usize;

    ghost query = { λ q. Q.verdict q.number };

    ghost is_found = { λ s q at. VerdictFits s q.number at };

    fn judge(self, s: &Session) -> Result<usize, Row> {
        if !s.sound() || !s.closed {
            return Err(Row::Gate);
        }
        lodged_at(&s.lodgements[..s.standing], self.number).ok_or(Row::Absent)
    }

    fn show(self, s: &Session, at: usize) -> Response {
        response_of(s.verdicts[at])
    }
}

// "a lodging number's verdict", after closing: 2, 13.
pub fn verdict(s: &Session, number: u32) -> Response
    ensures { Answered s.now (Q.verdict number) result }
{
    reply(s, VerdictQuery { number })
}
