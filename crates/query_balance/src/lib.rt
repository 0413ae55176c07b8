// The queries of a border's balances, after clearing.
#![tactic(auto)]

ghost use Rattle.std.specs.Prelude.{◌≡◌, true, false, ◌≤◌, ◌<◌, get_or, IfOk};
ghost use Rattle.std.proofs.Math.IntN.{sub_ℕ};
ghost use Rattle.rules.specs.Units.{direction};
ghost use Rattle.rules.specs.Queries as Q;
ghost use Rattle.answer.specs.Told as T;
ghost use Rattle.query.specs.Replies.{Answered};
ghost use Rattle.query.specs.Parts.{Judges};
ghost use Rattle.query_balance.specs.Parts.{BorderFits, bad_border, balance_query, balance_of};

use answer::Response;
use hour_borders::direction;
use query::{Query, judge_hour, reply};
use rules::row::Row;
use rules::{DIRECTIONS, LAST_BORDER};
use session::{HourFigures, Session};

// Which of a border's balances is asked for.
#[derive(Clone, Copy, Debug, PartialEq, Eq)]
enum Balance {
    Market,
    Bilateral,
}

impl Balance {
    // The energies that it is made of, among an hour's figures.
    fn among(self, figures: &HourFigures) -> &[u32; DIRECTIONS]
        ensures { result.now ≡ balance_of self figures.now }
    {
        match self {
            Balance::Market => &figures.market,
            Balance::Bilateral => &figures.bilateral,
        }
    }
}

// Row 5: no border 1 to 4.
fn bad_border(border: u32) -> bool
    ensures { result ≡ bad_border border }
{
    !(1..=LAST_BORDER).contains(&border)
}

// The index of an hour's figures for a border 1 to 4, or the row that refuses them: 2, 4, 5.
pub fn judge_border(s: &Session, border: u32, hour: u32) -> Result<usize, Row>
    ensures judges { Judges s.now (Q.market border hour) result }
    ensures found { IfOk result (λ at. BorderFits s.now border hour at) }
{
    let at = judge_hour(s, hour)?;
    if bad_border(border) {
        return Err(Row::Range);
    }
    Ok(at)
}

// "exports less imports", which may be below zero.
fn net(energies: &[u32; DIRECTIONS], border: u32) -> Response
    requires { (0 < border) × (border ≤ 4) }
    ensures { result ≡ T.figure (sub_ℕ (get_or energies.now (direction border true) 0) (get_or energies.now (direction border false) 0)) }
{
    let exports = energies[direction(border, true)];
    let imports = energies[direction(border, false)];
    Response::figure(i64::from(exports) - i64::from(imports))
}

// Of a border's balance in an hour: 2, 4, 5.
#[derive(Clone, Copy)]
struct BalanceQuery {
    balance: Balance,
    border: u32,
    hour: u32,
}

impl Query for BalanceQuery {
    type Found = usize;

    ghost query = { λ q. balance_query q.balance q.border q.hour };

    ghost is_found = { λ s q at. BorderFits s q.border q.hour at };

    fn judge(self, s: &Session) -> Result<usize, Row> {
        judge_border(s, self.border, self.hour)
    }

    fn show(self, s: &Session, at: usize) -> Response {
        net(self.balance.among(&s.figures[at]), self.border)
    }
}

// Two functions over one query, since C has an entry for each; what is asked comes one by one, as C hands it.

// The final market balance of a border: 2, 4, 5.
pub fn market(s: &Session, border: u32, hour: u32) -> Response
    ensures { Answered s.now (Q.market border hour) result }
{
    let balance = Balance::Market;
    reply(
        s,
        BalanceQuery {
            balance,
            border,
            hour,
        },
    )
}

// The final balance of its executions: 2, 4, 5.
pub fn bilateral(s: &Session, border: u32, hour: u32) -> Response
    ensures { Answered s.now (Q.bilateral border hour) result }
{
    let balance = Balance::Bilateral;
    reply(
        s,
        BalanceQuery {
            balance,
            border,
            hour,
        },
    )
}
