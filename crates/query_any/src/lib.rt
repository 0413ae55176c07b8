// The session's queries as one type, and a query's reply.
#![tactic(auto)]

ghost use Rattle.std.specs.Prelude.{◌≡◌};
ghost use Rattle.query.specs.Replies.{Answered};
ghost use Rattle.query_any.specs.Asked.{asked, query_in, query_of, Replied};

use answer::Response;
use rules::row::Row;
use session::Session;

// The queries' numbers, as a program may keep them: calls have 1 to 10 (crates/book_log).
pub const VERDICT: u8 = 101;

pub const MATCHED: u8 = 102;

pub const EXECUTED: u8 = 103;

pub const MARKET: u8 = 104;

pub const BILATERAL: u8 = 105;

pub const PRICE: u8 = 106;

pub const MARKET_MAXIMUM: u8 = 107;

pub const BILATERAL_MAXIMUM: u8 = 108;

// A query, with what it asks about. The hour is a number, whether the day has it or not.
#[derive(Clone, Copy, Debug, PartialEq, Eq)]
pub enum Query {
    // Of a lodging number.
    Verdict(u32),
    // Of a unit in an hour.
    Matched {
        unit: u32,
        hour: u32,
    },
    Executed {
        unit: u32,
        hour: u32,
    },
    // Of a border in an hour.
    Market {
        border: u32,
        hour: u32,
    },
    Bilateral {
        border: u32,
        hour: u32,
    },
    // Of an hour.
    Price(u32),
    // Of a border's direction in an hour.
    MarketMaximum {
        border: u32,
        export: bool,
        hour: u32,
    },
    BilateralMaximum {
        border: u32,
        export: bool,
        hour: u32,
    },
}

impl Query {
    // The query with a number of its own. It is of a lodging number, a unit or a border, of a direction and of an hour, as far as it asks for
    // these. No `TryFrom`: it is made of four values.
    #[tactic(auto, unfolding(crate::specs::Asked::asked))]
    pub fn numbered(kind: u8, of: u32, export: bool, hour: u32) -> Option<Query>
        ensures { query_of result ≡ asked kind of export hour }
    {
        match kind {
            VERDICT => Some(Query::Verdict(of)),
            MATCHED => Some(Query::Matched { unit: of, hour }),
            EXECUTED => Some(Query::Executed { unit: of, hour }),
            MARKET => Some(Query::Market { border: of, hour }),
            BILATERAL => Some(Query::Bilateral { border: of, hour }),
            PRICE => Some(Query::Price(hour)),
            MARKET_MAXIMUM => Some(Query::MarketMaximum {
                border: of,
                export,
                hour,
            }),
            BILATERAL_MAXIMUM => Some(Query::BilateralMaximum {
                border: of,
                export,
                hour,
            }),
            _ => None,
        }
    }

    pub fn reply(self, s: &Session) -> Response
        ensures { Answered s.now (query_in self) result }
    {
        match self {
            Query::Verdict(number) => query_verdict::verdict(s, number),
            Query::Matched { unit, hour } => query_unit::matched(s, unit, hour),
            Query::Executed { unit, hour } => query_unit::executed(s, unit, hour),
            Query::Market { border, hour } => query_balance::market(s, border, hour),
            Query::Bilateral { border, hour } => query_balance::bilateral(s, border, hour),
            Query::Price(hour) => query::price(s, hour),
            Query::MarketMaximum {
                border,
                export,
                hour,
            } => query_maximum::market_maximum(s, border, export, hour),
            Query::BilateralMaximum {
                border,
                export,
                hour,
            } => query_maximum::bilateral_maximum(s, border, export, hour),
        }
    }

    // The same of a session by value, as the calls have it.
    pub fn reply_by_value(self, s: Session) -> Response
        ensures { Answered s (query_in self) result }
    {
        self.reply(&s)
    }
}

// The reply to a query by its number, where `Query::reply` has the query itself. A number that is no query's is refused as 3. It was public
// before `Query` was, so it stays, and makes the number an enum at once.
pub fn reply_to(s: &Session, kind: u8, of: u32, export: bool, hour: u32) -> Response
    ensures { Replied s.now (asked kind of export hour) result }
{
    match Query::numbered(kind, of, export, hour) {
        Some(query) => query.reply(s),
        None => Response::from(Row::Form),
    }
}
