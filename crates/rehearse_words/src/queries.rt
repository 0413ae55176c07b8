// A line that is a query.
use crate::words::Words;
use query_any::Query;

// The query that a line's first word names. The words after it give its arguments.
pub(crate) fn query(name: &[u8], words: &mut Words) -> Option<Query> {
    Some(match name {
        b"verdict" => Query::Verdict(words.number()?),
        b"matched" => Query::Matched {
            unit: words.number()?,
            hour: words.number()?,
        },
        b"executed" => Query::Executed {
            unit: words.number()?,
            hour: words.number()?,
        },
        b"market" => Query::Market {
            border: words.number()?,
            hour: words.number()?,
        },
        b"bilateral" => Query::Bilateral {
            border: words.number()?,
            hour: words.number()?,
        },
        b"price" => Query::Price(words.number()?),
        b"market-maximum" => Query::MarketMaximum {
            border: words.number()?,
            export: words.either(b"import", b"export")?,
            hour: words.number()?,
        },
        b"bilateral-maximum" => Query::BilateralMaximum {
            border: words.number()?,
            export: words.either(b"import", b"export")?,
            hour: words.number()?,
        },
        _ => return None,
    })
}
