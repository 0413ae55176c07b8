// The gate's one answer to every call, query and question about a date: a plain struct, which C is handed.
#![tactic(auto)]

ghost use Rattle.std.specs.Prelude.{◌≡◌, pos};
ghost use Rattle.answer.specs.Told as T;
ghost use Rattle.answer.specs.Kinds.{kind_number, kind_of, KindOf};
ghost use Rattle.answer.specs.Refused.{of_row};
ghost use Rattle.rules.specs.Rows.{number_of};

use rules::row::Row;

// A call, a query or a judgement that is refused: the table's row and its hour. 0 where the table gives none is document 01's own number
// ("otherwise the hour is 0"), which answers hand on as it is.
#[derive(Clone, Copy, Debug, PartialEq, Eq)]
pub struct Refusal {
    pub row: Row,
    pub hour: u32,
}

// "otherwise the hour is 0"
impl From<Row> for Refusal {
    ghost from_gives = { λ row r. r ≡ of_row row };

    fn from(row: Row) -> Refusal {
        Refusal { row, hour: 0 }
    }
}

// What an answer's kind says; its number is what C reads.
#[derive(Clone, Copy, Debug, PartialEq, Eq)]
pub enum Kind {
    Accepted,
    Refused,
    Numbered,
    Steps,
    Hidden,
    Limit,
    Figure,
    Absent,
}

impl Kind {
    // A method, as `Row::number`.
    pub fn number(self) -> u32
        ensures { result ≡ kind_number self }
    {
        self as u32
    }
}

// A number that is no kind's; a type of its own, as `UnknownRow`.
#[derive(Clone, Copy, Debug, PartialEq, Eq)]
pub struct UnknownKind(pub u32);

impl TryFrom<u32> for Kind {
    type Error = UnknownKind;

    ghost try_from_gives = { KindOf };

    fn try_from(number: u32) -> Result<Kind, UnknownKind> {
        match number {
            0 => Ok(Kind::Accepted),
            1 => Ok(Kind::Refused),
            2 => Ok(Kind::Numbered),
            3 => Ok(Kind::Steps),
            4 => Ok(Kind::Hidden),
            5 => Ok(Kind::Limit),
            6 => Ok(Kind::Figure),
            7 => Ok(Kind::Absent),
            _ => Err(UnknownKind(number)),
        }
    }
}

// An answer, as C has it: numbers for the kind and the row. Its kind says which of the other fields hold something; those that do not are 0,
// and so is what is reserved, which leaves no padding.
#[repr(C)]
#[derive(Clone, Copy, Debug, Default, PartialEq, Eq)]
pub struct Response {
    pub kind: u32,
    // The refusal table's number of a refusal or of a limit.
    pub row: u32,
    // Its hour, 0 where the table gives none.
    pub hour: u32,
    pub reserved: u32,
    // A lodging number, or a figure.
    pub value: i64,
    // The steps of a clearing.
    pub count: u64,
}

// As C has it: an hour's clock name and mark with row 0, or the refusal table's number with name 0 and no mark.
#[repr(C)]
#[derive(Clone, Copy, Debug, Default, PartialEq, Eq)]
pub struct ClockName {
    pub row: u32,
    pub name: u32,
    pub second: bool,
    pub reserved: u8,
    pub reserved2: u16,
}

// A kind that says no more.
fn plain(kind: Kind) -> Response
    ensures { result ≡ T.plain (kind_number kind) }
{
    Response {
        kind: kind.number(),
        ..Response::default()
    }
}

// A kind with the table's number and its hour.
fn by_row(kind: Kind, row: u32, hour: u32) -> Response
    ensures { result ≡ T.by_row (kind_number kind) row hour }
{
    Response {
        row,
        hour,
        ..plain(kind)
    }
}

// A kind with a number.
fn valued(kind: Kind, value: i64) -> Response
    ensures { result ≡ T.valued (kind_number kind) value }
{
    Response {
        value,
        ..plain(kind)
    }
}

impl Response {
    // What its kind says; none where C's number is no kind's.
    pub fn kind(&self) -> Option<Kind>
        ensures { result ≡ kind_of self.now.kind }
    {
        Kind::try_from(self.kind).ok()
    }

    // An accepted call that answers no more, or an accepted lodgement.
    pub fn accepted() -> Response
        ensures { result ≡ T.accepted }
    {
        plain(Kind::Accepted)
    }

    // A refusal: the table's number and its hour. It takes any number, since C's field holds any; of a `Refusal`, which has fifteen rows, it is `From`.
    pub fn refused(row: u32, hour: u32) -> Response
        ensures { result ≡ T.refused row hour }
    {
        by_row(Kind::Refused, row, hour)
    }

    // A lodging number.
    pub fn numbered(number: u32) -> Response
        ensures { result ≡ T.numbered number }
    {
        valued(Kind::Numbered, i64::from(number))
    }

    // The steps of a clearing.
    pub fn steps(count: u64) -> Response
        ensures { result ≡ T.steps count }
    {
        Response {
            count,
            ..plain(Kind::Steps)
        }
    }

    // A hidden lodgement.
    pub fn hidden() -> Response
        ensures { result ≡ T.hidden }
    {
        plain(Kind::Hidden)
    }

    // A lodgement that a limit refused: the limit's number and hour, as the session keeps them.
    pub fn limit(row: u32, hour: u32) -> Response
        ensures { result ≡ T.limit row hour }
    {
        by_row(Kind::Limit, row, hour)
    }

    // A figure, which may be below zero.
    pub fn figure(value: i64) -> Response
        ensures { result ≡ T.figure value }
    {
        valued(Kind::Figure, value)
    }

    // A maximum without capacity.
    pub fn absent() -> Response
        ensures { result ≡ T.absent }
    {
        plain(Kind::Absent)
    }
}

// A figure that is a number of energy or price.
impl From<u32> for Response {
    ghost from_gives = { λ n r. r ≡ T.figure (pos n) };

    fn from(n: u32) -> Response {
        Response::figure(i64::from(n))
    }
}

// A refusal: the table's number and its hour.
impl From<Refusal> for Response {
    ghost from_gives = { λ refusal r. r ≡ T.refusal refusal };

    fn from(refusal: Refusal) -> Response {
        Response::refused(refusal.row.number(), refusal.hour)
    }
}

// A refusal without an hour.
impl From<Row> for Response {
    ghost from_gives = { λ row r. r ≡ T.refusal (of_row row) };

    fn from(row: Row) -> Response {
        Response::from(Refusal::from(row))
    }
}

impl ClockName {
    // No clock name: the refusal table's number, any, since C's field holds any; of a row it is `From`.
    pub fn unnamed(row: u32) -> ClockName
        ensures { result ≡ T.unnamed row }
    {
        ClockName {
            row,
            ..ClockName::default()
        }
    }
}

impl From<Row> for ClockName {
    ghost from_gives = { λ row r. r ≡ T.unnamed (number_of row) };

    fn from(row: Row) -> ClockName {
        ClockName::unnamed(row.number())
    }
}
