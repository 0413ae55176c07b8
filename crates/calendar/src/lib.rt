// Dates, the hours of a day and their clock names (document 01, "Hours of the day").
#![tactic(auto)]

ghost use Rattle.std.specs.Prelude.{◌≡◌, ◌≤◌, ◌-◌};
ghost use Rattle.rules.specs.Hours.{leap, days_of_month, is_date, days_before, day_number, last_sunday, hours_of, clock_name, clock_of, hour_of, hours_at, clock_at, hour_at};
ghost use Rattle.answer.specs.Told.{counted, clock_told, named};
ghost use Rattle.calendar.specs.View.{date_in, clock_in, hour_if_any};

use answer::{ClockName, Response};
use rules::row::Row;
use rules::{LONG_DAY, SHORT_DAY};

#[repr(C)]
#[derive(Clone, Copy, Debug, PartialEq, Eq)]
pub struct Date {
    pub year: u32,
    pub month: u32,
    pub day: u32,
}

// "Dates run from 2002-01-01 to 2099-12-31"
const FIRST_YEAR: u32 = 2002;

const LAST_YEAR: u32 = 2099;

// "other days 24"
const OTHER_DAY: u32 = 24;

// The name of a day's last hour, whatever its length.
const LAST_NAME: u32 = 23;

// The first date that a session can have.
pub const FIRST: Date = Date {
    year: FIRST_YEAR,
    month: 1,
    day: 1,
};

// A clock name with its mark: the starting local hour, and whether it is marked "second". Reserved fields leave no padding for C.
#[repr(C)]
#[derive(Clone, Copy, Debug, Default, PartialEq, Eq)]
pub struct Clock {
    pub name: u32,
    pub second: bool,
    pub reserved: u8,
    pub reserved2: u16,
}

// Of centuries only each fourth is a leap year.
#[tactic(auto, unfolding(rules::specs::Hours::leap))]
fn is_leap(year: u32) -> bool
    ensures { result ≡ leap year }
{
    year % 4 == 0 && year % 100 != 0 || year % 400 == 0
}

#[tactic(auto, unfolding(rules::specs::Hours::days_of_month))]
fn days_of_month(year: u32, month: u32) -> u32
    ensures { result ≡ days_of_month year month }
{
    match month {
        2 if is_leap(year) => 29,
        2 => 28,
        4 | 6 | 9 | 11 => 30,
        _ => 31,
    }
}

// "Dates run from 2002-01-01 to 2099-12-31, Gregorian."
#[tactic(auto, unfolding(rules::specs::Hours::is_date))]
pub fn is_date(d: Date) -> bool
    ensures { result ≡ is_date (date_in d) }
{
    (FIRST_YEAR..=LAST_YEAR).contains(&d.year)
        && (1..=12).contains(&d.month)
        && (1..=days_of_month(d.year, d.month)).contains(&d.day)
}

// The days of a year before a month. (C's date may hold any month; those below are asked of March and October alone. A sum over the range would
// be asked of its runs, which no law of the library adds up: tried.)
fn days_before(year: u32, month: u32) -> u64
    requires { (1 ≤ month) × (month ≤ 12) }
    ensures { result ≡ days_before year (month - 1) }
{
    let mut days: u64 = 0;
    for m in 1..month {
        days += u64::from(days_of_month(year, m));
    }
    days
}

// The day's number, 1 on 0001-01-01, a Monday; no year stands before year 0. 64 bits hold it for every year and day of 32 bits.
#[tactic(auto, using(rules::proofs::HoursLaws::before_laws), unfolding(rules::specs::Hours::day_number))]
fn day_number(d: Date) -> u64
    requires { (1 ≤ d.month) × (d.month ≤ 12) }
    ensures { result ≡ day_number (date_in d) }
{
    let years = u64::from(d.year.saturating_sub(1));
    let before = days_before(d.year, d.month);
    years * 365 + years / 4 - years / 100 + years / 400 + before + u64::from(d.day)
}

// A Sunday with no other in the rest of its month.
#[tactic(auto, unfolding(rules::specs::Hours::last_sunday))]
fn is_last_sunday(d: Date) -> bool
    requires { (1 ≤ d.month) × (d.month ≤ 12) }
    ensures { result ≡ last_sunday (date_in d) }
{
    day_number(d) % 7 == 0 && u64::from(days_of_month(d.year, d.month)) < u64::from(d.day) + 7
}

// "the last Sunday of March has H = 23 hours, the last Sunday of October 25, other days 24": of any date, in the range or not.
#[tactic(auto, unfolding(rules::specs::Hours::hours_of))]
pub fn hours_of(d: Date) -> u32
    ensures { result ≡ hours_of (date_in d) }
{
    match d.month {
        3 if is_last_sunday(d) => SHORT_DAY,
        10 if is_last_sunday(d) => LONG_DAY,
        _ => OTHER_DAY,
    }
}

// The number of hours of a date.
#[tactic(auto, unfolding(rules::specs::Hours::hours_at, rules::specs::Hours::date_row, rules::specs::Refusals::row, rules::specs::Refusals::first_row, rules::specs::Refusals::unless, rules::specs::Refusals::outcome, answer::specs::Told::counted))]
pub fn hours_at(d: Date) -> Response
    ensures { result ≡ counted (hours_at (date_in d)) }
{
    if !is_date(d) {
        return Response::from(Row::Date);
    }
    Response::from(hours_of(d))
}

// "on 24 hours h−1; on 23, h−1 up to hour 2, then h; on 25, h−1 up to hour 3, then h−2"
#[tactic(auto, unfolding(rules::specs::Hours::clock_name))]
fn clock_name(hours: u32, hour: u32) -> u32
    requires { 1 ≤ hour }
    ensures { result ≡ clock_name hours hour }
{
    match hours {
        SHORT_DAY if 2 < hour => hour,
        LONG_DAY if 3 < hour => hour - 2,
        _ => hour - 1,
    }
}

// "Hours 3 and 4 of a 25-hour day are both named 2, the first unmarked, the second marked"
#[tactic(auto, unfolding(rules::specs::Hours::clock_of))]
fn clock_of(hours: u32, hour: u32) -> ClockName
    requires { 1 ≤ hour }
    ensures { result ≡ clock_told (clock_of hours hour) }
{
    ClockName {
        name: clock_name(hours, hour),
        second: hours == LONG_DAY && hour == 4,
        ..ClockName::default()
    }
}

// The clock name and mark of an hour of a date.
#[tactic(auto, unfolding(rules::specs::Hours::clock_at, rules::specs::Hours::clock_rows, rules::specs::Hours::not_an_hour, rules::specs::Hours::date_row, rules::specs::Refusals::row, rules::specs::Refusals::first_row, rules::specs::Refusals::unless, rules::specs::Refusals::outcome, answer::specs::Told::named))]
pub fn clock_at(d: Date, hour: u32) -> ClockName
    ensures { result ≡ named (clock_at (date_in d) hour) }
{
    if !is_date(d) {
        return ClockName::from(Row::Date);
    }
    let hours = hours_of(d);
    if !(1..=hours).contains(&hour) {
        return ClockName::from(Row::Hour);
    }
    clock_of(hours, hour)
}

// The hour of a clock name and mark, if the day has it. Only two o'clock of the long day is ever marked. Midnight and one o'clock
// begin every day, and from three o'clock on the hours count back from the last, which is named 23. Two o'clock is missing on the
// short day and comes twice on the long one.
#[tactic(auto, using(crate::proofs::ClockLaws::clock_laws))]
fn hour_of(hours: u32, c: Clock) -> Option<u32>
    requires { (23 ≤ hours) × (hours ≤ 25) }
    ensures { result ≡ hour_if_any (hour_of hours (clock_in c)) }
{
    if c.second {
        return if hours == LONG_DAY && c.name == 2 {
            Some(4)
        } else {
            None
        };
    }
    match c.name {
        0..=1 => Some(c.name + 1),
        2 if hours == SHORT_DAY => None,
        2 => Some(3),
        3..=LAST_NAME => Some(hours - (LAST_NAME - c.name)),
        _ => None,
    }
}

// The hour of a clock name and mark of a date.
#[tactic(auto, using(rules::proofs::HoursLaws::length_laws), unfolding(rules::specs::Hours::hour_at, rules::specs::Hours::hour_rows, rules::specs::Hours::date_row, rules::specs::Refusals::row, rules::specs::Refusals::first_row, rules::specs::Refusals::unless, rules::specs::Refusals::outcome, answer::specs::Told::counted))]
pub fn hour_at(d: Date, c: Clock) -> Response
    ensures { result ≡ counted (hour_at (date_in d) (clock_in c)) }
{
    if !is_date(d) {
        return Response::from(Row::Date);
    }
    match hour_of(hours_of(d), c) {
        Some(hour) => Response::from(hour),
        None => Response::from(Row::Hour),
    }
}
