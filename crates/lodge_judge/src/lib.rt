// What a message of the right form is refused for before its energy is judged: 4, 5, 6, 9.
#![tactic(auto)]

ghost use Rattle.std.specs.Prelude.{◌≡◌, ◌||◌, ◌≤◌, ℕ, IfOk, OnOk};
ghost use Rattle.rules.specs.Message.{bad_map, bad_fields};
ghost use Rattle.message.specs.View.{fields_in};
ghost use Rattle.rules.specs.Lodging.{names_beyond};
ghost use Rattle.session.specs.Parts.{Within};
ghost use Rattle.lodge_keys.specs.Keys.{key_for, key_index};
ghost use Rattle.lodge_keys.specs.Holding.{Holding};
ghost use Rattle.lodge_judge.specs.Judging.{full_at, GivesRow, Room};

use lodge_keys::holder_for;
use message::Fields;
use message_ranges::bad_map;
use rules::LONG_DAY;
use rules::row::Row;
use session::{Holder, Key, Session};

// The map names an hour beyond H: hour 25 is its lowest bit. No type says that H is at most 25: C's session has a plain number.
fn names_beyond(hours: u32, map: u32) -> bool
    requires { hours ≤ 25 }
    ensures { result ≡ names_beyond hours map }
{
    map % (1u32 << (LONG_DAY - hours)) != 0
}

// Row 4: "empty map, hour outside 1 to H", of an H that is at most 25, as above.
fn bad_hours(hours: u32, map: u32) -> bool
    requires { hours ≤ 25 }
    ensures { result ≡ (bad_map map || names_beyond hours map) }
{
    bad_map(map) || names_beyond(hours, map)
}

// Row 9: "128 lodgements and none of this key; 65,535 accepted". The key's lodgement has the index `at`, if it has one.
#[tactic(auto, unfolding(crate::specs::Judging::full_at))]
fn is_full(n: usize, last: u32, at: Option<usize>) -> bool
    ensures { result ≡ full_at n last at }
{
    Session::MAX_LODGEMENTS <= n && at.is_none() || Session::MAX_NUMBER <= last
}

// The unit of a message, or the row that refuses its fields, in the table's order. Who read it knows whether a value is out of range. What it
// replaces has the index `replaces`. (`Within`: `Session::sound` says why no type has it.)
pub fn judge_fields(
    s: &Session,
    m: &Fields,
    key: Key,
    out_of_range: bool,
    replaces: Option<usize>,
) -> Result<Holder, Row>
    requires { Within s.now × (key ≡ key_for m.now) × (replaces ≡ key_index s.now key) }
    ensures rows { (top : ℕ) → out_of_range ≡ bad_fields top (fields_in m.now) → GivesRow s.now top m.now result }
    ensures held { IfOk result (λ h. Holding s.now key h) }
    ensures room { OnOk result (Room s.now key) }
{
    if bad_hours(s.hours, m.map) {
        return Err(Row::Hour);
    }
    if out_of_range {
        return Err(Row::Range);
    }
    let holder = holder_for(s, key)?;
    if is_full(s.standing, s.last, replaces) {
        return Err(Row::Full);
    }
    Ok(holder)
}
