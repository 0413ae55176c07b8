// Keys: a message's key, which lodgements are of a key, which hide those of it, and what a key is refused for.
#![tactic(auto)]

ghost use Rattle.std.specs.Prelude.{◌≡◌, ◌≤◌, position};
ghost use Rattle.std.specs.List.{list_any};
ghost use Rattle.rules.specs.Message.{bad_key};
ghost use Rattle.rules.specs.Lodging.{same_but_default, same_key, hides};
ghost use Rattle.session.specs.Image.{key_in};
ghost use Rattle.lodge_keys.specs.Keys.{key_for, of_key, left_of, hiding};
ghost use Rattle.lodge_keys.specs.Holding.{HolderFor};

pub mod beside;

use message::Fields;
use rules::row::Row;
use session::units::holder_of;
use session::{Holder, Key, Lodgement, Session};

// The key of a message: no `From`, since neither type is this crate's.
pub fn key_of(m: &Fields) -> Key
    ensures { result ≡ key_for m.now }
{
    Key {
        execution: m.execution,
        default: m.default,
        reserved: 0,
        unit: m.unit,
        contract: m.contract,
    }
}

// Two keys that agree but for the default mark. A derived equality would look at the reserved bytes, which C may leave at anything. The unit comes
// first: most lodgements are of another.
#[tactic(auto, unfolding(rules::specs::Lodging::same_but_default))]
fn same_but_default(a: Key, b: Key) -> bool
    ensures { result ≡ same_but_default (key_in a) (key_in b) }
{
    a.unit == b.unit && a.execution == b.execution && a.contract == b.contract
}

// "A key is kind, default mark, unit and contract": no derived equality, as above.
#[tactic(auto, unfolding(rules::specs::Lodging::same_key))]
pub fn same_key(a: Key, b: Key) -> bool
    ensures { result ≡ same_key (key_in a) (key_in b) }
{
    same_but_default(a, b) && a.default == b.default
}

// "A normal lodgement, while it stands, hides the default one that agrees with it in the rest of the key"
#[tactic(auto, unfolding(rules::specs::Lodging::hides))]
pub fn hides(a: Key, b: Key) -> bool
    ensures { result ≡ hides (key_in a) (key_in b) }
{
    same_but_default(a, b) && !a.default && b.default
}

// The index of the lodgement of this key. Not inlined: in the body of lodging the loop had too few registers, and lodging took two fifths longer.
#[inline(never)]
pub fn key_index(lodgements: &[Lodgement], key: Key) -> Option<usize>
    ensures { result ≡ position (of_key key) lodgements.now }
{
    lodgements.iter().position(|l| same_key(l.key, key))
}

// How many of n lodgements are left without the one at index p, if there is one.
pub fn left_of(n: usize, p: Option<usize>) -> usize
    ensures { result ≡ left_of n p }
{
    match p {
        Some(_) => n.saturating_sub(1),
        None => n,
    }
}

// Whether one of the lodgements hides those of this key.
pub fn is_hidden(lodgements: &[Lodgement], key: Key) -> bool
    ensures { result ≡ list_any (hiding key) lodgements.now }
{
    lodgements.iter().any(|l| hides(l.key, key))
}

// Row 5, of a key: unit and contract.
pub fn bad_key(key: Key) -> bool
    ensures { result ≡ bad_key (key_in key) }
{
    message_ranges::bad_key(key.execution, key.unit, key.contract)
}

// The unit of a key, or row 6: "unregistered, or domestic for an execution". A session is C's struct, so no type says that its count fits.
pub fn holder_for(s: &Session, key: Key) -> Result<Holder, Row>
    requires { s.now.enrolled ≤ 64 }
    ensures { HolderFor s.now key result }
{
    let holder = holder_of(&s.units[..s.enrolled], key.unit).ok_or(Row::Unit)?;
    if key.execution && holder.unit.border == 0 {
        return Err(Row::Unit);
    }
    Ok(holder)
}
