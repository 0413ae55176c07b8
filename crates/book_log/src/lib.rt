// The call log: calls on a session as bytes, so that a day can be kept, sent and run again (the record of a call is ours, not
// document 01's; docs/LOG.md says it byte by byte).
#![tactic(auto)]

ghost use Rattle.std.specs.Prelude.{◌≡◌, ◌≤◌, true, false, MatchOption};
ghost use Rattle.rules.specs.Borders.{positive};
ghost use Rattle.message_bits.specs.Bits.{word_at};
ghost use Rattle.session.specs.Image.{unit_in, key_in, published_in, capacities_in};
ghost use Rattle.book_log.specs.Calls.{mark_at, numbers_at, unit_of, key_of, direction_at, directions_of, is_call, answer_word};
ghost use Rattle.book_log.specs.Kinds.{Decodes, has_size, number_of};

use answer::Response;
use message_bits::{byte_at, word_at};
use rules::{DIRECTIONS, HOURS};
use session::{Key, Published, Unit};

// The bytes of a record, by its kind: docs/LOG.md has each byte. A message may have any, closing and clearing have none.
const UNIT_SIZE: usize = 18;

const NOTICE_SIZE: usize = 108;

const RIGHTS_SIZE: usize = 109;

const KEY_SIZE: usize = 10;

const LOSS_SIZE: usize = 8;

// A capacity notice has eight directions.
const DIRECTION_SIZE: usize = 105;

const CAPACITY_SIZE: usize = DIRECTIONS * DIRECTION_SIZE;

// The kinds' numbers in a record, by name for who writes a log. Queries have theirs from 101 on (crates/query_any).
pub const REGISTER: u8 = 1;

pub const CAPACITY: u8 = 2;

pub const AVAILABLE: u8 = 3;

pub const LODGE: u8 = 4;

pub const ANNUL: u8 = 5;

pub const CLOSE: u8 = 6;

pub const CLEAR: u8 = 7;

pub const RIGHTS: u8 = 8;

pub const REGISTER_MARKED: u8 = 9;

pub const LOSS: u8 = 10;

// What a record calls for.
#[derive(Clone, Copy, Debug, PartialEq, Eq)]
pub enum Kind {
    Register,
    Capacity,
    Available,
    Lodge,
    Annul,
    Close,
    Clear,
    Rights,
    // Of a unit "with rights": 1 stays the record of a unit without them.
    RegisterMarked,
    Loss,
}

// A number that is no kind's; a type of its own, as `UnknownRow`.
#[derive(Clone, Copy, Debug, PartialEq, Eq)]
pub struct UnknownKind(pub u8);

impl TryFrom<u8> for Kind {
    type Error = UnknownKind;

    ghost try_from_gives = { Decodes };

    fn try_from(number: u8) -> Result<Kind, UnknownKind> {
        match number {
            REGISTER => Ok(Kind::Register),
            CAPACITY => Ok(Kind::Capacity),
            AVAILABLE => Ok(Kind::Available),
            LODGE => Ok(Kind::Lodge),
            ANNUL => Ok(Kind::Annul),
            CLOSE => Ok(Kind::Close),
            CLEAR => Ok(Kind::Clear),
            RIGHTS => Ok(Kind::Rights),
            REGISTER_MARKED => Ok(Kind::RegisterMarked),
            LOSS => Ok(Kind::Loss),
            _ => Err(UnknownKind(number)),
        }
    }
}

impl Kind {
    // The kind with this number, where a record of it has so many bytes.
    #[tactic(auto, unfolding(crate::specs::Calls::is_call))]
    pub fn of(number: u8, size: usize) -> Option<Kind>
        ensures { MatchOption result (is_call number size ≡ false) (λ kind. (number_of kind ≡ number) × (is_call number size ≡ true)) }
    {
        let kind = Kind::try_from(number).ok()?;
        kind.has_size(size).then_some(kind)
    }

    // Whether a record of this kind has so many bytes; a message may have any.
    pub fn has_size(self, size: usize) -> bool
        ensures { result ≡ has_size self size }
    {
        match self {
            Kind::Register | Kind::RegisterMarked => size == UNIT_SIZE,
            Kind::Capacity => size == CAPACITY_SIZE,
            Kind::Available => size == NOTICE_SIZE,
            Kind::Lodge => true,
            Kind::Annul => size == KEY_SIZE,
            Kind::Close | Kind::Clear => size == 0,
            Kind::Rights => size == RIGHTS_SIZE,
            Kind::Loss => size == LOSS_SIZE,
        }
    }
}

// Whether a record's count of bytes is that of its kind. The kind is a number, since a log may hold one that is no kind's.
pub fn is_call(kind: u8, size: usize) -> bool
    ensures { result ≡ is_call kind size }
{
    Kind::of(kind, size).is_some()
}

// How many numbers the answers of one kind have.
const PER_KIND: u64 = 1_152_921_504_606_846_976;

// How far a number is above zero.
#[tactic(auto, unfolding(rules::specs::Borders::positive))]
fn above_zero(n: i64) -> u64
    ensures { result ≡ positive n }
{
    u64::try_from(n).unwrap_or(0)
}

// A call's answer as one number: 1, 2 and 3 are docs/LOG.md's own, whatever kinds C has. No `From`: neither type is this crate's.
#[tactic(auto, unfolding(crate::specs::Calls::answer_word))]
pub fn answer_word(a: Response) -> u64
    ensures { result ≡ answer_word a }
{
    match a.kind() {
        Some(answer::Kind::Refused) => PER_KIND + (u64::from(a.row) * 256 + u64::from(a.hour)),
        Some(answer::Kind::Numbered) => 2 * PER_KIND + above_zero(a.value).min(PER_KIND - 1),
        Some(answer::Kind::Steps) => 3 * PER_KIND + a.count.min(PER_KIND - 1),
        _ => 0,
    }
}

// The number in the four bytes from index i on: `word_at` by the log's name, so that `book` needs no bits of messages.
pub fn number_at(p: &[u8], i: usize) -> u32
    ensures { result ≡ word_at p.now i }
{
    word_at(p, i)
}

// A mark is a byte: 0 for no.
#[tactic(auto, unfolding(crate::specs::Calls::mark_at))]
pub fn mark_at(p: &[u8], i: usize) -> bool
    ensures { result ≡ mark_at p.now i }
{
    byte_at(p, i) != 0
}

// The 25 numbers from index i on.
pub fn numbers_at(p: &[u8], i: usize) -> [u32; HOURS]
    requires { i ≤ 1000 }
    ensures { result ≡ numbers_at p.now i }
{
    std::array::from_fn(|k| number_at(p, i + k * 4))
}

// The unit that a registration is for. The kind of its record says whether it is "with rights".
#[tactic(auto, unfolding(crate::specs::Calls::unit_of))]
pub fn unit_of(rights: bool, p: &[u8]) -> Unit
    ensures { unit_in result ≡ unit_of rights p.now }
{
    Unit {
        number: number_at(p, 0),
        agent: number_at(p, 4),
        border: number_at(p, 8),
        purchase: mark_at(p, 12),
        maximum: number_at(p, 13),
        legacy: mark_at(p, 17),
        rights,
        reserved: 0,
    }
}

// The key that an annulment is for.
#[tactic(auto, unfolding(crate::specs::Calls::key_of))]
pub fn key_of(p: &[u8]) -> Key
    ensures { key_in result ≡ key_of p.now }
{
    Key {
        execution: mark_at(p, 0),
        default: mark_at(p, 1),
        reserved: 0,
        unit: number_at(p, 2),
        contract: number_at(p, 6),
    }
}

// A direction of a capacity notice, from index i on.
#[tactic(auto, unfolding(crate::specs::Calls::direction_at, session::specs::Image::published_in))]
fn direction_at(p: &[u8], i: usize) -> Published
    requires { i ≤ 900 }
    ensures { published_in result ≡ direction_at p.now i }
{
    Published {
        count: number_at(p, i + 1) as usize,
        published: mark_at(p, i),
        reserved: 0,
        reserved2: 0,
        energies: numbers_at(p, i + 5),
    }
}

// A capacity notice's directions.
pub fn directions_of(p: &[u8]) -> [Published; DIRECTIONS]
    ensures { capacities_in result ≡ directions_of p.now }
{
    std::array::from_fn(|k| direction_at(p, k * DIRECTION_SIZE))
}
