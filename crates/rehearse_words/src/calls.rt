// A line that is a call.
ghost use Rattle.std.specs.Prelude.{◌≡◌, IfSome, Some, cond, codes};
ghost use Rattle.rehearse_words.specs.Words.{behind_mark, behind_word, first_word, number_in, starts_with};

use crate::words::{Words, number, parted};
use arrayvec::ArrayVec;
use notify_capacity::Capacities;
use notify_rights::Rights;
use notify_unavailability::Availability;
use rules::{DIRECTIONS, HOURS};
use session::{Key, Published, Unit};
use set_loss::Loss;

// The most bytes of a message that a line may lodge.
pub const MESSAGE: usize = 4096;

#[derive(Drop)]
pub enum Call {
    Register(Unit),
    Capacity(Capacities),
    Available(Availability),
    Rights(Rights),
    Loss(Loss),
    // lodge 10000E0000600000003C1194002F9130
    Lodge(ArrayVec<u8, MESSAGE>),
    Annul(Key),
    Close,
    Clear,
}

// A unit's marks. Each may be left out.
#[derive(Clone, Copy)]
struct Marks {
    legacy: bool,
    rights: bool,
}

// legacy rights: in this order.
fn unit_marks(words: &mut Words) -> Marks
    ensures legacy { result.legacy ≡ starts_with (codes "legacy") words.old.rest.now }
    ensures rights { result.rights ≡ starts_with (codes "rights") (behind_mark (codes "legacy") words.old.rest.now) }
{
    let legacy = words.take_if(b"legacy");
    let rights = words.take_if(b"rights");
    Marks { legacy, rights }
}

// register 7 agent 100 border 1 purchase max 500 legacy rights
pub(crate) fn unit(words: &mut Words) -> Option<Unit> {
    let number = words.number()?;
    words.expect(b"agent")?;
    let agent = words.number()?;
    words.expect(b"border")?;
    let border = words.number()?;
    let purchase = words.either(b"sale", b"purchase")?;
    words.expect(b"max")?;
    let maximum = words.number()?;
    let Marks { legacy, rights } = unit_marks(words);
    Some(Unit {
        number,
        agent,
        border,
        maximum,
        purchase,
        legacy,
        rights,
        reserved: 0,
    })
}

// annul execution 8 default contract 12
pub(crate) fn key(words: &mut Words) -> Option<Key> {
    let execution = words.either(b"offer", b"execution")?;
    let unit = words.number()?;
    let default = words.take_if(b"default");
    let contract = contract(words, execution)?;
    Some(Key {
        execution,
        default,
        reserved: 0,
        unit,
        contract,
    })
}

// An execution names a contract; the contract of an offer is 0.
pub(crate) fn contract(words: &mut Words, execution: bool) -> Option<u32> {
    if !execution {
        return Some(0);
    }
    words.expect(b"contract")?;
    words.number()
}

// Energies

// An energy, E, or so many times one, ExN, N 1 to 100.
fn run(word: &[u8]) -> Option<(u32, usize)> {
    let Some((energy, times)) = parted(word, b'x') else {
        return Some((number(word)?, 1));
    };
    let times = number(times).filter(|n| (1..=100).contains(n))?;
    Some((number(energy)?, times as usize))
}

// Energies, comma-separated: how many there are, and the first 25, as C's notices have them, where the count may be more.
fn energies(word: &[u8]) -> Option<(usize, [u32; HOURS])> {
    let mut count = 0usize;
    let mut energies = [0u32; HOURS];
    for part in word.split(|b| *b == b',') {
        let (energy, times) = run(part)?;
        for x in energies.iter_mut().skip(count).take(times) {
            *x = energy;
        }
        count = count.saturating_add(times);
    }
    Some((count, energies))
}

// available 7 500x10,0x5,500x10
pub(crate) fn availability(words: &mut Words) -> Option<Availability> {
    let unit = words.number()?;
    let (count, energies) = energies(words.next()?)?;
    Some(Availability {
        count,
        unit,
        energies,
    })
}

// rights 100 purchase 50x25
pub(crate) fn rights(words: &mut Words) -> Option<Rights>
    ensures agent { IfSome result (λ notice. number_in (first_word words.old.rest.now) ≡ Some notice.agent) }
    ensures side { IfSome result (λ notice. first_word (behind_word words.old.rest.now) ≡ cond notice.purchase (codes "purchase") (codes "sale")) }
{
    let agent = words.number()?;
    let side = words.either(b"sale", b"purchase")?;
    let (count, energies) = energies(words.next()?)?;
    Some(Rights {
        agent,
        purchase: side,
        reserved: 0,
        reserved2: 0,
        count,
        energies,
        reserved3: 0,
    })
}

// loss 1 500
pub(crate) fn loss(words: &mut Words) -> Option<Loss>
    ensures border { IfSome result (λ loss. number_in (first_word words.old.rest.now) ≡ Some loss.border) }
    ensures loss { IfSome result (λ loss. number_in (first_word (behind_word words.old.rest.now)) ≡ Some loss.loss) }
{
    let border = words.number()?;
    let loss = words.number()?;
    Some(Loss { border, loss })
}

// The index of a border's direction in a capacity notice.
fn direction_index(border: u32, import: bool) -> Option<usize> {
    let before = border.checked_sub(1)? as usize;
    Some(before * 2 + usize::from(import))
}

// capacity 1 export 100x25 1 import 80x24,0: no direction twice, so there are no more than there are directions.
pub(crate) fn capacities(words: &mut Words) -> Option<Capacities> {
    let absent = Published {
        count: 0,
        published: false,
        reserved: 0,
        reserved2: 0,
        energies: [0; HOURS],
    };
    let mut directions = [absent; DIRECTIONS];
    for _ in 0..DIRECTIONS {
        let Some(border) = words.next() else {
            break;
        };
        let import = words.either(b"export", b"import")?;
        let (count, energies) = energies(words.next()?)?;
        let at = direction_index(number(border)?, import)?;
        let direction = directions.get_mut(at)?;
        if direction.published {
            return None;
        }
        *direction = Published {
            count,
            published: true,
            reserved: 0,
            reserved2: 0,
            energies,
        };
    }
    Some(Capacities { directions })
}
