// An hour given line by line, cleared, and its figures shown.
ghost use Rattle.std.specs.Prelude.{◌≡◌, ◌+◌, true, false, Some, None};
ghost use Rattle.std.proofs.Math.IntN.{sub_ℕ};
ghost use Rattle.figures.specs.Hours.{no_parts, with_loss, with_one, with_part, put_in, in_range_of, cleared_of, answer_in_range, answer_of};

use hour::{Figures, Hour};
use hour_offers::{Execution, Holder, Offer};
use listed::Listed;
use rules::{DIRECTIONS, LODGEMENTS, LOSSES};
use std::{fmt, mem};

// A part of an hour: a lodgement, the capacity of a border's direction, or the loss of a border.
#[derive(Clone, Copy)]
pub(crate) enum Part {
    Offer(Offer),
    Execution(Execution),
    Capacity {
        border: u32,
        export: bool,
        energy: u32,
    },
    Loss {
        border: u32,
        loss: u32,
    },
}

// The parts of an hour that are given so far: the hour, and the losses of the borders, which its lodgements take with them.
#[derive(Drop)]
pub(crate) struct Given {
    hour: Hour,
    losses: [u32; LOSSES],
}

// A holder with the loss of its border, if it buys and has none of its own.
#[tactic(auto, unfolding(rules::specs::Units::loss_of))]
fn with_loss(losses: &[u32; LOSSES], holder: Holder) -> Holder
    ensures { result ≡ with_loss losses.now holder }
{
    if holder.purchase && holder.loss == 0 {
        let loss = losses.get(holder.border as usize).copied().unwrap_or(0);
        Holder { loss, ..holder }
    } else {
        holder
    }
}

// One more in a list. The count goes one past the room, which no hour that is ready has.
#[tactic(auto, unfolding(crate::specs::Hours::with_one))]
fn add<T: Copy>(list: &mut Listed<T, LODGEMENTS>, element: T)
    ensures { list.new ≡ with_one list.old element }
{
    if list.count < LODGEMENTS {
        list.push(element);
    } else {
        list.count = LODGEMENTS + 1;
    }
}

// Whether an hour can have a part, which it then has. No hour has a capacity of border 0, or a loss of what is no border. A capacity of that is
// passed over.
fn takes(given: &mut Given, part: Part) -> bool
    ensures taken { result ≡ true → with_part part given.old ≡ Some given.new }
    ensures full { result ≡ false → with_part part given.old ≡ None }
{
    match part {
        Part::Offer(offer) => {
            let holder = with_loss(&given.losses, offer.holder);
            let offer = Offer { holder, ..offer };
            add(&mut given.hour.offers, offer);
            true
        }
        Part::Execution(execution) => {
            let holder = with_loss(&given.losses, execution.holder);
            let execution = Execution {
                holder,
                ..execution
            };
            add(&mut given.hour.executions, execution);
            true
        }
        Part::Capacity {
            border,
            export,
            energy,
        } => {
            if border == 0 {
                return false;
            }
            if border < 5 {
                given.hour.capacities[hour_borders::direction(border, export)] = Some(energy);
            }
            true
        }
        Part::Loss { border, loss } => {
            let is_border = border != 0 && border < 5;
            if is_border {
                given.losses[border as usize] = loss;
            }
            is_border
        }
    }
}

// The hour that is being given; none after a part that no hour has.
#[derive(Drop)]
pub(crate) struct NextHour(Option<Given>);

impl NextHour {
    pub(crate) fn new() -> NextHour
        ensures { result.0 ≡ Some no_parts }
    {
        let hour = Hour {
            offers: Listed::new(Offer::default()),
            executions: Listed::new(Execution::default()),
            capacities: [None; DIRECTIONS],
        };
        let losses = [0; LOSSES];
        NextHour(Some(Given { hour, losses }))
    }

    pub(crate) fn put(&mut self, part: Part)
        ensures { self.new.0 ≡ put_in part self.old.0 }
    {
        if let Some(given) = &mut self.0 {
            if !takes(given, part) {
                self.0 = None;
            }
        }
    }

    // The hour cleared if it is in its ranges, and the next begins.
    pub(crate) fn clear_in_range(&mut self) -> Answer
        ensures answer { result.0 ≡ answer_in_range self.old.0 }
        ensures next { self.new.0 ≡ Some no_parts }
    {
        let NextHour(given) = mem::replace(self, NextHour::new());
        Answer(given.and_then(|given| Cleared::in_range(given.hour)))
    }

    // The hour cleared if a session can hold it, and the next begins.
    pub(crate) fn clear(&mut self) -> Answer
        ensures answer { result.0 ≡ answer_of self.old.0 }
        ensures next { self.new.0 ≡ Some no_parts }
    {
        let NextHour(given) = mem::replace(self, NextHour::new());
        Answer(given.and_then(|given| Cleared::of(given.hour)))
    }
}

// What is written of an hour: its figures, or "not ready" where it is not cleared.
#[derive(Drop)]
pub(crate) struct Answer(Option<Cleared>);

impl fmt::Display for Answer {
    fn fmt<W: fmt::Write>(&self, f: &mut fmt::Formatter<W>) -> fmt::Result {
        match &self.0 {
            Some(cleared) => write!(f, "{cleared}"),
            None => f.write_str("not ready"),
        }
    }
}

// An hour's figures, and the capacities that it was cleared with.
#[derive(Drop)]
struct Cleared {
    capacities: [Option<u32>; DIRECTIONS],
    figures: Figures,
}

impl Cleared {
    // Of an hour in its ranges.
    fn in_range(hour: Hour) -> Option<Cleared>
        ensures { result ≡ in_range_of hour }
    {
        let figures = hour_clear::clear_in_range(&hour)?;
        let capacities = hour.capacities;
        Some(Cleared {
            capacities,
            figures,
        })
    }

    // Of an hour that a session can hold.
    fn of(hour: Hour) -> Option<Cleared>
        ensures { result ≡ cleared_of hour }
    {
        let figures = hour_clear::clear(&hour)?;
        let capacities = hour.capacities;
        Some(Cleared {
            capacities,
            figures,
        })
    }
}

// "price 4500 steps 0 matched 1:120 2:120 executed market 0 0 0 0 bilateral 0 0 0 0 maxima": energies by lodging number, balances by border.
impl fmt::Display for Cleared {
    fn fmt<W: fmt::Write>(&self, f: &mut fmt::Formatter<W>) -> fmt::Result {
        let figures = &self.figures;
        write!(f, "price {} steps {} matched", figures.price, figures.steps)?;
        for offer in figures.offers.as_slice() {
            write!(f, " {}:{}", offer.holder.number, offer.matched)?;
        }
        f.write_str(" executed")?;
        for execution in figures.executions.as_slice() {
            write!(f, " {}:{}", execution.holder.number, execution.energy)?;
        }
        write!(f, " market{}", Balances(&figures.market))?;
        write!(f, " bilateral{}", Balances(&figures.bilateral))?;
        write!(f, " maxima{}", Maxima(self))
    }
}

// Of the four borders, exports less imports: " 100 -20 0 0".
#[derive(Clone, Copy)]
struct Balances<'a>(&'a [u32; DIRECTIONS]);

impl fmt::Display for Balances<'_> {
    fn fmt<W: fmt::Write>(&self, f: &mut fmt::Formatter<W>) -> fmt::Result {
        let flows = self.0;
        let (pairs, _) = flows.as_chunks::<2>();
        for [exports, imports] in pairs {
            let balance = i64::from(*exports) - i64::from(*imports);
            write!(f, " {balance}")?;
        }
        Ok(())
    }
}

// " 1 export 71 29" for a published direction: its market maximum, and the bilateral one, its capacity less the final market balance.
#[derive(Clone, Copy)]
struct Maxima<'a>(&'a Cleared);

impl fmt::Display for Maxima<'_> {
    fn fmt<W: fmt::Write>(&self, f: &mut fmt::Formatter<W>) -> fmt::Result {
        let Cleared {
            capacities,
            figures,
        } = self.0;
        let market = &figures.market;
        // By index: a direction names its border, its side and the one across.
        for (direction, maximum) in figures.maxima.iter().enumerate() {
            if let (Some(capacity), Some(maximum)) = (capacities[direction], maximum) {
                let name = if direction % 2 == 0 {
                    "export"
                } else {
                    "import"
                };
                let bilateral = maximum_left(
                    capacity,
                    market[hour_borders::across(direction)],
                    market[direction],
                );
                let border = direction / 2 + 1;
                write!(f, " {border} {name} {maximum} {bilateral}")?;
            }
        }
        Ok(())
    }
}

// A direction's capacity less the final market balance: what it still carries, executions aside.
fn maximum_left(capacity: u32, across: u32, along: u32) -> i64
    ensures { result ≡ sub_ℕ (capacity + across) along }
{
    i64::from(capacity) + i64::from(across) - i64::from(along)
}
