// The order of closing: its three classes, and within each the latest number first.
#![tactic(auto)]

ghost use Rattle.std.specs.Prelude.{◌≡◌, ◌+◌, ◌<◌, get_or, set, length, Some, None};
ghost use Rattle.rules.specs.Book.{Book};
ghost use Rattle.session.specs.Image.{image, Sound};
ghost use Rattle.session.specs.Parts.{Within};
ghost use Rattle.judge_loads.specs.Loads.{IndicesIn};
ghost use Rattle.close_judge.specs.Classes.{Used, accepted_for};
ghost use Rattle.close_order.specs.Passes.{class_in, number_of, TakesAt, ClosingAt};

pub mod room;

use crate::room::admits;
use arrayvec::ArrayVec;
use close_ceilings::{ceilings_of, lines_of};
use close_judge::{Standing, accepted};
use lodge_keys::is_hidden;
use rules::{HOURS, LODGEMENTS, UNITS};
use session::{Key, Session, Verdict, no_verdict};

// The classes in which lodgements are taken: "normal executions, default executions, offers".
#[derive(Clone, Copy, Debug, PartialEq, Eq)]
pub enum Class {
    Normal,
    Default,
    Offers,
}

impl From<Key> for Class {
    ghost from_gives = { λ key class. class ≡ class_in key };

    #[tactic(auto, unfolding(crate::specs::Passes::class_in))]
    fn from(key: Key) -> Class {
        if !key.execution {
            Class::Offers
        } else if key.default {
            Class::Default
        } else {
            Class::Normal
        }
    }
}

// How far a closing has come: the verdicts given, and the room that they leave under each unit's ceilings by hour. `room` and `used` stand
// side by side: `ceilings_of` gives the one, `ClosingAt` speaks of it alone, and records of both would be built and read by one more pass.
#[derive(Drop)]
pub struct Closing<'a> {
    pub standing: Standing<'a>,
    pub room: ArrayVec<[u32; HOURS], UNITS>,
    pub verdicts: [Verdict; LODGEMENTS],
    // The units of which a lodgement is accepted: of another none is looked for.
    pub used: [bool; UNITS],
    pub ghost marked: { Used verdicts standing.holders.items used },
    pub ghost full: { length verdicts ≡ 128 },
    pub ghost rows: { length room.items ≡ standing.session.now.enrolled },
}

impl<'a> Closing<'a> {
    // Before the first class: no verdict is given, and all is left. (`Within`: `Session::sound` says why no type has it.) Below, indices are those of
    // C's arrays. (Lengths: DECISIONS.)
    pub fn of(session: &'a Session) -> Closing<'a>
        requires { Within session.now }
        ensures session { result.standing.session ≡ session.entry }
        ensures closing_at { let s = session.entry.now in (b : Book) → Sound b → s ≡ image b → ClosingAt s b 0 s.standing result.verdicts result.room.items }
    {
        let standing = Standing::of(session);
        let units = &session.units[..session.enrolled];
        let notices = &session.notices[..session.enrolled];
        let rights = &session.rights[..session.enrolled];
        let lines = lines_of(&session.capacities, &session.losses);
        let room = ceilings_of(units, notices, rights, &lines);
        Closing {
            standing,
            room,
            verdicts: [no_verdict(); LODGEMENTS],
            used: [false; UNITS],
        }
    }

    // Whether the lodgement at an index is of a class. "Unhidden lodgements are taken"; a normal one is hidden by none.
    fn takes(&self, class: Class, at: usize) -> bool
        requires { at < self.now.standing.session.now.standing }
        ensures { TakesAt self.now.standing.session.now (number_of class) at result }
    {
        let session = self.standing.session;
        let key = session.lodgements[at].key;
        Class::from(key) == class
            && !(key.default && is_hidden(&session.lodgements[..session.standing], key))
    }

    // "those accepted before it on its unit": their indices.
    fn put_accepted(&self, p: usize, others: &mut ArrayVec<usize, LODGEMENTS>)
        requires { p < 64 }
        ensures accepted { others.new.items ≡ accepted_for p self.now.verdicts self.now.standing.holders.items }
        ensures indices { IndicesIn self.now.standing.energies.now others.new.items }
    {
        if !self.used[p] {
            others.clear();
            return;
        }
        self.standing.put_accepted(&self.verdicts, p, others);
    }

    // The verdict of the lodgement at an index, of the unit at index p, is given. (That p is its unit is asked as `Standing::judge` asks it.)
    fn give(&mut self, at: usize, p: usize, verdict: Verdict)
        requires standing { at < 128 }
        requires unit { p < 64 }
        requires holder { get_or self.old.standing.holders.items at None ≡ Some p }
        ensures session { self.new.standing ≡ self.old.standing }
        ensures room { self.new.room ≡ self.old.room }
        ensures verdicts { self.new.verdicts ≡ set self.old.verdicts at verdict }
    {
        self.verdicts[at] = verdict;
        self.used[p] |= verdict.accepted;
    }

    // The lodgement at an index, if it is of the class, judged with what was accepted before it. One that the room under its unit's
    // ceilings holds passes no limit; another's limit and hour are looked for.
    #[tactic(auto, using(close_judge::proofs::StandingLaws::holder_laws))]
    fn step(&mut self, class: Class, at: usize, others: &mut ArrayVec<usize, LODGEMENTS>)
        requires { at < self.old.standing.session.now.standing }
        ensures session { self.new.standing ≡ self.old.standing }
        ensures closing_at { let s = self.old.standing.session.now in (b : Book) → Sound b → s ≡ image b
            → ClosingAt s b (number_of class) (at + 1) self.old.verdicts self.old.room.items
            → ClosingAt s b (number_of class) at self.new.verdicts self.new.room.items }
    {
        if !self.takes(class, at) {
            return;
        }
        let Some(p) = self.standing.holders[at] else {
            // No call leaves a lodgement without its unit.
            return;
        };
        let hours = self.standing.session.hours as usize;
        let own = &self.standing.energies[at].energies[..hours];
        if admits(&mut self.room[p], own) {
            self.give(at, p, accepted());
            return;
        }
        self.put_accepted(p, others);
        let verdict = self.standing.judge(at, p, others);
        self.give(at, p, verdict);
    }

    // One class, from its last index to its first: "latest number first".
    pub fn pass(&mut self, class: Class)
        ensures session { self.new.standing ≡ self.old.standing }
        ensures closing_at { let s = self.old.standing.session.now in (b : Book) → Sound b → s ≡ image b
            → ClosingAt s b (number_of class) s.standing self.old.verdicts self.old.room.items
            → ClosingAt s b (number_of class) 0 self.new.verdicts self.new.room.items }
    {
        let mut others = ArrayVec::new();
        // By index: a lodgement's key, unit, energies and verdict stand at it in four arrays, and a step writes one of them.
        for at in (0..self.standing.session.standing).rev() {
            self.step(class, at, &mut others);
        }
    }
}
