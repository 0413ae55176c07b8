// One lodgement's verdict at closing (document 01, "Closing").
#![tactic(auto)]

ghost use Rattle.std.specs.Prelude.{◌≡◌, false, List, ◌<◌, get_or, take, length, Some, None};
ghost use Rattle.judge_loads.specs.Loads.{IndicesIn, load_by};
ghost use Rattle.judge_limits.specs.Limits.{judged_in};
ghost use Rattle.session.specs.Bare.{bare_notice, bare_energies};
ghost use Rattle.session.specs.Image.{no_unit};
ghost use Rattle.session.specs.Parts.{Within, said};
ghost use Rattle.session.specs.declared.Verdict.{Verdict};
ghost use Rattle.close_judge.specs.Classes.{HoldersOf, accepted_for, verdict_by, accepting, JudgesAt};

use answer::Refusal;
use arrayvec::ArrayVec;
use close_holders::holders_of;
use judge_limits::{border_limits, judge_energy, own_limits, unit_line};
use rules::LODGEMENTS;
use session::{Energies, Session, Verdict};

// What judging reads at closing: the session, and what is found once for all its standing lodgements.
#[derive(Drop)]
pub struct Standing<'a> {
    pub session: &'a Session,
    pub energies: &'a [Energies],
    // The index of each one's unit, beside C's arrays of lodgements and energies, at whose indices it is read.
    pub holders: ArrayVec<Option<usize>, LODGEMENTS>,
    pub ghost within: { Within session.now },
    pub ghost loads: { energies.now ≡ take session.now.standing session.now.energies },
    pub ghost long: { length energies.now ≡ session.now.standing },
    pub ghost units: { HoldersOf session.now holders.items },
    pub ghost found: { length holders.items ≡ session.now.standing },
}

// Accepted, or "refused whole" by the first limit passed in its lowest hour. No `From`: it would stand in `session`, far from this
// one use of it.
#[tactic(auto, unfolding(crate::specs::Classes::verdict_by))]
fn verdict_by(judged: Result<(), Refusal>) -> Verdict
    ensures { result ≡ verdict_by (said judged) }
{
    match judged {
        Err(refusal) => Verdict {
            accepted: false,
            reserved: 0,
            reserved2: 0,
            limit: refusal.row.number(),
            hour: refusal.hour,
        },
        Ok(()) => Verdict {
            accepted: true,
            reserved: 0,
            reserved2: 0,
            limit: 0,
            hour: 0,
        },
    }
}

// The verdict of one that no limit refuses.
pub fn accepted() -> Verdict
    ensures { result ≡ accepting }
{
    verdict_by(Ok(()))
}

impl<'a> Standing<'a> {
    // (`Within`: `Session::sound` says why no type has it.)
    pub fn of(session: &'a Session) -> Standing<'a>
        requires { Within session.now }
        ensures { result.session ≡ session.entry }
    {
        let units = &session.units[..session.enrolled];
        let lodgements = &session.lodgements[..session.standing];
        Standing {
            session,
            energies: &session.energies[..session.standing],
            holders: holders_of(units, lodgements),
        }
    }

    // "those accepted before it on its unit": the indices of those that are accepted and of the unit at index p are put into `others`,
    // so that no judgement makes a list of its own.
    pub fn put_accepted(
        &self,
        verdicts: &[Verdict; LODGEMENTS],
        p: usize,
        others: &mut ArrayVec<usize, LODGEMENTS>,
    )
        ensures accepted { others.new.items ≡ accepted_for p verdicts.now self.now.holders.items }
        ensures indices { IndicesIn self.now.energies.now others.new.items }
    {
        others.clear();
        for (i, (holder, verdict)) in self.holders.iter().zip(verdicts).enumerate() {
            if !verdict.accepted {
                continue;
            }
            if *holder != Some(p) {
                continue;
            }
            others.push(i);
        }
    }

    // The first limit of the unit at index p that the lodgement at an index passes together with others, and the lowest hour in which it
    // does. What index, unit and others are is asked, here and of `judge`: no type of an index has the list that it is of, and a struct of the
    // three would be made for each call and opened at once.
    #[tactic(auto, using(crate::proofs::StandingLaws::holder_laws))]
    fn judge_limits(&self, at: usize, p: usize, others: &[usize]) -> Result<(), Refusal>
        requires standing { at < self.now.session.now.standing }
        requires holder { get_or self.now.holders.items at None ≡ Some p }
        requires others { IndicesIn self.now.energies.now others.now }
        ensures { let s = self.now.session.now in let es = self.now.energies.now in let own = (get_or es at bare_energies).energies in
            said result ≡ judged_in (get_or s.units p no_unit) (get_or s.notices p bare_notice) (get_or s.rights p bare_notice) s.capacities s.losses false s.hours own (load_by own es others.now) }
    {
        let session = self.session;
        let unit = &session.units[p];
        let rights = &session.rights[p];
        let own = &self.energies[at].energies;
        let hours = session.hours as usize;
        let near = own_limits(unit, &session.notices[p]);
        judge_energy(&near, own, self.energies, others, hours)?;
        let line = unit_line(unit, rights, &session.capacities, &session.losses);
        let far = border_limits(unit, rights, line);
        judge_energy(&far, own, self.energies, others, hours)
    }

    // The verdict of the lodgement at an index, of the unit at index p: "its energy, plus that of those accepted before it on its unit",
    // which are the others, against the limits of its unit.
    pub fn judge(&self, at: usize, p: usize, others: &[usize]) -> Verdict
        requires standing { at < self.now.session.now.standing }
        requires holder { get_or self.now.holders.items at None ≡ Some p }
        requires others { IndicesIn self.now.energies.now others.now }
        ensures { (vs : List Verdict) → others.now ≡ accepted_for p vs self.now.holders.items → JudgesAt self.now.session.now vs at result }
    {
        let judged = self.judge_limits(at, p, others);
        verdict_by(judged)
    }
}
