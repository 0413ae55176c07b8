// A message's energy, with that of the lodgements counted beside it, against limits 10, 11, 12 and 15. First it is tested whether one is passed at
// all, by sums; only then the limit and its lowest hour are looked for, among the lodgements.
#![tactic(auto)]

ghost use Rattle.std.specs.Prelude.{◌≡◌, ◌≤◌};
ghost use Rattle.session.specs.Parts.{said};
ghost use Rattle.judge_limits.specs.Limits.{first_passed};
ghost use Rattle.listed.specs.View.{listed};
ghost use Rattle.lodge_keys.specs.Sums.{SumsAt, load_on};
ghost use Rattle.lodge_pending.specs.Awaiting.{Awaits};
ghost use Rattle.lodge_limits.specs.Judging.{passed_nowhere, is_clear, passed_for, judged_for};

use answer::Refusal;
use judge_limits::{Limit, border_limits, judge_energy, maximum_limit, own_limits, unit_line};
use lodge_keys::beside::sums_of;
use lodge_pending::Pending;
use rules::HOURS;
use session::{Energies, Session};

// Whether a limit is passed in none of the hours 1 to `hours`, by a lodgement's own energy and a sum. In an hour that it does not name its energy
// is 0, which passes nothing. The hour is the index in three arrays: two zips would be no plainer. No type says that `hours` is at most 25, here
// and below: C's session has a plain number.
fn passed_nowhere(
    own: &[u32; HOURS],
    sums: &[u64; HOURS],
    hours: usize,
    limit: &[u64; HOURS],
) -> bool
    requires { hours ≤ 25 }
    ensures { result ≡ passed_nowhere own.now (load_on own.now sums.now) hours limit.now }
{
    (0..hours).all(|h| u64::from(own[h]) <= limit[h].saturating_sub(sums[h]))
}

// Whether none of the limits is passed: then the judgement by them is clear.
fn none_passed(limits: &[Limit], own: &[u32; HOURS], sums: &[u64; HOURS], hours: usize) -> bool
    requires { hours ≤ 25 }
    ensures { result ≡ is_clear (first_passed limits.now hours own.now (load_on own.now sums.now)) }
{
    for limit in limits {
        let Some(by_hour) = &limit.by_hour else {
            continue;
        };
        if !passed_nowhere(own, sums, hours, by_hour) {
            return false;
        }
    }
    true
}

// The judgement of a message by some limits, with the sums of those that are counted beside it. "The lowest hour in which that limit is passed" is
// looked for only where one is.
fn judge_by(s: &Session, p: &Pending, sums: &[u64; HOURS], limits: &[Limit]) -> Result<(), Refusal>
    requires awaits { Awaits s.now p.now }
    requires sums { SumsAt s.now.energies (listed p.now.beside) sums.now }
    ensures { said result ≡ passed_for s.now p.now limits.now }
{
    let own = &p.fields.energies;
    // As a slice here already: so its length is known where it returns early.
    let energies: &[Energies] = &s.energies;
    let counted = p.beside.as_slice();
    let hours = s.hours as usize;
    if none_passed(limits, own, sums, hours) {
        return Ok(());
    }
    judge_energy(limits, own, energies, counted, hours)
}

// The judgement of a message by the limits of its unit: a default one's "against 10 only", another one's by those of the unit's own, then by
// those that it has by its border.
pub fn judge(s: &Session, p: &Pending) -> Result<(), Refusal>
    requires { Awaits s.now p.now }
    ensures { said result ≡ judged_for s.now p.now }
{
    let unit = &p.holder.unit;
    let sums = sums_of(&s.energies, p.beside.as_slice());
    if p.fields.default {
        let alone = maximum_limit(unit);
        return judge_by(s, p, &sums, &[alone]);
    }
    let near = own_limits(unit, &s.notices[p.holder.at]);
    judge_by(s, p, &sums, &near)?;
    let rights = &s.rights[p.holder.at];
    let line = unit_line(unit, rights, &s.capacities, &s.losses);
    let far = border_limits(unit, rights, line);
    judge_by(s, p, &sums, &far)
}
