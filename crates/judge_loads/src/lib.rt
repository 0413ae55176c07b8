// A lodgement's energy with that of others that are counted, and the lowest hour in which it passes a limit.
#![tactic(auto)]

ghost use Rattle.std.specs.Prelude.{◌≡◌, ◌≤◌};
ghost use Rattle.rules.specs.Lists.{lowest};
ghost use Rattle.rules.specs.Lodging.{passed_at};
ghost use Rattle.judge_loads.specs.Loads.{IndicesIn, load_by, hour_at, laid};

use rules::HOURS;
use session::Energies;

// "the lowest hour in which that limit is passed", of hours 1 to `hours`. An hour's load is the lodgement's own energy and that of the others,
// which are named by their indices. An hour without own energy is not named, and passes no limit. A load only grows while the others are
// added, so the search ends as soon as it is above the limit. Two loops left by a label: document 01 names the form. `judge_energy` alone
// takes the same parameters, so they are no struct. It asks that `hours` fits, since C's session has a plain number, and that the indices do, since
// no type of a list says which slice its numbers index. They are indices, not references: `CountedOf` and `accepted_for` say by index which
// lodgements are counted, and with references each contract would say the map from them.
pub fn lowest_hour(
    own: &[u32; HOURS],
    energies: &[Energies],
    others: &[usize],
    hours: usize,
    limit: &[u64; HOURS],
) -> Option<u32>
    requires { (hours ≤ 25) × IndicesIn energies.now others.now }
    ensures { result ≡ hour_at (lowest (passed_at own.now (load_by own.now energies.now others.now) (laid limit.now)) hours) }
{
    let mut passed = None;
    'hours: for h in 0..hours {
        if own[h] == 0 {
            continue;
        }
        let mut load = u64::from(own[h]);
        let mut left = others;
        loop {
            if limit[h] < load {
                passed = Some(h as u32 + 1);
                break 'hours;
            }
            let Some((next, behind)) = left.split_first() else {
                continue 'hours;
            };
            load += u64::from(energies[*next].energies[h]);
            left = behind;
        }
    }
    passed
}
