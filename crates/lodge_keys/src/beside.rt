// The lodgements that one is judged with: the unit's unhidden lodgements of the other kind, and their energies by hour, added up.
ghost use Rattle.std.specs.Prelude.{◌≡◌, ℕ, ◌+◌, ◌≤◌, length};
ghost use Rattle.judge_loads.specs.Loads.{IndicesIn};
ghost use Rattle.listed.specs.View.{listed};
ghost use Rattle.lodge_keys.specs.Beside.{counts, beside_marks, CountedOf};
ghost use Rattle.lodge_keys.specs.Sums.{Below, Added, SumsAt};

use crate::is_hidden;
use listed::Listed;
use rules::{HOURS, LODGEMENTS};
use session::{Energies, Key, Lodgement};

// Whether a lodgement is counted in judging one of this key: an offer with executions, an execution with the offer,
// "other executions not counted". A hidden one "enters no sum", and a normal one is never hidden.
#[tactic(auto, unfolding(crate::specs::Beside::counts), using(crate::proofs::BesideLaws::normal_unhidden))]
fn is_beside(lodgements: &[Lodgement], key: Key, l: &Lodgement) -> bool
    ensures { result ≡ counts lodgements.now key l.now }
{
    l.key.unit == key.unit
        && l.key.execution != key.execution
        && (!l.key.default || !is_hidden(lodgements, l.key))
}

// The indices of those that are counted. "A default lodgement is judged by its own energy."
// (Lengths: DECISIONS.)
pub fn beside_of(lodgements: &[Lodgement], key: Key) -> Listed<usize, LODGEMENTS>
    requires { length lodgements.now ≤ 128 }
    ensures { CountedOf (beside_marks lodgements.now key) (length lodgements.now) (listed result) }
{
    let mut counted = Listed::new(0);
    if key.default {
        return counted;
    }
    for (i, l) in lodgements.iter().enumerate() {
        if is_beside(lodgements, key, l) {
            counted.push(i);
        }
    }
    counted
}

// A lodgement's energies by hour, added to those of others. The index is the hour's in both arrays.
// (By index: DECISIONS.)
fn add(sums: &mut [u64; HOURS], row: &[u32; HOURS])
    requires { Below 128 sums.old }
    ensures added { Added sums.old row.now sums.new }
    ensures below { (i : ℕ) → Below i sums.old → Below (i + 1) sums.new }
{
    for (h, sum) in sums.iter_mut().enumerate() {
        *sum += u64::from(row[h]);
    }
}

// The energies by hour of those that are counted, added up: of so few none wraps. Indices are asked to be those of the energies.
// (Lengths: DECISIONS.)
pub fn sums_of(energies: &[Energies], counted: &[usize]) -> [u64; HOURS]
    requires { IndicesIn energies.now counted.now }
    ensures { SumsAt energies.now counted.now result × Below 128 result }
{
    let mut sums = [0u64; HOURS];
    for i in counted {
        add(&mut sums, &energies[*i].energies);
    }
    sums
}
