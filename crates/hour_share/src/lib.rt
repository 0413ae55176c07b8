// Share: taking an energy from several amounts pro rata.
#![tactic(auto)]

ghost use Rattle.std.specs.Prelude.{◌≡◌, ◌*◌, ◌≤◌, ℕ, [], map, min, length, get_or, replicate, position, ltb};
ghost use Rattle.std.specs.Fn.{FnReturnsAt};
ghost use Rattle.rules.specs.Lists.{All, add_each, sum};
ghost use Rattle.rules.specs.Units.{max_energy};
ghost use Rattle.rules.specs.Share.{pro_rata, hand_out, share as share_of};
ghost use Rattle.hour_share.specs.Deductions.{Ranged, AmountInRange, energy_in, deductions_from};
ghost use Rattle.hour_share.specs.declared.Amount.{Amount};

use arrayvec::ArrayVec;
use rules::{DIRECTIONS, LODGEMENTS};

// An energy, and the direction in which it runs: an index of an array of eight, none for a domestic holder's.
#[derive(Clone, Copy, Debug, Default, PartialEq, Eq)]
pub struct Amount {
    pub direction: Option<usize>,
    pub energy: u32,
}

impl Amount {
    // What it counts for in direction d, 0 where it runs in another or in none.
    #[tactic(auto, unfolding(crate::specs::Deductions::energy_in))]
    pub fn energy_in(self, d: usize) -> u32
        ensures { result ≡ energy_in d self }
    {
        if self.direction == Some(d) {
            self.energy
        } else {
            0
        }
    }
}

// "each loses R × m / G rounded down"; "G 0 loses nothing". Most amounts are 0, and those need no division.
fn pro_rata(r: u32, g: u32, m: u32) -> u32
    requires { r ≤ g }
    ensures { result ≡ pro_rata r g m }
{
    if m == 0 || g == 0 {
        return 0;
    }
    let floor = u64::from(r) * u64::from(m) / u64::from(g);
    // A cast: no `From` narrows, and a `TryFrom` would have a refusal that never is.
    floor as u32
}

// The sum of some energies. That they are few and in range is asked, here and below. (Lengths: DECISIONS.)
fn total(energies: &[u32]) -> u32
    requires few { length energies.now ≤ 128 }
    requires ranged { Ranged energies.now }
    ensures { result ≡ sum energies.now }
{
    energies.iter().sum()
}

// The pro rata deductions, added to others index by index, and their sum. That the two slices are of one length, and that there is room to add,
// is asked. (Lengths, By index: DECISIONS.)
fn add_floors(r: u32, g: u32, amounts: &[u32], deductions: &mut [u32]) -> u32
    requires within { r ≤ g }
    requires few { length amounts.now ≤ 128 }
    requires ranged { Ranged amounts.now }
    requires same_length { length deductions.old ≡ length amounts.now }
    requires room { (i : ℕ) → get_or deductions.old i 0 ≤ 8 * max_energy }
    ensures added { deductions.new ≡ add_each deductions.old (map (pro_rata r g) amounts.now) }
    ensures floored { result ≡ sum (map (pro_rata r g) amounts.now) }
{
    let mut floored = 0;
    for (i, m) in amounts.iter().enumerate() {
        let floor = pro_rata(r, g, *m);
        deductions[i] += floor;
        floored += floor;
    }
    floored
}

// The index of the lowest number with an amount above 0.
fn next_index(amounts: &[u32]) -> Option<usize>
    ensures { result ≡ position (ltb 0) amounts.now }
{
    amounts.iter().position(|m| 0 < *m)
}

// "the leftover units go out one each to the lowest lodging numbers with m above 0, and each hand-out leaves the rest to
// the same rule over the higher numbers": recursive, as document 01 names the form; the number left falls at each call.
fn hand_out(left: u32, amounts: &[u32], deductions: &mut [u32])
    requires same_length { length deductions.old ≡ length amounts.now }
    requires room { (i : ℕ) → get_or deductions.old i 0 ≤ 9 * max_energy }
    ensures { deductions.new ≡ add_each deductions.old (hand_out left amounts.now) }
{
    if left == 0 {
        return;
    }
    let Some(i) = next_index(amounts) else {
        return;
    };
    deductions[i] += 1;
    hand_out(left - 1, &amounts[i + 1..], &mut deductions[i + 1..]);
}

// To take an excess from amounts: what each of them loses, "the lesser of the excess and" their sum being taken, added to what it loses
// already: they are added where they stand, as the rules add those of a direction to those of the others.
fn add_share(excess: u32, amounts: &[u32], deductions: &mut [u32])
    requires few { length amounts.now ≤ 128 }
    requires ranged { Ranged amounts.now }
    requires same_length { length deductions.old ≡ length amounts.now }
    requires room { (i : ℕ) → get_or deductions.old i 0 ≤ 8 * max_energy }
    ensures { deductions.new ≡ add_each (share_of (min excess (sum amounts.now)) amounts.now) deductions.old }
{
    let g = total(amounts);
    let r = excess.min(g);
    if r == 0 {
        return;
    }
    let floored = add_floors(r, g, amounts, deductions);
    hand_out(r - floored, amounts, deductions);
}

// Nothing lost by any of n.
fn nothing(n: usize) -> ArrayVec<u32, LODGEMENTS>
    requires { n ≤ 128 }
    ensures { result.items ≡ replicate n 0 }
{
    let mut deductions = ArrayVec::new();
    for _ in 0..n {
        deductions.push(0);
    }
    deductions
}

// Share: what each amount loses of an excess, "the lesser of the excess and" their sum being taken.
pub fn share(excess: u32, amounts: &[u32]) -> ArrayVec<u32, LODGEMENTS>
    requires few { length amounts.now ≤ 128 }
    requires ranged { Ranged amounts.now }
    ensures { result.items ≡ share_of (min excess (sum amounts.now)) amounts.now }
{
    let mut deductions = nothing(amounts.len());
    add_share(excess, amounts, &mut deductions);
    deductions
}

// What each of some holders counts for in direction d: `of` says what it has, and in which direction it gives way.
// (Lengths: DECISIONS.)
fn energies_in<T, F: Fn(&T) -> Amount>(d: usize, holders: &[T], of: &F) -> ArrayVec<u32, LODGEMENTS>
    requires callable { F.IsAlwaysCallable of.now }
    requires few { length holders.now ≤ 128 }
    requires ranged { All (λ x. (a : Amount) → FnReturnsAt F.Fn of.now x a → AmountInRange a) holders.now }
    ensures value { (amount : T → Amount)
        → All (λ x. (a : Amount) → FnReturnsAt F.Fn of.now x a → a ≡ amount x) holders.now
        → result.items ≡ map (energy_in d) (map amount holders.now) }
    ensures same_length { length result.items ≡ length holders.now }
    ensures ranged_after { Ranged result.items }
{
    let mut energies = ArrayVec::new();
    for x in holders {
        energies.push(of(x).energy_in(d));
    }
    energies
}

// What each holder loses in all directions, of their excesses; the directions are added from the last to the first, as the rules do.
pub fn deductions<T, F: Fn(&T) -> Amount>(
    over: &[u32; DIRECTIONS],
    holders: &[T],
    of: F,
) -> ArrayVec<u32, LODGEMENTS>
    requires callable { F.IsAlwaysCallable of }
    requires few { length holders.now ≤ 128 }
    requires ranged { All (λ x. (a : Amount) → FnReturnsAt F.Fn of x a → AmountInRange a) holders.now }
    ensures value { (amount : T → Amount)
        → All (λ x. (a : Amount) → FnReturnsAt F.Fn of x a → a ≡ amount x) holders.now
        → result.items ≡ deductions_from over.now (map amount holders.now) 0 }
    ensures same_length { length result.items ≡ length holders.now }
{
    let mut sums = nothing(holders.len());
    // By index: d is the direction, of which `over` tells one thing and each holder's amount another.
    for d in (0..DIRECTIONS).rev() {
        if 0 < over[d] {
            let energies = energies_in(d, holders, &of);
            add_share(over[d], &energies, &mut sums);
        }
    }
    sums
}
