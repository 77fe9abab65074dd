//! The settings of a search that come from the weights of its instance where they aren't given.

ghost use Rattle.std.specs.Prelude.{◌≡◌, ◌≤◌, if◌then◌else◌, length, map, min, unsigned_abs};
ghost use Rattle.ih_improve.specs.Defaults.{AreDefaults, IsGreatest, IsMiddle, count_above, count_up_to, has_half};
ghost use Rattle.ih_improve.specs.Defaults.{weights_of};

use crate::settings::MAX_KEEP;
use ih_plan::{MAX_HARD, MAX_HEAT};
use ih_tables::Instance;

/// Settings that come from the weights of an instance. They rise with the weights.
#[derive(Clone, Copy, Debug, PartialEq, Eq)]
pub struct Defaults {
    /// The heat at the first attempt: twice the middle one of the weights above 0. So a weight that is far above the
    /// others, as that of a patient who is left out, doesn't tell.
    pub hot: u32,
    /// The heat at the last attempt: a tenth of the middle weight, rounded.
    pub cold: u32,
    /// The weight of a broken hard rule: twice the greatest weight, but at least 1000. So a unit of a broken rule
    /// weighs more than one of any cost.
    pub hard: u32,
    /// The points of a change: ten times the middle weight.
    pub keep: u32,
}

// Writes each number without its sign.
fn write_unsigned(from: &[i64], to: &mut [u64])
    requires { length to.old ≡ length from.now }
    ensures { to.new ≡ map unsigned_abs from.now }
{
    for k in 0..to.len() {
        to[k] = from[k].unsigned_abs();
    }
}

// The weights of the costs.
fn weights_of(inst: &Instance) -> [u64; 8]
    ensures { result ≡ weights_of inst.now.draft }
{
    let mut weights = [0; 8];
    write_unsigned(&inst.weights().w, &mut weights);
    weights
}

// How many of the weights are above 0.
fn count_above(weights: &[u64]) -> usize
    requires { length weights.now ≡ 8 }
    ensures value { result ≡ count_above weights.now }
    ensures few { result ≤ 8 }
{
    let mut count = 0;
    for w in weights {
        if 0 < *w {
            count += 1;
        }
    }
    count
}

// How many of the weights are above 0 and at most so large.
fn count_up_to(weights: &[u64], most: u64) -> usize
    requires { length weights.now ≡ 8 }
    ensures value { result ≡ count_up_to weights.now most }
    ensures few { result ≤ 8 }
{
    let mut count = 0;
    for w in weights {
        if 0 < *w && *w <= most {
            count += 1;
        }
    }
    count
}

// Whether at least half of the weights above 0 are at most so large.
fn has_half(weights: &[u64], most: u64) -> bool
    requires { length weights.now ≡ 8 }
    ensures { result ≡ has_half weights.now most }
{
    count_above(weights) <= 2 * count_up_to(weights, most)
}

// The greatest weight.
fn greatest_of(weights: &[u64]) -> u64
    requires { length weights.now ≡ 8 }
    ensures { IsGreatest weights.now result }
{
    let mut greatest = weights[0];
    for w in weights {
        greatest = greatest.max(*w);
    }
    greatest
}

// The lesser of two weights, where at least half of those above 0 are at most as large as the second; else the first.
fn lesser(weights: &[u64], least: u64, weight: u64) -> u64
    requires { length weights.now ≡ 8 }
    ensures { result ≡ (if has_half weights.now weight then min least weight else least) }
{
    if has_half(weights, weight) {
        least.min(weight)
    } else {
        least
    }
}

// The middle one of the weights above 0, the lower of two; 0 where there is none.
fn middle_of(weights: &[u64]) -> u64
    requires { length weights.now ≡ 8 }
    ensures { IsMiddle weights.now result }
{
    let mut middle = greatest_of(weights);
    for w in weights {
        middle = lesser(weights, middle, *w);
    }
    middle
}

// The middle weight of an instance.
fn middle_weight(inst: &Instance) -> u32
    ensures is { IsMiddle (weights_of inst.now.draft) result }
    ensures most { result ≤ 100000 }
{
    let weights = weights_of(inst);
    middle_of(&weights) as u32
}

// The greatest weight of an instance.
fn greatest_weight(inst: &Instance) -> u32
    ensures is { IsGreatest (weights_of inst.now.draft) result }
    ensures most { result ≤ 100000 }
{
    let weights = weights_of(inst);
    greatest_of(&weights) as u32
}

impl Defaults {
    /// The settings that come from the weights of the instance.
    pub fn by_weights(inst: &Instance) -> Defaults
        ensures value { AreDefaults inst.now.draft result }
        ensures hot { result.hot ≤ MAX_HEAT }
        ensures cold { result.cold ≤ result.hot }
        ensures hard { result.hard ≤ MAX_HARD }
        ensures keep { result.keep ≤ MAX_KEEP }
    {
        let middle = middle_weight(inst);
        Defaults {
            hot: 2 * middle,
            cold: (middle + 5) / 10,
            hard: (2 * greatest_weight(inst)).max(1000),
            keep: 10 * middle,
        }
    }
}
