//! The weights of an instance, and the bill of a timetable: nine counts of broken rules and eight costs.

ghost use Rattle.std.specs.Prelude.{◌≡◌, ℕ, ◌≤◌, ◌<◌, ◌≤ℤ◌, ◌<ℤ◌, ◌+ℤ◌, ◌-ℤ◌, ◌*ℤ◌, ◌*◌, ◌^◌, pos, neg_ℤ};
ghost use Rattle.std.specs.Prelude.{FitsSigned, length};
ghost use Rattle.std.specs.Int.{w64};
ghost use Rattle.ih_tables.specs.Bills.{at, signed_sum, AreWithin};
ghost use Rattle.ih_tables.specs.Listed.{listed};

/// What one unit of each cost weighs, in the costs' order: mixed ages in rooms, missing skill in
/// rooms, continuity of care, nurses' excess workload, open operating theatres, surgeons' transfers,
/// patients' delay, optional patients left out. Each is 0 to 100,000.
#[derive(Clone, Copy, Debug, PartialEq, Eq)]
pub struct Weights {
    pub w: [i64; 8],
}

/// What a timetable breaks and costs, or the difference of two timetables' bills.
#[derive(Clone, Copy, Debug, PartialEq, Eq)]
pub struct Bill {
    /// How often, or by how much, each hard rule is broken: genders mixed in a room, incompatible
    /// rooms, surgeons' and operating theatres' minutes above their maximum, mandatory patients left
    /// out, admissions outside the window, persons above a room's capacity, nurses in shifts that
    /// they don't work, occupied rooms without a nurse.
    pub v: [i64; 9],
    /// The costs, in the order of `Weights`, before they are weighed.
    pub s: [i64; 8],
}

fn add_each(sums: &mut [i64], added: &[i64])
    requires same { length added.now ≡ length sums.old }
    requires fits { (k : ℕ) → k < length sums.old → FitsSigned w64 (at sums.old k +ℤ at added.now k) }
    ensures { sums.new ≡ listed (length sums.old) (λ k. at sums.old k +ℤ at added.now k) }
{
    for i in 0..sums.len() {
        sums[i] += added[i];
    }
}

fn sub_each(left: &[i64], right: &[i64], out: &mut [i64])
    requires first { length left.now ≡ length out.old }
    requires second { length right.now ≡ length out.old }
    requires fits { (k : ℕ) → k < length out.old → FitsSigned w64 (at left.now k -ℤ at right.now k) }
    ensures { out.new ≡ listed (length out.old) (λ k. at left.now k -ℤ at right.now k) }
{
    for i in 0..out.len() {
        out[i] = left[i] - right[i];
    }
}

#[tactic(auto, using(crate::proofs::BillLemmas::signed_steps))]
fn total(values: &[i64]) -> i64
    requires short { length values.now ≤ 9 }
    requires within { AreWithin (10 ^ 11) (length values.now) values.now }
    ensures sum { result ≡ signed_sum (length values.now) (at values.now) }
    ensures low { neg_ℤ (pos (9 * 10 ^ 11)) ≤ℤ result }
    ensures high { result ≤ℤ pos (9 * 10 ^ 11) }
{
    let mut sum = 0;
    for i in 0..values.len() {
        sum += values[i];
    }
    sum
}

/// A number of a bill times its weight.
pub fn times(value: i64, weight: i64) -> i64
    requires low { neg_ℤ (pos (10 ^ 11)) ≤ℤ value }
    requires high { value ≤ℤ pos (10 ^ 11) }
    requires weight_low { pos 0 ≤ℤ weight }
    requires weight_high { weight ≤ℤ pos 100000 }
    ensures product { result ≡ value *ℤ weight }
    ensures least { neg_ℤ (pos (10 ^ 16)) ≤ℤ result }
    ensures most { result ≤ℤ pos (10 ^ 16) }
{
    value * weight
}

fn for_rules(hard: u32, broken: i64) -> i64
    requires hard { hard ≤ 1000000 }
    requires low { neg_ℤ (pos (9 * 10 ^ 11)) ≤ℤ broken }
    requires high { broken ≤ℤ pos (9 * 10 ^ 11) }
    ensures product { result ≡ pos hard *ℤ broken }
    ensures least { neg_ℤ (pos (9 * 10 ^ 17)) ≤ℤ result }
    ensures most { result ≤ℤ pos (9 * 10 ^ 17) }
{
    hard as i64 * broken
}

fn plus(left: i64, right: i64) -> i64
    requires fits { FitsSigned w64 (left +ℤ right) }
    ensures { result ≡ left +ℤ right }
{
    left + right
}

// The costs times their weights, summed.
#[tactic(auto, using(crate::proofs::BillLemmas::signed_steps))]
fn weighted(costs: &[i64], weights: &[i64]) -> i64
    requires short { length costs.now ≤ 8 }
    requires same { length weights.now ≡ length costs.now }
    requires within { AreWithin (10 ^ 11) (length costs.now) costs.now }
    requires weights { (k : ℕ) → k < length costs.now → (pos 0 ≤ℤ at weights.now k) × (at weights.now k ≤ℤ pos 100000) }
    ensures sum { result ≡ signed_sum (length costs.now) (λ k. at costs.now k *ℤ at weights.now k) }
    ensures low { neg_ℤ (pos (8 * 10 ^ 16)) ≤ℤ result }
    ensures high { result ≤ℤ pos (8 * 10 ^ 16) }
{
    let mut sum = 0;
    for i in 0..costs.len() {
        sum += times(costs[i], weights[i]);
    }
    sum
}

impl Bill {
    ghost use Rattle.ih_tables.specs.Bills.{zero_bill, add_bills, sub_bills, feasible, cost, score, IsWithin};

    /// The bill that breaks and costs nothing.
    pub fn zero() -> Bill
        ensures { result ≡ zero_bill }
    {
        Bill {
            v: [0; 9],
            s: [0; 8],
        }
    }

    /// The sum, number by number; each is at most 10^12 in magnitude.
    pub fn add(&self, other: &Bill) -> Bill
        requires { IsWithin (10 ^ 12) (add_bills self.now other.now) }
        ensures { result ≡ add_bills self.now other.now }
    {
        let mut sum = *self;
        sum.take_in(other);
        sum
    }

    /// Adds the other bill, number by number, in place; each sum is at most 10^12 in magnitude.
    pub fn take_in(&mut self, other: &Bill)
        requires { IsWithin (10 ^ 12) (add_bills self.old other.now) }
        ensures { self.new ≡ add_bills self.old other.now }
    {
        add_each(&mut self.v, &other.v);
        add_each(&mut self.s, &other.s);
    }

    /// The difference, number by number; each is at most 10^12 in magnitude.
    pub fn sub(&self, other: &Bill) -> Bill
        requires { IsWithin (10 ^ 12) (sub_bills self.now other.now) }
        ensures { result ≡ sub_bills self.now other.now }
    {
        let mut difference = Bill::zero();
        sub_each(&self.v, &other.v, &mut difference.v);
        sub_each(&self.s, &other.s, &mut difference.s);
        difference
    }

    /// The costs times their weights, summed: below 10^18 in magnitude. Each number of the bill is at most 10^11 in
    /// magnitude.
    pub fn cost(&self, weights: &Weights) -> i64
        requires within { IsWithin (10 ^ 11) self.now }
        requires weights { (k : ℕ) → k < 8 → (pos 0 ≤ℤ at weights.now.w k) × (at weights.now.w k ≤ℤ pos 100000) }
        ensures cost { result ≡ cost weights.now self.now }
        ensures low { neg_ℤ (pos (10 ^ 18)) <ℤ result }
        ensures high { result <ℤ pos (10 ^ 18) }
    {
        weighted(&self.s, &weights.w)
    }

    /// The weighed costs, and the hard weight for each broken rule: below 10^18 in magnitude.
    pub fn score(&self, hard: u32, weights: &Weights) -> i64
        requires within { IsWithin (10 ^ 11) self.now }
        requires weights { (k : ℕ) → k < 8 → (pos 0 ≤ℤ at weights.now.w k) × (at weights.now.w k ≤ℤ pos 100000) }
        requires hard { hard ≤ 1000000 }
        ensures score { result ≡ score hard weights.now self.now }
        ensures low { neg_ℤ (pos (10 ^ 18)) <ℤ result }
        ensures high { result <ℤ pos (10 ^ 18) }
    {
        plus(
            for_rules(hard, total(&self.v)),
            weighted(&self.s, &weights.w),
        )
    }

    /// Whether no hard rule is broken.
    pub fn feasible(&self) -> bool
        ensures { result ≡ feasible self.now }
    {
        for x in &self.v {
            if *x != 0 {
                return false;
            }
        }
        true
    }
}
