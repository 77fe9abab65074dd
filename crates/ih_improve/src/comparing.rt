//! What timetables are judged by, and which of two is better.

ghost use Rattle.std.specs.Prelude.{◌≡◌, ◌*◌, ◌≤◌, ◌+ℤ◌, ◌≤ℤ◌, ◌^◌, int_lt, neg_ℤ, pos};
ghost use Rattle.ih_tables.specs.Bills.{IsWithin};
ghost use Rattle.ih_improve.specs.Better.{is_better, is_less};

use crate::pins::Pins;
use crate::settings::Settings;
use ih_changes::count_changes;
use ih_plan::Plan;
use ih_tables::{Bill, Instance};
use std::marker::Model;

/// What a timetable is judged by.
#[derive(Clone, Copy, Debug, PartialEq, Eq)]
pub struct Standing {
    /// Its bill.
    pub bill: Bill,
    /// How many changes against the start count: none where they weigh nothing.
    pub changes: u32,
}

impl Standing {
    ghost use Rattle.std.specs.Prelude.{◌≡◌};
    ghost use Rattle.ih_improve.specs.Better.{of_bill};

    /// What a timetable with this bill is judged by where changes don't count.
    pub fn of_bill(bill: Bill) -> Standing
        ensures { result ≡ of_bill bill }
    {
        Standing { bill, changes: 0 }
    }
}

// The points of so many changes.
fn points(keep: u32, changes: u32) -> u64
    requires { keep ≤ 1000000 }
    ensures value { result ≡ keep * changes }
    ensures few { result ≤ 10 ^ 16 }
{
    u64::from(keep) * u64::from(changes)
}

// A number with its points.
fn with_points(number: i64, points: u64) -> i64
    requires low { neg_ℤ (pos (10 ^ 18)) ≤ℤ number }
    requires high { number ≤ℤ pos (10 ^ 18) }
    requires few { points ≤ 10 ^ 16 }
    ensures { result ≡ number +ℤ pos points }
{
    number + points as i64
}

fn is_below(first: i64, second: i64) -> bool
    ensures { result ≡ int_lt first second }
{
    first < second
}

// Whether the first number with the points of its changes is less than the second. Where their sums are equal, the points
// decide.
fn is_less(keep: u32, first: i64, first_changes: u32, second: i64, second_changes: u32) -> bool
    requires keep { keep ≤ 1000000 }
    requires first_low { neg_ℤ (pos (10 ^ 18)) ≤ℤ first }
    requires first_high { first ≤ℤ pos (10 ^ 18) }
    requires second_low { neg_ℤ (pos (10 ^ 18)) ≤ℤ second }
    requires second_high { second ≤ℤ pos (10 ^ 18) }
    ensures { result ≡ is_less first (keep * first_changes) second (keep * second_changes) }
{
    let few = points(keep, first_changes);
    let more = points(keep, second_changes);
    let one = with_points(first, few);
    let other = with_points(second, more);
    is_below(one, other) || (!is_below(other, one) && few < more)
}

/// Whether what stands at the first is better than what stands at the second, where each change weighs `keep` points: a
/// feasible one is better than one that isn't, two feasible ones go by their costs with the points of their changes, and
/// two others by their scores alone.
pub fn is_better(inst: &Instance, hard: u32, keep: u32, first: &Standing, second: &Standing) -> bool
    requires hard { hard ≤ 1000000 }
    requires keep { keep ≤ 1000000 }
    requires first { IsWithin (10 ^ 11) first.now.bill }
    requires second { IsWithin (10 ^ 11) second.now.bill }
    ensures { result ≡ is_better hard keep inst.now.draft.weights first.now second.now }
{
    let (one, other) = (&first.bill, &second.bill);
    match (one.feasible(), other.feasible()) {
        (true, true) => {
            let (low, high) = (one.cost(inst.weights()), other.cost(inst.weights()));
            is_less(keep, low, first.changes, high, second.changes)
        }
        (true, false) => true,
        (false, true) => false,
        (false, false) => { is_below(inst.score_of(hard, one), inst.score_of(hard, other)) }
    }
}

/// By what the timetables of a search are judged.
#[derive(Drop)]
pub(crate) struct Measure<'b> {
    pub(crate) inst: &'b Instance,
    pub(crate) start: &'b Plan,
    pub(crate) pins: &'b Pins,
    pub(crate) settings: &'b Settings,
}

impl<'b> Model for Measure<'b> {
    ghost use Rattle.ih_plan.specs.Timetable.{IsPlanOf};
    ghost use Rattle.ih_improve.specs.{Settings.IsLawful, Terms.Terms};

    ghost Value = { Terms };

    ghost view = { λ m. record {
      instance = m.inst.now.draft;
      start = m.start.now;
      pins = m.pins.now;
      settings = m.settings.now;
    } };

    ghost invariant = { λ m. IsPlanOf m.inst.now.draft m.start.now × IsLawful m.settings.now };
}

impl<'b> Measure<'b> {
    ghost use Rattle.std.specs.Prelude.{◌≡◌, ◌^◌};
    ghost use Rattle.ih_tables.specs.Bills.{IsWithin};
    ghost use Rattle.ih_plan.specs.{BillOf.bill_of, Timetable.IsPlanOf, Timetable.Timetable};
    ghost use Rattle.ih_improve.specs.Better.{counted_changes, is_better, standing_of};

    // How many changes of a timetable count. Where they weigh nothing none is looked at.
    fn counted_changes(&self, plan: &Plan) -> u32
        requires { IsPlanOf self.now.instance plan.now }
        ensures { result ≡ counted_changes self.now plan.now }
    {
        if self.settings.keep == 0 {
            return 0;
        }
        let count = count_changes(self.inst, self.start, plan);
        count.patients + count.nurses
    }

    /// What a timetable with this bill is judged by.
    pub(crate) fn standing_of(&self, plan: &Plan, bill: &Bill) -> Standing
        requires plan { IsPlanOf self.now.instance plan.now }
        requires bill { bill.now ≡ bill_of self.now.instance plan.now }
        ensures { result ≡ standing_of self.now plan.now }
    {
        Standing {
            bill: *bill,
            changes: self.counted_changes(plan),
        }
    }

    /// A fact for the caller's proof: no number of a bill is above 10^11.
    pub(crate) fn know_bills(&self)
        ensures { (P : Timetable) → IsPlanOf self.now.instance P → IsWithin (10 ^ 11) (bill_of self.now.instance P) }
    {
        let _ = self.inst.days();
    }

    /// Whether what stands at the first is better than what stands at the second.
    pub(crate) fn is_better(&self, first: &Standing, second: &Standing) -> bool
        requires first { IsWithin (10 ^ 11) first.now.bill }
        requires second { IsWithin (10 ^ 11) second.now.bill }
        ensures { result
            ≡ is_better self.now.settings.hard self.now.settings.keep self.now.instance.weights first.now second.now }
    {
        is_better(
            self.inst,
            self.settings.hard,
            self.settings.keep,
            first,
            second,
        )
    }
}
