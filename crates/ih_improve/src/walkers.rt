//! Where a worker stands, and the best that it has met.

ghost use Rattle.std.specs.Prelude.{◌≡◌, ◌≤◌, ◌^◌, ◌⊎◌, IfOk, if◌then◌else◌};
ghost use Rattle.ih_tables.specs.Bills.{IsWithin};
ghost use Rattle.ih_plan.specs.Timetable.{IsPlanOf};
ghost use Rattle.ih_plan.specs.BillOf.{bill_of};
ghost use Rattle.ih_plan.specs.Series.{AreMoves, after_all, price_of_all};
ghost use Rattle.ih_improve.specs.{Settings.IsLawful, WalkerState.left_best_with};

use crate::comparing::{Standing, is_better};
use crate::distances::Distance;
use crate::settings::Settings;
use ih_costs::Ledgers;
use ih_plan::{Move, Plan};
use ih_tables::{Bill, Instance};
use std::alloc::{AllocError, Global};
use std::marker::Model;

/// Ledgers on their way from timetable to timetable, with the bill where they stand, and the best timetable that they
/// have met, as far as that can be told by the number of changes that is kept along. After `new` no call takes memory.
#[derive(Drop)]
pub(crate) struct Walker<'a> {
    inst: &'a Instance,
    ledgers: Ledgers<'a>,
    // The bill where the ledgers stand.
    bill: Bill,
    // The best timetable, unless the ledgers stand on it: it is copied as they leave it, so what is bettered at once
    // is never copied.
    left_best: Plan,
    stands_on_best: bool,
    best_bill: Bill,
    // How far the ledgers are from the start, and the best. Nothing that is promised rests on it.
    distance: Distance,
    best_changes: u32,
}

impl<'a> Model for Walker<'a> {
    ghost use Rattle.ih_improve.specs.WalkerState.{AreBills, WalkerState, best_at};

    ghost Value = { WalkerState };

    ghost view = { λ w. record {
      instance = w.inst.now.draft;
      now = w.ledgers.plan;
      best = best_at w.stands_on_best w.ledgers.plan w.left_best;
    } };

    ghost invariant = { λ w. AreBills w.inst.now.draft w.ledgers w.left_best w.stands_on_best w.bill w.best_bill };
}

// Copies the best timetable as the ledgers leave it, but not one that the move betters: no one would read that copy.
fn keep_left(
    inst: &Instance,
    left_best: &mut Plan,
    here: &Plan,
    stands_on_best: bool,
    is_bettered: bool,
)
    requires left_best { IsPlanOf inst.now.draft left_best.old }
    requires here { IsPlanOf inst.now.draft here.now }
    ensures { left_best.new ≡ left_best_with stands_on_best is_bettered here.now left_best.old }
{
    let _ = inst.days();
    if stands_on_best && !is_bettered {
        left_best.copy_from(here);
    }
}

// The bill of the best, where another may have bettered it.
fn best_bill_with(is_bettered: bool, next: &Bill, best: &Bill) -> Bill
    ensures { result ≡ (if is_bettered then next.now else best.now) }
{
    if is_bettered { *next } else { *best }
}

// The first number where it holds, else the second.
fn chosen(is_first: bool, first: u32, second: u32) -> u32 {
    if is_first { first } else { second }
}

// The points of so many changes.
fn points(keep: u32, changes: u32) -> i64 {
    i64::from(keep).saturating_mul(i64::from(changes))
}

impl<'a> Walker<'a> {
    /// One that stands on the start, which is the best so far.
    pub(crate) fn new(
        alloc: Global,
        inst: &'a Instance,
        plan: &Plan,
        bill: &Bill,
        keep: u32,
    ) -> Result<Walker<'a>, AllocError>
        requires plan { IsPlanOf inst.now.draft plan.now }
        requires bill { bill.now ≡ bill_of inst.now.draft plan.now }
        ensures { IfOk result
            (λ w. w ≡ record { instance = inst.entry.now.draft; now = plan.now; best = plan.now }) }
    {
        Ok(Walker {
            inst,
            ledgers: Ledgers::new(alloc, inst, plan)?,
            bill: *bill,
            left_best: plan.try_clone(alloc)?,
            stands_on_best: true,
            best_bill: *bill,
            distance: Distance::new(alloc, inst, plan, keep > 0)?,
            best_changes: 0,
        })
    }

    /// Goes to the best timetable that it has met. In time of the whole timetable.
    pub(crate) fn go_to_best(&mut self, keep: u32)
        ensures { self.new ≡ record self.old { now = self.old.best } }
    {
        if self.stands_on_best {
            return;
        }
        self.ledgers.copy_from(&self.left_best);
        self.bill = self.best_bill;
        self.stands_on_best = true;
        if keep > 0 {
            self.distance.go_to(self.inst, self.ledgers.plan());
        }
    }

    /// Stays where it stands, and has another timetable as the best so far, which stands so.
    pub(crate) fn begin_with_best(&mut self, best: &Plan, standing: &Standing)
        requires plan { IsPlanOf self.old.instance best.now }
        requires bill { standing.now.bill ≡ bill_of self.old.instance best.now }
        ensures { self.new ≡ record { instance = self.old.instance; now = self.old.now; best = best.now } }
    {
        self.left_best.copy_from(best);
        self.stands_on_best = false;
        self.best_bill = standing.bill;
        self.best_changes = standing.changes;
    }

    /// The bill where it stands. Each number is at most 10^11.
    pub(crate) fn bill(&self) -> &Bill
        ensures value { result.now ≡ bill_of self.now.instance self.now.now }
        ensures within { IsWithin (10 ^ 11) result.now }
    {
        &self.bill
    }

    /// The ledgers.
    pub(crate) fn ledgers(&self) -> &Ledgers<'a>
        ensures { result.now ≡ record { instance = self.now.instance; plan = self.now.now } }
    {
        &self.ledgers
    }

    /// What moves in a row would add to the bill together. They aren't made.
    #[inline(always)]
    pub(crate) fn price(&mut self, moves: &[Move]) -> Bill
        requires { AreMoves self.old.instance moves.now }
        ensures price { result ≡ price_of_all self.old.instance self.old.now moves.now }
        ensures within { IsWithin (10 ^ 11) result }
        ensures same { self.new ≡ self.old }
    {
        self.ledgers.price_all_alone(moves)
    }

    /// What moves that add so much to the score add to it with the points of their changes. They are tried where that
    /// may be at most `most`, and taken back where it isn't. Nothing is promised of the number.
    #[inline(always)]
    pub(crate) fn whole_price(&mut self, keep: u32, moves: &[Move], score: i64, most: i64) -> i64
        ensures { self.new ≡ self.old }
    {
        if keep == 0 {
            return score;
        }
        let before = points(keep, self.distance.changes());
        let least = score.saturating_sub(before);
        if least > most {
            return least;
        }
        self.distance.play(self.inst, moves);
        let whole = least.saturating_add(points(keep, self.distance.changes()));
        if whole > most {
            self.distance.take_back(self.inst);
        }
        whole
    }

    /// Makes moves in a row, with this price. Where they lead to a better timetable than any before, by the changes that
    /// are kept along, it is the best from then on.
    pub(crate) fn make_moves(&mut self, settings: &Settings, moves: &[Move], price: &Bill)
        requires lawful { IsLawful settings.now }
        requires moves { AreMoves self.old.instance moves.now }
        requires price { price.now ≡ price_of_all self.old.instance self.old.now moves.now }
        ensures instance { self.new.instance ≡ self.old.instance }
        ensures now { self.new.now ≡ after_all self.old.instance self.old.now moves.now }
        ensures best { (self.new.best ≡ self.old.best) ⊎ (self.new.best ≡ self.new.now) }
    {
        let next = self.bill.add(price);
        let changes = self.distance.changes();
        let here = Standing {
            bill: next,
            changes,
        };
        let best = Standing {
            bill: self.best_bill,
            changes: self.best_changes,
        };
        let is_best = is_better(self.inst, settings.hard, settings.keep, &here, &best);
        keep_left(
            self.inst,
            &mut self.left_best,
            self.ledgers.plan(),
            self.stands_on_best,
            is_best,
        );
        self.ledgers.play_all(moves);
        self.bill = next;
        self.best_bill = best_bill_with(is_best, &next, &self.best_bill);
        self.best_changes = chosen(is_best, changes, self.best_changes);
        self.stands_on_best = is_best;
    }

    /// The best timetable that it has met, which fits the instance.
    pub(crate) fn best(&self) -> &Plan
        ensures value { result.now ≡ self.now.best }
        ensures fits { IsPlanOf self.now.instance self.now.best }
    {
        if self.stands_on_best {
            self.ledgers.plan()
        } else {
            &self.left_best
        }
    }

    /// Its bill. Each number is at most 10^11.
    pub(crate) fn best_bill(&self) -> &Bill
        ensures value { result.now ≡ bill_of self.now.instance self.now.best }
        ensures within { IsWithin (10 ^ 11) result.now }
    {
        &self.best_bill
    }
}
