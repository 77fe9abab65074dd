//! A search, round by round.

ghost use Rattle.std.specs.Prelude.{◌≡◌, ◌≤◌, false, IfOk, All, length, map};
ghost use Rattle.ih_plan.specs.Timetable.{IsPlanOf};
ghost use Rattle.ih_plan.specs.BillOf.{bill_of};
ghost use Rattle.ih_improve.specs.Better.{best_of, better_of, is_better_than, standing_of};
ghost use Rattle.ih_improve.specs.Keeping.{IsOf, StandsOn, best_met};

use crate::comparing::{Measure, Standing};
use crate::heats::cooling_of;
use crate::legs::Leg;
use crate::pins::Pins;
use crate::rounds::walk_all;
use crate::settings::Settings;
use crate::spans::Span;
use crate::walkers::Walker;
use crate::workers::ImproveWorker;
use ih_plan::Plan;
use ih_tables::{Bill, Instance};
use ih_validate::bill;
use std::alloc::{AllocError, Global};
use std::marker::Model;
use std::thread::Threads;

/// A search for better plans over a start. After `new` no call takes memory.
#[derive(Drop)]
pub struct Improver<'a> {
    inst: &'a Instance,
    start: Plan,
    pins: Pins,
    settings: Settings,
    // How many rounds are over, and how many attempts each worker made in them.
    rounds: u32,
    attempts: u64,
    // The last of them.
    last: Span,
    // The best timetable so far, and what it is judged by.
    kept: Plan,
    standing: Standing,
    workers: Vec<ImproveWorker<'a>>,
}

impl<'a> Model for Improver<'a> {
    ghost use Rattle.ih_improve.specs.ImproverState.{ImproverState};

    ghost Value = { ImproverState };

    ghost use Rattle.ih_improve.specs.Keeping.{IsKeeping};

    ghost view = { λ m. record {
      instance = m.inst.now.draft;
      start = m.start;
      pins = m.pins;
      settings = m.settings;
      rounds = m.rounds;
      attempts = m.attempts;
      kept = m.kept;
    } };

    ghost invariant = { λ m.
        let v : ImproverState = record {
          instance = m.inst.now.draft;
          start = m.start;
          pins = m.pins;
          settings = m.settings;
          rounds = m.rounds;
          attempts = m.attempts;
          kept = m.kept;
        } in IsKeeping v m.standing m.workers.items };
}

// The workers of a search, which stand on the start. It has this bill.
fn new_workers<'a>(
    alloc: Global,
    inst: &'a Instance,
    plan: &Plan,
    bill: &Bill,
    settings: &Settings,
) -> Result<Vec<ImproveWorker<'a>>, AllocError>
    requires plan { IsPlanOf inst.now.draft plan.now }
    requires bill { bill.now ≡ bill_of inst.now.draft plan.now }
    ensures count { IfOk result (λ ws. length ws.items ≡ settings.now.workers) }
    ensures instance { IfOk result (λ ws. All (IsOf inst.entry.now.draft) ws.items) }
    ensures stands { IfOk result (λ ws. All (StandsOn plan.now) ws.items) }
{
    let mut workers = Vec::with_capacity(alloc, settings.workers as usize)?;
    for _ in 0..settings.workers {
        workers.push_reserved(ImproveWorker::new(alloc, inst, plan, bill, settings.keep)?);
    }
    Ok(workers)
}

// Takes over what a worker found, where that is better.
fn take_better(measure: &Measure<'_>, walker: &Walker<'_>, kept: &mut Plan, standing: &mut Standing)
    requires walker { walker.now.instance ≡ measure.now.instance }
    requires kept { IsPlanOf measure.now.instance kept.old }
    requires standing { standing.old ≡ standing_of measure.now kept.old }
    ensures kept { kept.new ≡ better_of measure.now kept.old walker.now.best }
    ensures fits { IsPlanOf measure.now.instance kept.new }
    ensures standing { standing.new ≡ standing_of measure.now kept.new }
{
    measure.know_bills();
    let found = measure.standing_of(walker.best(), walker.best_bill());
    if measure.is_better(&found, standing) {
        kept.copy_from(walker.best());
        *standing = found;
    }
}

// Takes over the best of what the workers found, the first on a tie, where that is better. Answers whether it was.
fn take_best(
    measure: &Measure<'_>,
    workers: &[ImproveWorker<'_>],
    kept: &mut Plan,
    standing: &mut Standing,
) -> bool
    requires workers { All (IsOf measure.now.instance) workers.now }
    requires kept { IsPlanOf measure.now.instance kept.old }
    requires standing { standing.old ≡ standing_of measure.now kept.old }
    ensures kept { kept.new ≡ best_of measure.now kept.old (map best_met workers.now) }
    ensures standing { standing.new ≡ standing_of measure.now kept.new }
    ensures better { result ≡ is_better_than measure.now kept.new kept.old }
    ensures same { result ≡ false → kept.new ≡ kept.old }
{
    measure.know_bills();
    let before = *standing;
    for worker in workers {
        take_better(measure, &worker.walker, kept, standing);
    }
    measure.is_better(standing, &before)
}

impl<'a> Improver<'a> {
    ghost use Rattle.std.specs.Prelude.{◌≡◌, ◌*◌, ◌≤◌, ◌<◌, ◌^◌, true, false, IfOk, IfSome, IfNone};
    ghost use Rattle.ih_tables.specs.Bills.{cost, feasible};
    ghost use Rattle.ih_plan.specs.Timetable.{IsPlanOf};
    ghost use Rattle.ih_plan.specs.BillOf.{bill_of};
    ghost use Rattle.ih_improve.specs.Better.{is_better_than, standing_of};
    ghost use Rattle.ih_improve.specs.ImproverState.{IsSound, Leads, MayGoOn, led_to, terms_of};
    ghost use Rattle.ih_improve.specs.Following.{IsNoWorse};
    ghost use Rattle.ih_improve.specs.Legs.{Leaves};
    ghost use Rattle.ih_improve.specs.Settings.{IsLawful};

    /// A search over a start, which fits the instance, and some of whose choices are pinned. The start is the best so far.
    pub fn new(
        alloc: Global,
        inst: &'a Instance,
        start: &Plan,
        pins: Pins,
        settings: &Settings,
    ) -> Result<Improver<'a>, AllocError>
        requires start { IsPlanOf inst.now.draft start.now }
        requires lawful { IsLawful settings.now }
        ensures { IfOk result (λ m. m ≡ record {
          instance = inst.entry.now.draft;
          start = start.now;
          pins = pins;
          settings = settings.now;
          rounds = 0;
          attempts = 0;
          kept = start.now;
        }) }
    {
        let costs = bill(inst, start);
        let workers = new_workers(alloc, inst, start, &costs, settings)?;
        Ok(Improver {
            inst,
            start: start.try_clone(alloc)?,
            pins,
            settings: *settings,
            rounds: 0,
            attempts: 0,
            last: Span {
                attempts: 0,
                from: 0,
                to: 0,
                whole: 0,
                is_cold: false,
            },
            kept: start.try_clone(alloc)?,
            standing: Standing::of_bill(costs),
            workers,
        })
    }

    /// One round: each worker goes on from its own timetable, or from the best so far, by attempts of its own, in a
    /// thread of its own where one can be started, and the best of all is kept. It is never worse than the one before.
    /// Answers whether it is better than that; else it is the same.
    pub fn round<R: Threads + Sync>(&mut self, rt: &R, span: &Span) -> bool
        requires { MayGoOn self.old span.now }
        ensures search { self.new ≡ led_to self.old span.now self.new.kept }
        ensures best { Leads Leaves self.old span.now self.new.kept }
        ensures no_worse { IsNoWorse (terms_of self.old) self.old.kept self.new.kept }
        ensures better { result ≡ is_better_than (terms_of self.old) self.new.kept self.old.kept }
        ensures same { result ≡ false → self.new.kept ≡ self.old.kept }
    {
        let leg = Leg::new(
            self.inst,
            &self.start,
            &self.pins,
            &self.settings,
            self.rounds,
            span,
            &self.kept,
            &self.standing,
        );
        walk_all(rt, &leg, self.workers.as_mut_slice());
        self.rounds += 1;
        self.attempts += span.attempts;
        self.last = *span;
        let measure = Measure {
            inst: self.inst,
            start: &self.start,
            pins: &self.pins,
            settings: &self.settings,
        };
        take_best(
            &measure,
            self.workers.as_slice(),
            &mut self.kept,
            &mut self.standing,
        )
    }

    /// The best timetable so far with its cost, where it is feasible. What holds of it is `IsSound`.
    pub fn best(&self) -> Option<(&Plan, i64)>
        ensures found { IfSome result (λ b. b.0.now ≡ self.now.kept) }
        ensures feasible { IfSome result (λ b. feasible (bill_of self.now.instance self.now.kept) ≡ true) }
        ensures cost { IfSome result
            (λ b. b.1 ≡ cost self.now.instance.weights (bill_of self.now.instance self.now.kept)) }
        ensures none { IfNone result (feasible (bill_of self.now.instance self.now.kept) ≡ false) }
        ensures sound { IsSound self.now }
    {
        let bill = &self.standing.bill;
        if bill.feasible() {
            Some((&self.kept, bill.cost(self.inst.weights())))
        } else {
            None
        }
    }

    /// The best timetable so far, whether it is feasible or not. What holds of it is `IsSound`.
    pub fn kept(&self) -> &Plan
        ensures value { result.now ≡ self.now.kept }
        ensures sound { IsSound self.now }
    {
        &self.kept
    }

    /// Whether the best timetable so far is better than another one of the instance.
    pub fn beats(&self, other: &Plan) -> bool
        requires { IsPlanOf self.now.instance other.now }
        ensures { result ≡ is_better_than (terms_of self.now) self.now.kept other.now }
    {
        let measure = self.measure();
        measure.know_bills();
        let found = measure.standing_of(other, &bill(self.inst, other));
        measure.is_better(&self.standing, &found)
    }

    // By what timetables are judged.
    fn measure(&self) -> Measure<'_>
        ensures { result ≡ terms_of self.now }
    {
        Measure {
            inst: self.inst,
            start: &self.start,
            pins: &self.pins,
            settings: &self.settings,
        }
    }

    /// The timetable from which the search began.
    pub fn start(&self) -> &Plan
        ensures value { result.now ≡ self.now.start }
        ensures sound { IsSound self.now }
    {
        &self.start
    }

    /// How many points each change against the start weighs.
    pub fn keep(&self) -> u32
        ensures { result ≡ self.now.settings.keep }
    {
        self.settings.keep
    }

    /// How many rounds are over.
    pub fn rounds_made(&self) -> u32
        ensures { result ≡ self.now.rounds }
    {
        self.rounds
    }

    /// How many workers there are.
    pub fn workers(&self) -> u32
        ensures { result ≡ self.now.settings.workers }
    {
        self.settings.workers
    }

    /// How many attempts each worker has made.
    pub fn attempts_each(&self) -> u64
        ensures value { result ≡ self.now.attempts }
        ensures most { result ≤ 10 ^ 17 }
    {
        self.attempts
    }

    /// How many attempts all workers have made together.
    pub fn attempts_made(&self) -> u64
        ensures value { result ≡ self.now.settings.workers * self.now.attempts }
        ensures most { result ≤ 64 * 10 ^ 17 }
    {
        u64::from(self.settings.workers) * self.attempts
    }

    /// The first worker's heat as the last round ended. It is for showing alone.
    pub fn heat(&self) -> u32
        ensures { result ≤ 2 ^ 21 }
    {
        let place = self.last.to;
        let is_found = self.standing.bill.feasible();
        let cooling = cooling_of(self.inst, &self.settings, 0, &self.last, place, is_found);
        (cooling.at(place) / 65536) as u32
    }
}
