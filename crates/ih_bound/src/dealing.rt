//! Workers side by side: each finds what the persons who are dealt to it pay at least.

ghost use Rattle.std.specs.Prelude.{◌≡◌, ◌<◌, ◌≤◌, ℕ, [], All, IfOk, length, slice_index_or};
ghost use Rattle.std.specs.Fork.{AcceptsEach, ChangesEach};
ghost use Rattle.ih_tables.specs.Sizes.{person_count};
ghost use Rattle.ih_plan.specs.Sums.{sum_below};
ghost use Rattle.ih_plan.specs.Timetable.{Timetable};
ghost use Rattle.ih_bound.specs.Bounds.{IsFeasible};
ghost use Rattle.ih_bound.specs.Least.{AreFloors, BoundsPerson};
ghost use Rattle.ih_bound.specs.Tariffs.{tariff_of};
ghost use Rattle.ih_bound.specs.Dealing.{HasFloors, BoundsDealt, dealt_paid};

use crate::demand::Demand;
use crate::floors::Floors;
use crate::people::{least_of_occupant, least_of_patient};
use crate::prices::{Prices, Rates};
use crate::scratch::Scratch;
use ih_tables::{Instance, PatientNo};
use std::alloc::{AllocError, Global};
use std::thread::{Threads, for_each_mut};

/// No more work side by side.
pub const MOST_WORKERS: u32 = 64;

/// One of those who work side by side. All that it writes on is its own, and is there before it begins.
#[derive(Drop)]
pub struct BoundWorker {
    scratch: Scratch,
    floors: Floors,
    /// What its persons ask for in a round.
    pub demand: Demand,
    // What they pay at least.
    sum: u64,
}

// At most what a person pays: patients have the first numbers.
fn least_of(
    inst: &Instance,
    rates: &Rates,
    prices: &Prices,
    floors: &Floors,
    person: u32,
    scratch: &mut Scratch,
    demand: &mut Demand,
) -> u64
    requires floors { AreFloors inst.now.draft rates.now floors.now.list.items }
    requires person { person < person_count inst.now.draft }
    ensures { BoundsPerson inst.now.draft rates.now (tariff_of inst.now.draft rates.now prices.now) person result }
{
    let patients = inst.patients();
    if person < patients {
        return least_of_patient(
            inst,
            rates,
            prices,
            floors,
            PatientNo(person),
            scratch,
            demand,
        );
    }
    least_of_occupant(inst, rates, prices, person - patients, scratch, demand)
}

impl BoundWorker {
    fn new(alloc: Global, inst: &Instance) -> Result<BoundWorker, AllocError>
        ensures { IfOk result (λ w. (rates : Rates) → HasFloors inst.now.draft rates w) }
    {
        Ok(BoundWorker {
            scratch: Scratch::new(alloc, inst)?,
            floors: Floors::new(alloc, inst)?,
            demand: Demand::new(alloc, inst)?,
            sum: 0,
        })
    }

    // At most what a person pays where it is dealt to the worker, and else 0.
    fn least_if_dealt(
        &mut self,
        inst: &Instance,
        rates: &Rates,
        prices: &Prices,
        person: u32,
        workers: usize,
        worker: usize,
    ) -> u64
        requires floors { HasFloors inst.now.draft rates.now self.old }
        requires worker { worker < workers }
        requires person { person < person_count inst.now.draft }
        ensures floors { self.new.floors ≡ self.old.floors }
        ensures least { (P : Timetable) → IsFeasible inst.now.draft P → result ≤ dealt_paid inst.now.draft rates.now
            (tariff_of inst.now.draft rates.now prices.now) P workers worker person }
    {
        if person as usize % workers != worker {
            return 0;
        }
        least_of(
            inst,
            rates,
            prices,
            &self.floors,
            person,
            &mut self.scratch,
            &mut self.demand,
        )
    }

    // Adds up what the persons who are dealt to a worker pay at least: those with its own number, and from there in
    // steps of as many as there are workers.
    fn sum_dealt(
        &mut self,
        inst: &Instance,
        rates: &Rates,
        prices: &Prices,
        workers: usize,
        worker: usize,
    )
        requires floors { HasFloors inst.now.draft rates.now self.old }
        requires worker { worker < workers }
        ensures floors { HasFloors inst.now.draft rates.now self.new }
        ensures least { BoundsDealt inst.now.draft rates.now
            (tariff_of inst.now.draft rates.now prices.now) workers worker
            self.new.sum }
    {
        self.demand.clear();
        let mut sum: u64 = 0;
        for x in 0..inst.patients() + inst.occupants() {
            let least = self.least_if_dealt(inst, rates, prices, x, workers, worker);
            sum = sum.saturating_add(least);
        }
        self.sum = sum;
    }
}

/// So many workers.
pub fn new_workers(
    alloc: Global,
    inst: &Instance,
    count: usize,
) -> Result<Vec<BoundWorker>, AllocError>
    ensures { IfOk result (λ v. (rates : Rates) → All (HasFloors inst.now.draft rates) v.items) }
{
    let mut workers = Vec::with_capacity(alloc, count)?;
    for _ in 0..count {
        workers.push_reserved(BoundWorker::new(alloc, inst)?);
    }
    Ok(workers)
}

// Lets each worker do its job, in a thread of its own where one can be started.
fn side_by_side<R: Threads + Sync, F: Fn(usize, &mut BoundWorker) + Sync>(
    rt: &R,
    workers: &mut [BoundWorker],
    job: &F,
)
    requires { AcceptsEach F.Fn job.now workers.old }
    ensures { ChangesEach F.Fn job.now workers.old workers.new }
{
    for_each_mut(rt, workers, MOST_WORKERS as usize, job);
}

/// Lets each worker find what care costs its patients at least, whatever the prices.
pub fn raise_floors<R: Threads + Sync>(
    rt: &R,
    inst: &Instance,
    rates: &Rates,
    free: &Prices,
    workers: &mut [BoundWorker],
)
    requires free { free.now.work.items ≡ [] }
    requires floors { All (HasFloors inst.now.draft rates.now) workers.old }
    ensures { All (HasFloors inst.now.draft rates.now) workers.new }
{
    let count = workers.len();
    side_by_side(
        rt,
        workers,
        &|worker, w|
            requires { (free.now.work.items ≡ []) × (worker < count) × HasFloors inst.now.draft rates.now w.now }
        {
            w.floors
                .raise(inst, rates, free, count, worker, &mut w.scratch)
        },
    );
}

/// Lets each worker look at the persons who are dealt to it.
pub fn sum_all<R: Threads + Sync>(
    rt: &R,
    inst: &Instance,
    rates: &Rates,
    prices: &Prices,
    workers: &mut [BoundWorker],
)
    requires { All (HasFloors inst.now.draft rates.now) workers.old }
    ensures count { length workers.new ≡ length workers.old }
    ensures floors { All (HasFloors inst.now.draft rates.now) workers.new }
    ensures least { (k : ℕ) (d : BoundWorker) → k < length workers.old → BoundsDealt inst.now.draft rates.now
        (tariff_of inst.now.draft rates.now prices.now) (length workers.old) k (slice_index_or workers.new k d).sum }
{
    let count = workers.len();
    side_by_side(
        rt,
        workers,
        &|worker, w|
            requires { (worker < count) × HasFloors inst.now.draft rates.now w.now }
        { w.sum_dealt(inst, rates, prices, count, worker) },
    );
}

/// What they found, added up.
pub fn sum_of(workers: &[BoundWorker]) -> u64
    ensures { (f : ℕ → ℕ)
        → ((k : ℕ) (d : BoundWorker) → k < length workers.now → (slice_index_or workers.now k d).sum ≤ f k)
        → result ≤ sum_below (length workers.now) f }
{
    let mut sum: u64 = 0;
    for w in workers {
        sum = sum.saturating_add(w.sum);
    }
    sum
}
