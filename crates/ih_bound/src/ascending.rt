//! The best value of all rounds.

ghost use Rattle.std.specs.Prelude.{◌≤◌, All, IfOk};
ghost use Rattle.ih_plan.specs.Timetable.{Timetable};
ghost use Rattle.ih_bound.specs.Bounds.{IsFeasible};
ghost use Rattle.ih_bound.specs.Hints.{Shows};
ghost use Rattle.ih_bound.specs.Tariffs.{tariff_of, worth};
ghost use Rattle.ih_bound.specs.Dealing.{HasFloors};

use crate::climbing::{Climb, Effort};
use crate::dealing::{BoundWorker, new_workers, raise_floors};
use crate::demand::Spent;
use crate::evaluating::evaluate;
use crate::prices::{Prices, Rates};
use ih_tables::Instance;
use std::alloc::{AllocError, Global};
use std::thread::Threads;

/// The best that was found, in parts.
#[derive(Drop)]
pub struct Ascent {
    pub value: u64,
    /// The prices that show it.
    pub prices: Prices,
    /// How often prices were tried.
    pub rounds: u32,
    /// What the choices of the last rounds are worth on average.
    pub spent: Spent,
}

/// At most what the costs of each feasible timetable are worth: the best value of all rounds.
pub fn ascend<R: Threads + Sync>(
    rt: &R,
    alloc: Global,
    inst: &Instance,
    rates: &Rates,
    effort: Effort,
    workers: usize,
) -> Result<Ascent, AllocError>
    ensures value { IfOk result (λ a. (P : Timetable) → IsFeasible inst.now.draft P
        → a.value ≤ worth inst.now.draft rates.now P) }
    ensures shows { IfOk result (λ a. Shows inst.now.draft rates.now
        (tariff_of inst.now.draft rates.now a.prices) a.value) }
    ensures rounds { IfOk result (λ a. a.rounds ≤ effort.rounds) }
{
    let mut workers = new_workers(alloc, inst, workers)?;
    ascend_by(rt, alloc, inst, rates, effort, workers.as_mut_slice())
}

// A lower bound of what each feasible timetable is worth: the best value of all rounds of these workers.
fn ascend_by<R: Threads + Sync>(
    rt: &R,
    alloc: Global,
    inst: &Instance,
    rates: &Rates,
    effort: Effort,
    workers: &mut [BoundWorker],
) -> Result<Ascent, AllocError>
    requires { All (HasFloors inst.now.draft rates.now) workers.old }
    ensures value { IfOk result (λ a. (P : Timetable) → IsFeasible inst.now.draft P
        → a.value ≤ worth inst.now.draft rates.now P) }
    ensures shows { IfOk result (λ a. Shows inst.now.draft rates.now
        (tariff_of inst.now.draft rates.now a.prices) a.value) }
    ensures rounds { IfOk result (λ a. a.rounds ≤ effort.rounds) }
{
    raise_floors(rt, inst, rates, &Prices::free(alloc), workers);
    let mut climb = Climb::new(alloc, inst, rates, effort.plain)?;
    let mut rounds = 0;
    for round in 0..effort.rounds {
        let value = evaluate(rt, inst, rates, &climb.prices, workers);
        rounds = round + 1;
        if !climb.go_on(inst, rates, &effort, round, value, workers) {
            break;
        }
    }
    // Once more at the best prices, so that the value is what just these show.
    Ok(Ascent {
        value: evaluate(rt, inst, rates, &climb.best_prices, workers),
        rounds,
        spent: climb.spent,
        prices: climb.best_prices,
    })
}
