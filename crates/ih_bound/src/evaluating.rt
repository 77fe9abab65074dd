//! What the costs of each feasible timetable are worth at least, by prices.

ghost use Rattle.std.specs.Prelude.{◌≤◌, All};
ghost use Rattle.ih_plan.specs.Timetable.{Timetable};
ghost use Rattle.ih_bound.specs.Bounds.{IsFeasible};
ghost use Rattle.ih_bound.specs.Hints.{Shows};
ghost use Rattle.ih_bound.specs.Tariffs.{tariff_of, worth};
ghost use Rattle.ih_bound.specs.Dealing.{HasFloors};

use crate::dealing::{BoundWorker, sum_all, sum_of};
use crate::incomes::income;
use crate::prices::{Prices, Rates};
use ih_tables::Instance;
use std::thread::Threads;

/// At most what the costs of each feasible timetable are worth, whatever the prices. Each worker's demand is what its
/// persons together ask for.
pub fn evaluate<R: Threads + Sync>(
    rt: &R,
    inst: &Instance,
    rates: &Rates,
    prices: &Prices,
    workers: &mut [BoundWorker],
) -> u64
    requires { All (HasFloors inst.now.draft rates.now) workers.old }
    ensures floors { All (HasFloors inst.now.draft rates.now) workers.new }
    ensures shows { Shows inst.now.draft rates.now (tariff_of inst.now.draft rates.now prices.now) result }
    ensures least { (P : Timetable) → IsFeasible inst.now.draft P → result ≤ worth inst.now.draft rates.now P }
{
    sum_all(rt, inst, rates, prices, workers);
    let paid = sum_of(workers);
    paid.saturating_sub(income(inst, rates, prices))
}
