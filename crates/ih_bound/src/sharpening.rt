//! Fewer prices that still show that no timetable is feasible: what isn't needed for it becomes free. Nothing rests on
//! it.

ghost use Rattle.std.specs.Prelude.{◌≤◌, All};
ghost use Rattle.ih_bound.specs.Dealing.{HasFloors};

use crate::dealing::{BoundWorker, new_workers};
use crate::evaluating::evaluate;
use crate::prices::{Prices, Rates};
use crate::scarcity::{Scarcity, Worths};
use ih_tables::Instance;
use std::alloc::{AllocError, Global};
use std::thread::Threads;

// No more are tried, so that it takes no longer than to find the prices.
const MOST_TRIES: u32 = 400;

/// Makes free what isn't needed to show that no timetable is feasible, one thing on one day after the other, the
/// cheapest first. What is dear is told better then. Persons are dealt to so many workers, one at least.
pub fn sharpen<R: Threads + Sync>(
    rt: &R,
    alloc: Global,
    inst: &Instance,
    scarcity: &mut Scarcity,
    workers: u32,
) -> Result<(), AllocError>
    requires few { workers ≤ 64 }
{
    let rates = Rates::none();
    let mut workers = new_workers(alloc, inst, workers.max(1) as usize)?;
    let mut worths = Worths::new(alloc, inst)?;
    worths.fill(inst, &scarcity.prices);
    free_all(
        rt,
        inst,
        &rates,
        &mut scarcity.prices,
        &mut worths,
        workers.as_mut_slice(),
    );
    Ok(())
}

// Makes free what isn't needed.
fn free_all<R: Threads + Sync>(
    rt: &R,
    inst: &Instance,
    rates: &Rates,
    prices: &mut Prices,
    worths: &mut Worths,
    workers: &mut [BoundWorker],
)
    requires { All (HasFloors inst.now.draft rates.now) workers.old }
{
    for tried in 0..MOST_TRIES {
        let spot = worths.cheapest();
        if spot.worth == 0 {
            break;
        }
        worths.set(spot.row, spot.day, 0);
        let thing = worths.thing(spot.row);
        let old = prices.price_of(inst, thing, spot.day);
        prices.set_price(inst, thing, spot.day, 0);
        if evaluate(rt, inst, rates, prices, workers) == 0 {
            prices.set_price(inst, thing, spot.day, old);
        }
    }
}
