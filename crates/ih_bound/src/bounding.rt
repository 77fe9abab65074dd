//! The bound of an instance.

ghost use Rattle.std.specs.Prelude.{◌≡◌, ◌≤◌, ◌+◌, ◌*◌, ◌<◌, IfOk, IfSome};
ghost use Rattle.ih_plan.specs.Timetable.{Timetable};
ghost use Rattle.ih_bound.specs.Bounds.{IsFeasible, NoneIsFeasible, HoldsOfAll, AddUp, IsFoundIn};
ghost use Rattle.ih_bound.specs.Hints.{HasPrices};
ghost use Rattle.ih_bound.specs.Tariffs.{worth};
ghost use Rattle.std.specs.Int.{div_ceil};

use crate::ascending::{Ascent, ascend};
use crate::climbing::Effort;
use crate::demand::Spent;
use crate::outcomes::{Bound, Outcome, Parts, Priced};
use crate::people::window_end;
use crate::prices::{Prices, Rates};
use crate::scarcity::Scarcity;
use ih_tables::{Instance, PatientNo, Shift};
use std::alloc::{AllocError, Global};
use std::thread::Threads;

// Rounds in which feasibility alone is asked for.
const ROUNDS_WITHOUT_WEIGHTS: u32 = 400;

const PARTS: u64 = 4096;

// How many nurses may be looked at, so that the greatest instances take some minutes.
const MOST_LOOKS: u64 = 1 << 32;

// How prices rise where only feasibility is asked for.
fn without_weights() -> Effort {
    Effort {
        rounds: ROUNDS_WITHOUT_WEIGHTS,
        plain: u32::MAX,
        target: 1,
        stop_above_0: true,
    }
}

// How they rise in so many rounds towards a bound.
fn with_weights(inst: &Instance, rates: &Rates, rounds: u32) -> Effort
    ensures { result.rounds ≡ rounds }
{
    let patients = inst.patients() as u64;
    Effort {
        rounds,
        plain: (rounds / 3).min(200),
        target: (rates.left_out / 4)
            .saturating_mul(patients)
            .saturating_add(1000 * PARTS),
        stop_above_0: false,
    }
}

// How many nurses work all shifts together.
fn rostered(inst: &Instance) -> u64 {
    let mut sum: u64 = 0;
    for k in 0..inst.shifts() {
        sum = sum.saturating_add(inst.working(Shift(k)).len() as u64);
    }
    sum
}

// How many days all patients stay: by one stay each, and by all stays that they may have.
fn days_of_stays(inst: &Instance) -> (u64, u64) {
    let mut one: u64 = 0;
    let mut all: u64 = 0;
    for p in 0..inst.patients() {
        let q = inst.patient(PatientNo(p));
        let stay = q.length_of_stay.min(inst.days()) as u64;
        let window = window_end(inst, PatientNo(p)).saturating_sub(q.surgery_release_day);
        one = one.saturating_add(stay);
        all = all.saturating_add(stay.saturating_mul(window as u64));
    }
    (one, all)
}

// As many rounds as may be made, and no more than so many.
fn rounds_within(inst: &Instance, rounds: u32) -> u32
    ensures { result ≤ rounds }
{
    let a_day = rostered(inst) / (inst.days() as u64).max(1);
    let (one, all) = days_of_stays(inst);
    let left = MOST_LOOKS.saturating_sub(all.saturating_mul(a_day));
    let most = left / one.saturating_mul(a_day).max(1);
    most.max(1).min(rounds as u64) as u32
}

// Where a value comes from.
fn parts_of(value: u64, spent: &Spent) -> Parts
    ensures { result.delay + result.left_out + result.theatres + result.nurses ≡ value }
{
    let delay = (spent.delay / PARTS).min(value);
    let left_out = (spent.left_out / PARTS).min(value - delay);
    let theatres = (spent.theatres / PARTS).min(value - delay - left_out);
    Parts {
        delay,
        left_out,
        theatres,
        nurses: value - delay - left_out - theatres,
    }
}

// The best of all rounds in units of the cost, rounded up.
fn in_units(best: &Ascent) -> Bound
    ensures value { result.value * 4096 ≤ best.now.value + 4095 }
    ensures rounded { result.value ≡ div_ceil best.now.value 4096 }
    ensures rounds { result.rounds ≡ best.now.rounds }
    ensures parts { result.parts.delay + result.parts.left_out + result.parts.theatres + result.parts.nurses
        ≡ result.value }
{
    let value = best.value.div_ceil(PARTS);
    Bound {
        value,
        rounds: best.rounds,
        parts: parts_of(value, &best.spent),
    }
}

/// Whether what all persons need is worth more, at some prices, than all that there is: then no timetable of an
/// instance is feasible, and those prices tell what may be scarce. Persons are dealt to so many workers, one at least.
pub fn refute<R: Threads + Sync>(
    rt: &R,
    alloc: Global,
    inst: &Instance,
    workers: u32,
) -> Result<Option<Scarcity>, AllocError>
    requires few { workers ≤ 64 }
    ensures { IfOk result (λ r. IfSome r (λ _. NoneIsFeasible inst.now.draft)) }
{
    let workers = workers.max(1) as usize;
    let none = ascend(rt, alloc, inst, &Rates::none(), without_weights(), workers)?;
    if none.value == 0 {
        return Ok(None);
    }
    Ok(Some(Scarcity {
        prices: none.prices,
    }))
}

/// What no feasible timetable of an instance costs less than, with prices that show it, or that there is none: the best
/// that prices in so many rounds show, or in fewer where a round is dear. Persons are dealt to so many workers, one at
/// least.
pub fn bound_with_prices<R: Threads + Sync>(
    rt: &R,
    alloc: Global,
    inst: &Instance,
    rounds: u32,
    workers: u32,
) -> Result<Priced, AllocError>
    requires few { workers ≤ 64 }
    ensures holds { IfOk result (λ f. HoldsOfAll inst.now.draft f.outcome) }
    ensures parts { IfOk result (λ f. AddUp f.outcome) }
    ensures rounds { IfOk result (λ f. IsFoundIn rounds f.outcome) }
    ensures prices { IfOk result (λ f. HasPrices inst.now.draft f f.outcome) }
{
    let rates = Rates::weights(inst);
    if refute(rt, alloc, inst, workers)?.is_some() {
        return Ok(Priced {
            outcome: Outcome::Infeasible,
            rates,
            prices: Prices::free(alloc),
            shown: 0,
        });
    }
    let workers = workers.max(1) as usize;
    let effort = with_weights(inst, &rates, rounds_within(inst, rounds));
    let best = ascend(rt, alloc, inst, &rates, effort, workers)?;
    Ok(Priced {
        outcome: Outcome::AtLeast(in_units(&best)),
        rates,
        shown: best.value,
        prices: best.prices,
    })
}

/// The same without the prices.
pub fn bound<R: Threads + Sync>(
    rt: &R,
    alloc: Global,
    inst: &Instance,
    rounds: u32,
    workers: u32,
) -> Result<Outcome, AllocError>
    requires few { workers ≤ 64 }
    ensures holds { IfOk result (HoldsOfAll inst.now.draft) }
    ensures parts { IfOk result AddUp }
    ensures rounds { IfOk result (IsFoundIn rounds) }
{
    let found = bound_with_prices(rt, alloc, inst, rounds, workers)?;
    Ok(found.outcome)
}
