//! The fill, choice by choice: of the first choices the workers look for the cheapest candidate.

ghost use Rattle.std.specs.Prelude.{◌≡◌, ◌<◌, ◌≤◌, false, length, All, IfOk};
ghost use Rattle.ih_plan.specs.Timetable.{IsPlanOf};
ghost use Rattle.ih_fill.specs.{Choices.IsChoiceOf, Fill.fill, Fill.with_choice, Fill.with_choices};

use crate::joining::{deal, lowest};
use crate::scans::Found;
use ih_fill::{Choice, Scorer, fill, fill_choices, is_open, make_choice};
use ih_plan::Plan;
use ih_shelf::Gate;
use ih_tables::Instance;
use std::alloc::{AllocError, Global};
use std::sync::Wait;
use std::thread::Threads;

// Only choices with numbers below this are dealt. To start the threads costs more than to price a whole choice, and a
// share has no short way over rooms and theatres, so the others the caller makes alone.
const DEALT: usize = 32;

// Makes a choice, where it is open: the workers look for the cheapest of its candidates.
fn make_dealt<R: Threads + Wait + Sync, G: Gate>(
    rt: &R,
    inst: &Instance,
    scorer: &mut Scorer<'_>,
    choice: Choice,
    choice_no: u32,
    found: &mut [Option<Found>],
    gate: &G,
)
    requires instance { scorer.old.instance ≡ inst.now.draft }
    requires counts { scorer.old.counts_uncovered ≡ false }
    requires inside { IsChoiceOf inst.now.draft choice }
    requires some { 0 < length found.old }
    requires few { length found.old ≤ 64 }
    ensures made { scorer.new
        ≡ record scorer.old { plan = with_choice inst.now.draft scorer.old.hard scorer.old.plan choice } }
    ensures len { length found.new ≡ length found.old }
{
    if is_open(scorer, choice) {
        deal(rt, inst, scorer, choice, choice_no, found, gate);
        if let Some(best) = lowest(found) {
            scorer.put(&best.candidate.write);
        }
    }
}

// Makes each of the choices in turn: the workers the first ones, the caller the rest.
fn make_all<R: Threads + Wait + Sync, G: Gate>(
    rt: &R,
    inst: &Instance,
    scorer: &mut Scorer<'_>,
    choices: &[Choice],
    found: &mut [Option<Found>],
    gate: &G,
)
    requires instance { scorer.old.instance ≡ inst.now.draft }
    requires counts { scorer.old.counts_uncovered ≡ false }
    requires inside { All (IsChoiceOf inst.now.draft) choices.now }
    requires some { 0 < length found.old }
    requires few { length found.old ≤ 64 }
    ensures { scorer.new
        ≡ record scorer.old { plan = with_choices inst.now.draft scorer.old.hard scorer.old.plan choices.now } }
{
    for at in 0..choices.len() {
        if at < DEALT {
            make_dealt(rt, inst, scorer, choices[at], at as u32, found, gate);
        } else {
            make_choice(inst, scorer, choices[at]);
        }
    }
}

/// The timetable after the greedy fill of `ih_fill`, whatever the number of workers, from 1 to 64: of each of the first
/// choices each worker prices its share of the candidates, and passes the gate before and after with the choice's
/// number; the rest the caller makes alone. One worker fills alone and passes no gate, and where a room needs no nurse
/// there is no choice.
pub fn par_fill<R: Threads + Wait + Sync, G: Gate>(
    rt: &R,
    alloc: Global,
    inst: &Instance,
    hard: u32,
    plan: &Plan,
    workers: u32,
    gate: &G,
) -> Result<Plan, AllocError>
    requires hard { hard ≤ 1000000 }
    requires plan { IsPlanOf inst.now.draft plan.now }
    requires some { 0 < workers }
    requires few { workers ≤ 64 }
    ensures filled { IfOk result (λ filled. filled ≡ fill inst.now.draft hard plan.now) }
    ensures fits { IfOk result (λ filled. IsPlanOf inst.now.draft filled) }
{
    if workers == 1 {
        return fill(alloc, inst, hard, plan);
    }
    let mut scorer = Scorer::new(alloc, inst, hard, false, plan)?;
    let choices = fill_choices(alloc, inst, plan)?;
    let mut found = [None; 64];
    make_all(
        rt,
        inst,
        &mut scorer,
        choices.as_slice(),
        &mut found[..workers as usize],
        gate,
    );
    scorer.plan().try_clone(alloc)
}
