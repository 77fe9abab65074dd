//! What a search of files starts from: the timetable that they give, or its greedy fill.

ghost use Rattle.std.specs.Prelude.{◌≡◌, ◌<◌, ◌≤◌, IfOk};
ghost use Rattle.ih_plan.specs.Timetable.{IsPlanOf};
ghost use Rattle.ih_fill.specs.Starts.{started};

use crate::filling::par_fill;
use ih_inputs::Inputs;
use ih_plan::Plan;
use ih_shelf::OpenGate;
use ih_tables::Instance;
use std::alloc::{AllocError, Global};
use std::sync::Wait;
use std::thread::Threads;

/// What a search works on.
#[derive(Drop)]
pub struct SearchStart {
    pub inst: Box<Instance>,
    /// The timetable that the search starts from.
    pub start: Plan,
}

/// What a search of these inputs works on: it starts from their timetable, or from its greedy fill. `hard` is the
/// weight of a broken hard rule in a score, `workers` how many fill side by side.
pub fn search_start<R: Threads + Wait + Sync>(
    rt: &R,
    alloc: Global,
    inputs: Inputs,
    is_filled: bool,
    hard: u32,
    workers: u32,
) -> Result<SearchStart, AllocError>
    requires plan { IsPlanOf inputs.inst.value.draft inputs.plan }
    requires hard { hard ≤ 1000000 }
    requires some { 0 < workers }
    requires few { workers ≤ 64 }
    ensures instance { IfOk result (λ b. b.inst.value.draft ≡ inputs.inst.value.draft) }
    ensures start { IfOk result (λ b. b.start ≡ started is_filled hard inputs.inst.value.draft inputs.plan) }
    ensures plan { IfOk result (λ b. IsPlanOf b.inst.value.draft b.start) }
{
    let Inputs { inst, plan, .. } = inputs;
    if !is_filled {
        return Ok(SearchStart { inst, start: plan });
    }
    let start = par_fill(rt, alloc, &*inst, hard, &plan, workers, &OpenGate)?;
    Ok(SearchStart { inst, start })
}
