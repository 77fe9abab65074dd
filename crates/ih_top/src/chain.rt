//! What a search by chains of moves makes to be written and said.

ghost use Rattle.std.specs.Prelude.{◌≡◌, ◌<◌, ◌^◌, IfOk, IfSome, length};
ghost use Rattle.ih_top.specs.Below.Wards.{IsPlanOf};
ghost use Rattle.ih_top.specs.Below.Searches.{chain_journal};
ghost use Rattle.ih_top.specs.Outputs.{IsBestOfRun};

use crate::output::{BestOutput, Output, found_text};
use ih_chain::ChainRun;
use ih_solution::write_solution;
use ih_tables::Instance;
use std::alloc::{AllocError, Global};

// The solution and the report of the best of a run, where it has one.
fn best_of_run(
    alloc: Global,
    inst: &Instance,
    run: &ChainRun,
) -> Result<Option<BestOutput>, AllocError>
    requires plan { IfSome run.now.plan (IsPlanOf inst.now.draft) }
    requires few { length run.now.entries < 2 ^ 31 }
    ensures { IfOk result (IsBestOfRun inst.now.draft run.now.best run.now.plan (length run.now.entries)) }
{
    let Some((place, _)) = run.best() else {
        return Ok(None);
    };
    let Some(plan) = run.best_plan(alloc)? else {
        return Ok(None);
    };
    let entries = run.entries().len() as u32;
    Ok(Some(BestOutput {
        solution: write_solution(alloc, inst, &plan)?,
        text: found_text(alloc, inst, &plan, place, entries)?,
    }))
}

/// The journal of a run, and the solution and the report of its best.
pub fn output_of_run(alloc: Global, inst: &Instance, run: &ChainRun) -> Result<Output, AllocError>
    requires plan { IfSome run.now.plan (IsPlanOf inst.now.draft) }
    requires few { length run.now.entries < 2 ^ 31 }
    ensures journal { IfOk result
        (λ o. o.journal.items ≡ chain_journal run.now.options run.now.each run.now.entries) }
    ensures best { IfOk result
        (λ o. IsBestOfRun inst.now.draft run.now.best run.now.plan (length run.now.entries) o.best) }
{
    let journal = run.text(alloc)?;
    let best = best_of_run(alloc, inst, run)?;
    Ok(Output { journal, best })
}
