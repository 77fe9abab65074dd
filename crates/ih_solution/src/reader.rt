//! The timetable of a solution file. Patients are read before nurses, each item whole before the next, and the first
//! check that fails is the refusal.

mod assigned;
mod lists;
mod nurses;
mod patients;
mod references;
mod rows;

ghost use Rattle.std.specs.Prelude.{IfOk};
ghost use Rattle.serde_json.specs.View.{view};
ghost use Rattle.ih_plan.specs.Timetable.{IsPlanOf};
ghost use Rattle.ih_format.specs.Gives.{Gives};
ghost use Rattle.ih_solution.specs.Reading.{listed_plan, plan_in};

use ih_format::{FormatError, documents, json_values};
use ih_plan::Plan;
use ih_tables::{Instance, Place};
use serde_json::Value;
use std::alloc::Global;

// The timetable that a value gives.
#[tactic(auto, unfolding(crate::specs::Reading::listed_plan))]
fn listed_plan(
    alloc: Global,
    inst: &Instance,
    value: &Value,
    at: Place,
) -> Result<Plan, FormatError>
    ensures plan { IfOk result (IsPlanOf inst.now.draft) }
    ensures gives { Gives (λ p. p) result (listed_plan inst.now.draft at (view value.now)) }
{
    let _ = json_values::object(value, at)?;
    let plan = patients::stays(alloc, inst, value, at)?;
    nurses::cares(alloc, inst, plan, value, at)
}

/// The timetable of a solution file, or its first refusal: bytes that aren't one JSON value are NotJson at `$`; a key
/// that isn't there is Missing; another kind is Kind; a number or a text outside its limits is Range; an id that the
/// instance hasn't is Unknown, and one that an earlier item has is Duplicate; a room and shift that an earlier nurse
/// has is TwoNurses. Memory may run out at any time; a list that is longer than places count is refused so too.
pub fn read_solution(alloc: Global, inst: &Instance, bytes: &[u8]) -> Result<Plan, FormatError>
    ensures plan { IfOk result (IsPlanOf inst.now.draft) }
    ensures gives { Gives (λ p. p) result (plan_in inst.now.draft bytes.now) }
{
    let value = documents::value_of(alloc, bytes)?;
    listed_plan(alloc, inst, &value, Place::whole())
}
