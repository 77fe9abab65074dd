//! A timetable's solution file.

ghost use Rattle.std.specs.Prelude.{◌≡◌, IfOk, Ok};
ghost use Rattle.serde_json.specs.View.{view};
ghost use Rattle.ih_plan.specs.Timetable.{IsPlanOf};
ghost use Rattle.ih_solution.specs.{Reading.plan_in, Solution.solution, Solution.solution_data};

use crate::nurses::nurse_values;
use crate::patients::patient_values;
use ih_plan::Plan;
use ih_tables::Instance;
use serde_json::{Value, json};
use std::alloc::{AllocError, Global};

// The whole file as a JSON value.
#[tactic(auto, unfolding(crate::specs::Solution::solution_data))]
fn solution_value(alloc: Global, inst: &Instance, plan: &Plan) -> Result<Value, AllocError>
    requires { IsPlanOf inst.now.draft plan.now }
    ensures { IfOk result (λ v. view v ≡ solution_data inst.now.draft plan.now) }
{
    let nurses = nurse_values(alloc, inst, plan)?;
    let patients = patient_values(alloc, inst, plan)?;
    json!(in alloc; {"nurses": nurses, "patients": patients})
}

/// The solution file of a timetable of the instance: compact JSON with sorted keys and no line feed at its
/// end, which lists every patient and every nurse in number order. It reads back as the timetable.
#[tactic(auto, using(crate::proofs::WholeNumbers::whole_numbers))]
pub fn write_solution(alloc: Global, inst: &Instance, plan: &Plan) -> Result<Vec<u8>, AllocError>
    requires { IsPlanOf inst.now.draft plan.now }
    ensures written { IfOk result (λ v. v.items ≡ solution inst.now.draft plan.now) }
    ensures read_back { IfOk result (λ v. plan_in inst.now.draft v.items ≡ Ok plan.now) }
{
    solution_value(alloc, inst, plan)?.to_vec(alloc)
}
