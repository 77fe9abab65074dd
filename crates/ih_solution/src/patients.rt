//! The stays of the patients as JSON values.

ghost use Rattle.std.specs.Prelude.{◌≡◌, ◌<◌, Option, IfOk, IfSome, map};
ghost use Rattle.serde_json.specs.View.{view};
ghost use Rattle.ih_tables.specs.Sizes.{patient_count};
ghost use Rattle.ih_plan.specs.Timetable.{IsPlanOf, IsPlacement};
ghost use Rattle.ih_solution.specs.Solution.{stay_data, patients_data};

use ih_plan::{Placement, Plan};
use ih_tables::{Instance, PatientNo};
use serde_json::{Value, json};
use std::alloc::{AllocError, Global};

// A patient's id, with the day, the theatre and the room of the stay, or `none` for the day.
fn stay_value(
    alloc: Global,
    inst: &Instance,
    patient: PatientNo,
    stay: Option<Placement>,
) -> Result<Value, AllocError>
    requires patient { patient.0 < patient_count inst.now.draft }
    requires placed { IfSome stay (IsPlacement inst.now.draft) }
    ensures { IfOk result (λ v. view v ≡ stay_data inst.now.draft patient.0 stay) }
{
    let id = inst.patient(patient).id.as_str();
    match stay {
        None => json!(in alloc; {"admission_day": "none", "id": id}),
        Some(at) => {
            let theatre = inst.theatre(at.theatre).id.as_str();
            let room = inst.room(at.room).id.as_str();
            json!(in alloc; {
                "admission_day": at.day.0,
                "id": id,
                "operating_theater": theatre,
                "room": room,
            })
        }
    }
}

/// Every patient, in number order.
#[tactic(auto, using(crate::proofs::ListedValues::listed_steps))]
pub fn patient_values(alloc: Global, inst: &Instance, plan: &Plan) -> Result<Vec<Value>, AllocError>
    requires { IsPlanOf inst.now.draft plan.now }
    ensures { IfOk result (λ v. map view v.items ≡ patients_data inst.now.draft plan.now) }
{
    let mut values = Vec::new(alloc);
    for p in 0..inst.patients() {
        let p = PatientNo(p);
        values.push(stay_value(alloc, inst, p, plan.stay(p))?)?;
    }
    Ok(values)
}
