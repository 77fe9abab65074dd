//! Who waits, as JSON values: the patients whom a timetable leaves out, each with the cheapest admission.

ghost use Rattle.std.specs.Prelude.{◌≡◌, ◌<◌, ◌^◌, IfOk};
ghost use Rattle.serde_json.specs.View.{view};
ghost use Rattle.ih_tables.specs.{Bills.IsWithin, Sizes.patient_count};
ghost use Rattle.ih_plan.specs.Timetable.{IsPlanOf};
ghost use Rattle.ih_solution.specs.Solution.{list_data};
ghost use Rattle.ih_waiting.specs.ScorerUse.{IsForAdmissions};
ghost use Rattle.ih_page.specs.Waits.{admission_data, could_data, wait_data, waits_data};

use crate::timetables::place_value;
use ih_fill::Scorer;
use ih_plan::{MAX_HARD, Placement, Plan};
use ih_tables::{Bill, Instance, PatientNo};
use ih_values::{Array, Made, Object, numbered_value};
use ih_waiting::{broken_more, change_by, cheapest_admission};
use serde_json::Value;
use std::alloc::Global;

// Where an admission puts a patient, and what it changes.
#[tactic(auto, unfolding(crate::specs::Waits::admission_data))]
fn admission_value(alloc: Global, inst: &Instance, place: Placement, change: &Bill) -> Made
    requires { IsWithin (10 ^ 11) change.now }
    ensures { IfOk result (λ v. view v ≡ admission_data inst.now.draft place change.now) }
{
    Object::new(alloc)
        .put("broken", Ok(Value::from(broken_more(change))))?
        .put("cost", Ok(Value::from(change.cost(inst.weights()))))?
        .put("place", place_value(alloc, place))?
        .value()
}

// The cheapest admission of a patient, or null.
fn could_value(alloc: Global, inst: &Instance, scorer: &Scorer<'_>, patient: PatientNo) -> Made
    requires scorer { IsForAdmissions inst.now.draft scorer.now }
    requires patient { patient.0 < patient_count inst.now.draft }
    ensures { IfOk result (λ v. view v ≡ could_data inst.now.draft scorer.now.plan patient.0) }
{
    match cheapest_admission(inst, scorer, patient) {
        None => Ok(Value::Null),
        Some(place) => {
            let change = change_by(inst, scorer, patient, place);
            admission_value(alloc, inst, place, &change)
        }
    }
}

// A patient's number and cheapest admission.
#[tactic(auto, unfolding(crate::specs::Waits::wait_data))]
fn wait_value(alloc: Global, inst: &Instance, scorer: &Scorer<'_>, patient: PatientNo) -> Made
    requires scorer { IsForAdmissions inst.now.draft scorer.now }
    requires patient { patient.0 < patient_count inst.now.draft }
    ensures { IfOk result (λ v. view v ≡ wait_data inst.now.draft scorer.now.plan patient.0) }
{
    numbered_value(alloc, patient.0, could_value(alloc, inst, scorer, patient))
}

// Those who wait in the scorer's timetable.
#[tactic(auto, using(ih_solution::proofs::ListedValues::chosen_steps))]
fn waits_value_by(alloc: Global, inst: &Instance, scorer: &Scorer<'_>) -> Made
    requires { IsForAdmissions inst.now.draft scorer.now }
    ensures { IfOk result (λ v. view v ≡ list_data (waits_data inst.now.draft scorer.now.plan)) }
{
    let mut values = Array::new(alloc);
    for p in 0..inst.patients() {
        if scorer.plan().stay(PatientNo(p)).is_none() {
            values = values.add(wait_value(alloc, inst, scorer, PatientNo(p)))?;
        }
    }
    values.value()
}

/// The patients whom the timetable leaves out, in number order, each with the cheapest admission.
pub fn waits_value(alloc: Global, inst: &Instance, plan: &Plan) -> Made
    requires { IsPlanOf inst.now.draft plan.now }
    ensures { IfOk result (λ v. view v ≡ list_data (waits_data inst.now.draft plan.now)) }
{
    let scorer = Scorer::new(alloc, inst, MAX_HARD, true, plan)?;
    waits_value_by(alloc, inst, &scorer)
}
