//! A timetable and its bill as JSON values.

ghost use Rattle.std.specs.Prelude.{◌≡◌, ◌<◌, ◌^◌, IfOk, length};
ghost use Rattle.serde_json.specs.View.{view};
ghost use Rattle.ih_tables.specs.{Bills.IsWithin, Sizes.room_count, Sizes.shift_count};
ghost use Rattle.ih_plan.specs.Timetable.{IsPlanOf, care_of, stay_of};
ghost use Rattle.ih_plan.specs.BillOf.{bill_of};
ghost use Rattle.ih_solution.specs.Solution.{list_data, number_data};
ghost use Rattle.ih_page.specs.TimetableData.{bill_data, care_data, place_data, room_data, stays_data};
ghost use Rattle.ih_values.specs.Values.{option_data};

use ih_plan::{Placement, Plan};
use ih_tables::{Bill, Instance, PatientNo, RoomNo, Shift};
use ih_validate::bill;
use ih_values::{Made, Object, list_value, listed_value};
use serde_json::Value;
use std::alloc::Global;

/// The day, the room and the theatre.
pub fn place_value(alloc: Global, place: Placement) -> Made
    ensures { IfOk result (λ v. view v ≡ place_data place) }
{
    list_value(alloc, &[place.day.0, place.room.0, place.theatre.0])
}

/// The stay of a patient, or null.
pub fn stay_value(alloc: Global, plan: &Plan, patient: PatientNo) -> Made
    requires { patient.0 < length plan.now.stays }
    ensures { IfOk result (λ v. view v ≡ option_data place_data (stay_of plan.now patient.0)) }
{
    match plan.stay(patient) {
        None => Ok(Value::Null),
        Some(place) => place_value(alloc, place),
    }
}

/// Every patient's stay, in number order.
pub fn stays_value(alloc: Global, inst: &Instance, plan: &Plan) -> Made
    requires { IsPlanOf inst.now.draft plan.now }
    ensures { IfOk result (λ v. view v ≡ list_data (stays_data inst.now.draft plan.now)) }
{
    listed_value(alloc, inst.patients(), |p| {
        let patient = PatientNo(p);
        stay_value(alloc, plan, patient)
    })
}

/// The number of the room's nurse in the shift, or null.
#[tactic(auto, using(ih_solution::proofs::ListedValues::place_steps))]
pub fn nurse_value(inst: &Instance, plan: &Plan, room: RoomNo, shift: Shift) -> Value
    requires plan { IsPlanOf inst.now.draft plan.now }
    requires room { room.0 < room_count inst.now.draft }
    requires shift { shift.0 < shift_count inst.now.draft }
    ensures { view result ≡ option_data number_data (care_of plan.now room.0 shift.0) }
{
    match plan.care(room, shift) {
        None => Value::Null,
        Some(nurse) => Value::from(nurse.0),
    }
}

// The room's nurses, shift by shift.
#[tactic(auto, unfolding(crate::specs::TimetableData::room_data))]
fn room_value(alloc: Global, inst: &Instance, plan: &Plan, room: RoomNo) -> Made
    requires plan { IsPlanOf inst.now.draft plan.now }
    requires room { room.0 < room_count inst.now.draft }
    ensures { IfOk result (λ v. view v ≡ room_data inst.now.draft plan.now room.0) }
{
    listed_value(alloc, inst.shifts(), |k| {
        let shift = Shift(k);
        Ok(nurse_value(inst, plan, room, shift))
    })
}

/// The nurses of every room, in number order.
pub fn care_value(alloc: Global, inst: &Instance, plan: &Plan) -> Made
    requires { IsPlanOf inst.now.draft plan.now }
    ensures { IfOk result (λ v. view v ≡ list_data (care_data inst.now.draft plan.now)) }
{
    listed_value(alloc, inst.rooms(), |r| {
        let room = RoomNo(r);
        room_value(alloc, inst, plan, room)
    })
}

// A bill and its cost.
#[tactic(auto, unfolding(crate::specs::TimetableData::bill_data))]
fn value_of(alloc: Global, inst: &Instance, bill: &Bill) -> Made
    requires { IsWithin (10 ^ 11) bill.now }
    ensures { IfOk result (λ v. view v ≡ bill_data inst.now.draft.weights bill.now) }
{
    Object::new(alloc)
        .show("cost", &bill.cost(inst.weights()))?
        .show_all("costs", bill.s.as_slice())?
        .show_all("rules", bill.v.as_slice())?
        .value()
}

/// The bill of a timetable.
pub fn bill_value(alloc: Global, inst: &Instance, plan: &Plan) -> Made
    requires { IsPlanOf inst.now.draft plan.now }
    ensures { IfOk result
        (λ v. view v ≡ bill_data inst.now.draft.weights (bill_of inst.now.draft plan.now)) }
{
    value_of(alloc, inst, &bill(inst, plan))
}
