//! The nurses' rooms, shift by shift, as JSON values.

ghost use Rattle.std.specs.Prelude.{◌≡◌, ◌<◌, ◌==◌, IfOk, map, vec_len};
ghost use Rattle.serde_json.specs.View.{view};
ghost use Rattle.ih_tables.specs.Sizes.{nurse_count, room_count, shift_count};
ghost use Rattle.ih_plan.specs.{Timetable.IsPlanOf, Timetable.care_of, Costs.is_number, Costs.is_empty};
ghost use Rattle.ih_solution.specs.Solution.{rooms_of, rooms_data, assignment_data, assignments_data, nurse_data};
ghost use Rattle.ih_solution.specs.Solution.{nurses_data};

use crate::listed::listed_values;
use ih_plan::Plan;
use ih_tables::{Instance, NurseNo, RoomNo, Shift};
use serde_json::{Value, json};
use std::alloc::{AllocError, Global};

// Whether the nurse has the room in the shift.
#[tactic(auto, using(crate::proofs::ListedValues::place_steps))]
fn is_nurse_of(inst: &Instance, plan: &Plan, nurse: NurseNo, room: RoomNo, shift: Shift) -> bool
    requires plan { IsPlanOf inst.now.draft plan.now }
    requires room { room.0 < room_count inst.now.draft }
    requires shift { shift.0 < shift_count inst.now.draft }
    ensures { result ≡ is_number (care_of plan.now room.0 shift.0) nurse.0 }
{
    match plan.care(room, shift) {
        None => false,
        Some(m) => m.0 == nurse.0,
    }
}

// The ids of a nurse's rooms in a shift, rising by number.
#[tactic(auto, using(crate::proofs::ListedValues::chosen_steps), unfolding(crate::specs::Solution::rooms_of))]
fn room_values(
    alloc: Global,
    inst: &Instance,
    plan: &Plan,
    nurse: NurseNo,
    shift: Shift,
) -> Result<Vec<Value>, AllocError>
    requires plan { IsPlanOf inst.now.draft plan.now }
    requires shift { shift.0 < shift_count inst.now.draft }
    ensures ids { IfOk result (λ v. map view v.items ≡ rooms_data inst.now.draft plan.now nurse.0 shift.0) }
    ensures none { IfOk result (λ v. (vec_len v == 0) ≡ is_empty (rooms_of inst.now.draft plan.now nurse.0 shift.0)) }
{
    let mut values = Vec::new(alloc);
    for r in 0..inst.rooms() {
        let r = RoomNo(r);
        if is_nurse_of(inst, plan, nurse, r, shift) {
            let id = inst.room(r).id.as_str();
            values.push(Value::try_from_str(alloc, id)?)?;
        }
    }
    Ok(values)
}

// The day and the shift type of a shift, with a nurse's rooms.
fn assignment_value(
    alloc: Global,
    inst: &Instance,
    shift_no: Shift,
    rooms: Vec<Value>,
) -> Result<Value, AllocError>
    requires { shift_no.0 < shift_count inst.now.draft }
    ensures { IfOk result (λ v. view v ≡ assignment_data inst.now.draft shift_no.0 (map view rooms.items)) }
{
    let shift = inst.shift_type(shift_no.0 % 3).as_str();
    json!(in alloc; {"day": shift_no.0 / 3, "rooms": rooms, "shift": shift})
}

// A nurse's assignments: one for each shift in which the nurse has a room, rising.
#[tactic(auto, using(crate::proofs::ListedValues::chosen_steps), unfolding(crate::specs::Solution::shifts_with_rooms))]
fn assignment_values(
    alloc: Global,
    inst: &Instance,
    plan: &Plan,
    nurse: NurseNo,
) -> Result<Vec<Value>, AllocError>
    requires { IsPlanOf inst.now.draft plan.now }
    ensures { IfOk result (λ v. map view v.items ≡ assignments_data inst.now.draft plan.now nurse.0) }
{
    let mut values = Vec::new(alloc);
    for k in 0..inst.shifts() {
        let k = Shift(k);
        let rooms = room_values(alloc, inst, plan, nurse, k)?;
        if !rooms.is_empty() {
            values.push(assignment_value(alloc, inst, k, rooms)?)?;
        }
    }
    Ok(values)
}

// A nurse's id and assignments.
fn nurse_value(
    alloc: Global,
    inst: &Instance,
    plan: &Plan,
    nurse: NurseNo,
) -> Result<Value, AllocError>
    requires plan { IsPlanOf inst.now.draft plan.now }
    requires nurse { nurse.0 < nurse_count inst.now.draft }
    ensures { IfOk result (λ v. view v ≡ nurse_data inst.now.draft plan.now nurse.0) }
{
    let assignments = assignment_values(alloc, inst, plan, nurse)?;
    let id = inst.nurse(nurse).id.as_str();
    json!(in alloc; {"assignments": assignments, "id": id})
}

/// Every nurse, in number order.
pub fn nurse_values(alloc: Global, inst: &Instance, plan: &Plan) -> Result<Vec<Value>, AllocError>
    requires { IsPlanOf inst.now.draft plan.now }
    ensures { IfOk result (λ v. map view v.items ≡ nurses_data inst.now.draft plan.now) }
{
    listed_values(alloc, inst.nurses(), |n| {
        let nurse = NurseNo(n);
        nurse_value(alloc, inst, plan, nurse)
    })
}
