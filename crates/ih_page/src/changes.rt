//! What changed since an older timetable, as JSON values.

ghost use Rattle.std.specs.Prelude.{◌≡◌, ◌<◌, IfOk};
ghost use Rattle.serde_json.specs.View.{view};
ghost use Rattle.ih_tables.specs.Sizes.{patient_count, room_count, shift_count};
ghost use Rattle.ih_plan.specs.Timetable.{IsPlanOf};
ghost use Rattle.ih_solution.specs.Solution.{list_data};
ghost use Rattle.ih_page.specs.Changes.{changes_data, patients_data, room_data, rooms_data};

use crate::timetables::{bill_value, nurse_value, stay_value};
use ih_changes::{has_another, is_changed};
use ih_plan::Plan;
use ih_tables::{Instance, PatientNo, RoomNo, Shift};
use ih_values::{Array, Made, Object, listed_value, numbered_value};
use std::alloc::Global;

/// Two timetables of an instance.
#[derive(Drop)]
pub struct Compared<'a> {
    pub inst: &'a Instance,
    pub plan: &'a Plan,
    pub older: &'a Plan,
    pub ghost plan_fits: { IsPlanOf inst.now.draft plan.now },
    pub ghost older_fits: { IsPlanOf inst.now.draft older.now },
}

// The patients whose stays differ, with their older stays.
#[tactic(auto, using(ih_solution::proofs::ListedValues::chosen_steps))]
fn patients_value(alloc: Global, both: &Compared<'_>) -> Made
    ensures { IfOk result (λ v. view v
        ≡ list_data (patients_data both.now.inst.now.draft both.now.older.now both.now.plan.now)) }
{
    let mut values = Array::new(alloc);
    for p in 0..both.inst.patients() {
        if is_changed(both.inst, both.older, both.plan, PatientNo(p)) {
            let was = stay_value(alloc, both.older, PatientNo(p));
            values = values.add(numbered_value(alloc, p, was))?;
        }
    }
    values.value()
}

// The shifts in which the room has another nurse, with the older one.
#[tactic(auto, using(ih_solution::proofs::ListedValues::chosen_steps), unfolding(crate::specs::Changes::room_data))]
fn room_value(alloc: Global, both: &Compared<'_>, room: RoomNo) -> Made
    requires { room.0 < room_count both.now.inst.now.draft }
    ensures { IfOk result
        (λ v. view v ≡ room_data both.now.inst.now.draft both.now.older.now both.now.plan.now room.0) }
{
    let mut values = Array::new(alloc);
    for k in 0..both.inst.shifts() {
        if has_another(both.inst, both.older, both.plan, room, Shift(k)) {
            let was = nurse_value(both.inst, both.older, room, Shift(k));
            values = values.add(numbered_value(alloc, k, Ok(was)))?;
        }
    }
    values.value()
}

// For every room, the shifts in which it has another nurse, with the older one.
fn rooms_value(alloc: Global, both: &Compared<'_>) -> Made
    ensures { IfOk result (λ v. view v
        ≡ list_data (rooms_data both.now.inst.now.draft both.now.older.now both.now.plan.now)) }
{
    listed_value(alloc, both.inst.rooms(), |r| {
        let room = RoomNo(r);
        room_value(alloc, both, room)
    })
}

/// All that changed, with the older bill.
#[tactic(auto, unfolding(crate::specs::Changes::changes_data))]
pub fn changes_value(alloc: Global, both: &Compared<'_>) -> Made
    ensures { IfOk result
        (λ v. view v ≡ changes_data both.now.inst.now.draft both.now.plan.now both.now.older.now) }
{
    Object::new(alloc)
        .put("bill", bill_value(alloc, both.inst, both.older))?
        .put("patients", patients_value(alloc, both))?
        .put("shifts", rooms_value(alloc, both))?
        .value()
}
