//! Whether a patient's stay, or the nurse of a room, differs between two timetables.

ghost use Rattle.std.specs.Prelude.{◌≡◌, ◌<◌, option_map};
ghost use Rattle.ih_tables.specs.declared.ids.NurseNo.{NurseNo};
ghost use Rattle.ih_tables.specs.Sizes.{patient_count, room_count, shift_count};
ghost use Rattle.ih_plan.specs.Timetable.{IsPlanOf};
ghost use Rattle.ih_changes.specs.Changes.{has_another, is_changed, is_occupied, is_same_nurse, is_same_stay};

use ih_plan::{Placement, Plan, is_present, nurse_at};
use ih_tables::{Instance, NurseNo, PatientNo, RoomNo, Shift};

// Whether the day, the room and the theatre are the same, or the patient is left out both times.
fn is_same_stay(was: Option<Placement>, is: Option<Placement>) -> bool
    ensures { result ≡ is_same_stay was is }
{
    match (was, is) {
        (None, None) => true,
        (Some(a), Some(b)) => {
            a.day.0 == b.day.0 && (a.room.0 == b.room.0 && a.theatre.0 == b.theatre.0)
        }
        _ => false,
    }
}

/// Whether the patient has another day, room or theatre than in the older timetable, or is admitted in one of them alone.
pub fn is_changed(inst: &Instance, older: &Plan, plan: &Plan, patient: PatientNo) -> bool
    requires older { IsPlanOf inst.now.draft older.now }
    requires plan { IsPlanOf inst.now.draft plan.now }
    requires patient { patient.0 < patient_count inst.now.draft }
    ensures { result ≡ is_changed older.now plan.now patient.0 }
{
    !is_same_stay(older.stay(patient), plan.stay(patient))
}

// Whether the nurse is the same, or there is none both times.
fn is_same_nurse(was: Option<NurseNo>, is: Option<NurseNo>) -> bool
    ensures { result ≡ is_same_nurse (option_map (λ (n : NurseNo). n.0) was) (option_map (λ (n : NurseNo). n.0) is) }
{
    match (was, is) {
        (None, None) => true,
        (Some(m), Some(n)) => m.0 == n.0,
        _ => false,
    }
}

/// Whether the room has another nurse in the shift than in the older timetable, occupied or not.
pub fn has_another(inst: &Instance, older: &Plan, plan: &Plan, room: RoomNo, shift: Shift) -> bool
    requires older { IsPlanOf inst.now.draft older.now }
    requires plan { IsPlanOf inst.now.draft plan.now }
    requires room { room.0 < room_count inst.now.draft }
    requires shift { shift.0 < shift_count inst.now.draft }
    ensures { result ≡ has_another older.now plan.now room.0 shift.0 }
{
    let was = nurse_at(inst, older, room, shift);
    let is = nurse_at(inst, plan, room, shift);
    !is_same_nurse(was, is)
}

/// Whether somebody is in the room on the day. It looks through all persons.
pub fn is_occupied(inst: &Instance, plan: &Plan, room: RoomNo, day: u32) -> bool
    requires { IsPlanOf inst.now.draft plan.now }
    ensures { result ≡ is_occupied inst.now.draft plan.now room.0 day }
{
    for person in 0..inst.persons() {
        if is_present(inst, plan, room, day, person) {
            return true;
        }
    }
    false
}
