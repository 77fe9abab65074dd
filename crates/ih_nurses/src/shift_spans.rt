//! The counted shifts of a stay, in its room.

ghost use Rattle.std.specs.Prelude.{◌≡◌, ◌<◌, ◌≤◌, ◌-◌, ◌*◌, Some, IfSome, option_map};
ghost use Rattle.ih_tables.specs.Sizes.{patient_count, person_count};
ghost use Rattle.ih_plan.specs.{Timetable.IsPlanOf, Timetable.IsPlacement, Persons.person_of, Presence.admission_of};
ghost use Rattle.ih_plan.specs.{Presence.placed_at};
ghost use Rattle.ih_nurses.specs.ShiftSpans.{shift_span_in, IsShiftSpan};

use ih_plan::{Placement, Plan, counted_shifts};
use ih_tables::{Instance, PatientNo, RoomNo};

/// Shifts of a room, one after the other.
#[derive(Clone, Copy, Drop)]
pub struct ShiftSpan {
    pub room: RoomNo,
    /// The first shift.
    pub from: u32,
    /// How many shifts.
    pub len: u32,
}

/// The counted shifts of a patient's placement.
#[tactic(auto, unfolding(ih_plan::specs::Persons::person_of))]
pub fn placed_shift_span(inst: &Instance, patient: PatientNo, at: Placement) -> ShiftSpan
    requires patient { patient.0 < patient_count inst.now.draft }
    requires placement { IsPlacement inst.now.draft at }
    ensures shift_span { Some result
        ≡ shift_span_in inst.now.draft (Some (placed_at at)) (person_of inst.now.draft patient.0).length_of_stay }
    ensures inside { IsShiftSpan inst.now.draft result }
{
    let a = inst.patient(patient);
    ShiftSpan {
        room: at.room,
        from: 3 * at.day.0,
        len: counted_shifts(inst, at.day.0, a.length_of_stay),
    }
}

/// The counted shifts of a patient's stay, where there is one.
#[tactic(auto, unfolding(ih_plan::specs::Persons::person_of))]
pub fn stay_shift_span(
    inst: &Instance,
    patient: PatientNo,
    stay: Option<Placement>,
) -> Option<ShiftSpan>
    requires patient { patient.0 < patient_count inst.now.draft }
    requires stay { IfSome stay (IsPlacement inst.now.draft) }
    ensures shift_span { result
        ≡ shift_span_in inst.now.draft (option_map placed_at stay) (person_of inst.now.draft patient.0).length_of_stay }
    ensures inside { IfSome result (IsShiftSpan inst.now.draft) }
{
    match stay {
        None => None,
        Some(at) => Some(placed_shift_span(inst, patient, at)),
    }
}

// The counted shifts of an occupant.
#[tactic(auto, unfolding(ih_plan::specs::Persons::person_of, ih_plan::specs::Presence::admission_of))]
fn occupant_shift_span(inst: &Instance, plan: &Plan, person: u32) -> Option<ShiftSpan>
    requires occupant { patient_count inst.now.draft ≤ person }
    requires person { person < person_count inst.now.draft }
    ensures shift_span { result
        ≡ shift_span_in inst.now.draft (admission_of inst.now.draft plan.now person)
        (person_of inst.now.draft person).length_of_stay }
    ensures inside { IfSome result (IsShiftSpan inst.now.draft) }
{
    let o = inst.occupant(person - inst.patients());
    Some(ShiftSpan {
        room: o.room_id,
        from: 0,
        len: counted_shifts(inst, 0, o.length_of_stay),
    })
}

/// The counted shifts of a person's stay, and none where the person isn't admitted.
pub fn shift_span_of(inst: &Instance, plan: &Plan, person: u32) -> Option<ShiftSpan>
    requires plan { IsPlanOf inst.now.draft plan.now }
    requires person { person < person_count inst.now.draft }
    ensures shift_span { result
        ≡ shift_span_in inst.now.draft (admission_of inst.now.draft plan.now person)
        (person_of inst.now.draft person).length_of_stay }
    ensures inside { IfSome result (IsShiftSpan inst.now.draft) }
{
    if person < inst.patients() {
        stay_shift_span(inst, PatientNo(person), plan.stay(PatientNo(person)))
    } else {
        occupant_shift_span(inst, plan, person)
    }
}
