//! The first of the stays that a patient may get.

ghost use Rattle.std.specs.Prelude.{◌≡◌, ◌<◌, Some, IfSome, option_map, slice_get};
ghost use Rattle.ih_tables.specs.Sizes.{room_count};
ghost use Rattle.ih_plan.specs.Timetable.{IsPlacement};
ghost use Rattle.ih_fill.specs.Candidates.{rooms_for, stay_writes};
ghost use Rattle.ih_waiting.specs.Admissions.{admit};

use ih_moves::window_len;
use ih_plan::Placement;
use ih_tables::{Day, Instance, Patient, PatientNo, RoomNo, TheatreNo};
use ih_validate::is_incompatible;

// The first room that suits, where there is one.
fn first_room(inst: &Instance, patient: &Patient) -> Option<RoomNo>
    ensures first { slice_get (rooms_for patient.now (room_count inst.now.draft)) 0 ≡ option_map (λ r. r.0) result }
    ensures inside { IfSome result (λ r. r.0 < room_count inst.now.draft) }
{
    for r in 0..inst.rooms() {
        let room = RoomNo(r);
        let suits = !is_incompatible(patient, room);
        if suits {
            return Some(room);
        }
    }
    None
}

/// Where the first stay puts the patient: on the release day, to the first room that suits and the first theatre. None
/// where the patient may get no stay.
pub fn first_stay(inst: &Instance, patient_no: PatientNo, patient: &Patient) -> Option<Placement>
    requires { slice_get inst.now.draft.patients patient_no.0 ≡ Some patient.now }
    ensures first { slice_get (stay_writes inst.now.draft patient_no.0) 0 ≡ option_map (admit patient_no.0) result }
    ensures inside { IfSome result (λ place. IsPlacement inst.now.draft place) }
{
    if window_len(inst, patient) == 0 || inst.theatres() == 0 {
        return None;
    }
    match first_room(inst, patient) {
        None => None,
        Some(room) => Some(Placement {
            day: Day(patient.surgery_release_day),
            room,
            theatre: TheatreNo(0),
        }),
    }
}
