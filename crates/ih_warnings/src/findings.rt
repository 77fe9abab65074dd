//! Which things have a slip.

ghost use Rattle.std.specs.Prelude.{◌≡◌, ◌<◌};
ghost use Rattle.ih_tables.specs.Sizes.{room_count, surgeon_count};
ghost use Rattle.ih_warnings.specs.Slips.{are_zero, count_of, has_occupant, has_patient, has_slip, is_early};
ghost use Rattle.ih_warnings.specs.Slips.{is_idle, is_useless, name_of, some_room_suits, suits, suits_some};
ghost use Rattle.ih_warnings.specs.Spellings.{has_like, is_repeated, is_respelt};

use crate::slips::Slip;
use crate::spellings::are_alike;
use crate::things::name_of;
use ih_tables::{Instance, NurseNo, Patient, PatientNo, RoomNo, SurgeonNo, TheatreNo};
use ih_validate::is_incompatible;

// Whether there are no minutes on any day.
fn are_zero(minutes: &[u32]) -> bool
    ensures { result ≡ are_zero minutes.now }
{
    minutes.iter().all(|m| *m == 0)
}

// Whether the room is none of those that are incompatible with the patient.
fn suits(patient: &Patient, room: RoomNo) -> bool
    ensures { result ≡ suits patient.now room.0 }
{
    !is_incompatible(patient, room)
}

// Whether some room suits the patient.
fn some_room_suits(inst: &Instance, patient: &Patient) -> bool
    ensures { result ≡ some_room_suits inst.now.draft patient.now }
{
    (0..inst.rooms()).any(|r| suits(patient, RoomNo(r)))
}

// Whether the room suits some patient.
fn suits_some(inst: &Instance, room: RoomNo) -> bool
    ensures { result ≡ suits_some inst.now.draft room.0 }
{
    inst.draft
        .patients
        .as_slice()
        .iter()
        .any(|p| suits(p, room))
}

// Whether the due day is before the release day.
fn is_early(patient: &Patient) -> bool
    ensures { result ≡ is_early patient.now }
{
    match patient.surgery_due_day {
        Some(due) => due < patient.surgery_release_day,
        None => false,
    }
}

// Whether a patient has the surgeon.
fn has_patient(inst: &Instance, surgeon: SurgeonNo) -> bool
    ensures { result ≡ has_patient inst.now.draft surgeon.0 }
{
    inst.draft
        .patients
        .as_slice()
        .iter()
        .any(|p| p.surgeon_id.0 == surgeon.0)
}

// Whether an occupant is in the room.
fn has_occupant(inst: &Instance, room: RoomNo) -> bool
    ensures { result ≡ has_occupant inst.now.draft room.0 }
{
    inst.draft
        .occupants
        .as_slice()
        .iter()
        .any(|o| o.room_id.0 == room.0)
}

// Whether the surgeon has a patient, and no minutes on any day.
fn is_idle(inst: &Instance, surgeon: SurgeonNo) -> bool
    requires { surgeon.0 < surgeon_count inst.now.draft }
    ensures { result ≡ is_idle inst.now.draft surgeon.0 }
{
    has_patient(inst, surgeon) && are_zero(inst.surgeon(surgeon).max_surgery_time.as_slice())
}

// Whether the room has no occupant, and has no bed or suits no patient.
fn is_useless(inst: &Instance, room: RoomNo) -> bool
    requires { room.0 < room_count inst.now.draft }
    ensures { result ≡ is_useless inst.now.draft room.0 }
{
    !has_occupant(inst, room) && (inst.room(room).capacity == 0 || !suits_some(inst, room))
}

// Whether an earlier thing has the very name of this one.
fn is_repeated(inst: &Instance, slip: Slip, index: u32) -> bool
    requires { index < count_of inst.now.draft slip }
    ensures { result ≡ is_repeated (name_of inst.now.draft slip) index }
{
    let name = name_of(inst, slip, index);
    (0..index).any(|j| name_of(inst, slip, j) == name)
}

// Whether an earlier thing has a name that is alike.
fn has_like(inst: &Instance, slip: Slip, index: u32) -> bool
    requires { index < count_of inst.now.draft slip }
    ensures { result ≡ has_like (name_of inst.now.draft slip) index }
{
    let name = name_of(inst, slip, index).as_bytes();
    (0..index).any(|j| are_alike(name_of(inst, slip, j).as_bytes(), name))
}

// Whether the name of an earlier thing differs from this one's by case or spaces alone, and none has this very name.
fn is_respelt(inst: &Instance, slip: Slip, index: u32) -> bool
    requires { index < count_of inst.now.draft slip }
    ensures { result ≡ is_respelt (name_of inst.now.draft slip) index }
{
    !is_repeated(inst, slip, index) && has_like(inst, slip, index)
}

/// Whether a thing has the slip.
pub fn has_slip(inst: &Instance, slip: Slip, index: u32) -> bool
    requires { index < count_of inst.now.draft slip }
    ensures { result ≡ has_slip inst.now.draft slip index }
{
    match slip {
        Slip::RespeltAgeGroup => is_respelt(inst, Slip::RespeltAgeGroup, index),
        Slip::RespeltGender => is_respelt(inst, Slip::RespeltGender, index),
        Slip::NoWeight => inst.weights().w[index as usize] == 0,
        Slip::IdleSurgeon => is_idle(inst, SurgeonNo(index)),
        Slip::ShutTheatre => are_zero(inst.theatre(TheatreNo(index)).availability.as_slice()),
        Slip::UselessRoom => is_useless(inst, RoomNo(index)),
        Slip::IdleNurse => inst
            .nurse(NurseNo(index))
            .working_shifts
            .as_slice()
            .is_empty(),
        Slip::RoomlessPatient => !some_room_suits(inst, inst.patient(PatientNo(index))),
        Slip::EarlyPatient => is_early(inst.patient(PatientNo(index))),
    }
}
