//! When a mandatory patient can be admitted, by the occupants and the patient alone, and why not.

ghost use Rattle.std.specs.Prelude.{◌≡◌, ◌≤◌, ◌-◌, find, slice_index};
ghost use Rattle.std.specs.List.{list_all, list_any, range_with_len};
ghost use Rattle.ih_plan.specs.Costs.{surgeon_maximum};
ghost use Rattle.ih_plan.specs.Presence.{covers};
ghost use Rattle.ih_why.specs.Beds.{has_bed};
ghost use Rattle.ih_why.specs.Admissions.{first_reason, has_admission, has_place, has_room, has_surgeon};
ghost use Rattle.ih_why.specs.Admissions.{has_theatre, holds, is_due_early, is_free, is_needed, is_taken, may_begin};
ghost use Rattle.ih_why.specs.Admissions.{reason_of, rooms, suits, taken_day, window, window_end};

use crate::beds::has_bed;
use crate::reasons::Reason;
use ih_plan::end_from;
use ih_tables::{Day, Instance, Patient, RoomNo, SurgeonNo};
use ih_validate::is_incompatible;

/// The day after the last of the patient's window.
pub fn window_end(inst: &Instance, patient: &Patient) -> u32
    ensures value { result ≡ window_end inst.now.draft patient.now }
    ensures days { result ≤ inst.now.draft.days }
{
    match patient.surgery_due_day {
        Some(due) => (due as u64 + 1).min(inst.days() as u64) as u32,
        None => inst.days(),
    }
}

// Whether the room is none of those that are incompatible with the patient.
fn suits(patient: &Patient, room: RoomNo) -> bool
    ensures { result ≡ suits patient.now room.0 }
{
    !is_incompatible(patient, room)
}

// Whether a theatre is open for long enough on the day.
fn has_theatre(inst: &Instance, patient: &Patient, day: Day) -> bool
    ensures { result ≡ has_theatre inst.now.draft patient.now day.0 }
{
    inst.draft.operating_theaters.as_slice().iter().any(|t| patient.surgery_duration
        <= minutes_on(t.availability.as_slice(), day))
}

// The minutes of a day.
fn minutes_on(minutes: &[u32], day: Day) -> u32
    ensures { result ≡ slice_index minutes.now day.0 }
{
    minutes.get(day.0 as usize).copied().unwrap_or(0)
}

// The minutes that the surgeon may operate on the day.
fn surgeon_maximum(inst: &Instance, surgeon: SurgeonNo, day: Day) -> u32
    ensures { result ≡ surgeon_maximum inst.now.draft surgeon.0 day.0 }
{
    match inst.draft.surgeons.as_slice().get(surgeon.0 as usize) {
        Some(a) => minutes_on(a.max_surgery_time.as_slice(), day),
        None => 0,
    }
}

// Whether the surgeon has enough minutes on the day.
fn has_surgeon(inst: &Instance, patient: &Patient, day: Day) -> bool
    ensures { result ≡ has_surgeon inst.now.draft patient.now day.0 }
{
    patient.surgery_duration <= surgeon_maximum(inst, patient.surgeon_id, day)
}

// Whether the room has a bed on each day from one on and before another.
fn has_beds(inst: &Instance, room: RoomNo, gender: &str, first: u32, end: u32) -> bool
    ensures { result ≡ list_all (has_bed inst.now.draft room.0 gender.now) (range_with_len first (end - first)) }
{
    (first..end).all(|d| has_bed(inst, room, gender, Day(d)))
}

// Whether the room suits, and has a bed on each day of a stay that begins on this one.
fn is_free(inst: &Instance, patient: &Patient, day: Day, room: RoomNo) -> bool
    ensures { result ≡ is_free inst.now.draft patient.now day.0 room.0 }
{
    let end = end_from(inst, day.0, patient.length_of_stay);
    suits(patient, room) && has_beds(inst, room, patient.gender.as_str(), day.0, end)
}

// Whether there is such a room.
fn has_room(inst: &Instance, patient: &Patient, day: Day) -> bool
    ensures { result ≡ has_room inst.now.draft patient.now day.0 }
{
    (0..inst.rooms()).any(|r| is_free(inst, patient, day, RoomNo(r)))
}

// Whether there is all of this for a stay that begins on the day.
fn may_begin(inst: &Instance, patient: &Patient, day: Day) -> bool
    ensures { result ≡ may_begin inst.now.draft patient.now day.0 }
{
    has_theatre(inst, patient, day)
        && has_surgeon(inst, patient, day)
        && has_room(inst, patient, day)
}

// Whether the patient can be admitted on some day of the window.
fn has_admission(inst: &Instance, patient: &Patient) -> bool
    ensures { result ≡ has_admission inst.now.draft patient.now }
{
    let end = window_end(inst, patient);
    (patient.surgery_release_day..end).any(|d| may_begin(inst, patient, Day(d)))
}

// Whether the due day is before the release day.
fn is_due_early(patient: &Patient) -> bool
    ensures { result ≡ is_due_early patient.now }
{
    match patient.surgery_due_day {
        Some(due) => due < patient.surgery_release_day,
        None => false,
    }
}

// Whether some room suits.
fn some_room_suits(inst: &Instance, patient: &Patient) -> bool
    ensures { result ≡ list_any (suits patient.now) (rooms inst.now.draft) }
{
    (0..inst.rooms()).any(|r| suits(patient, RoomNo(r)))
}

// Whether a theatre is open for long enough on some day of the window.
fn some_theatre(inst: &Instance, patient: &Patient) -> bool
    ensures { result ≡ list_any (has_theatre inst.now.draft patient.now) (window inst.now.draft patient.now) }
{
    let end = window_end(inst, patient);
    (patient.surgery_release_day..end).any(|d| has_theatre(inst, patient, Day(d)))
}

// Whether the surgeon has enough minutes on some day of the window.
fn some_surgeon(inst: &Instance, patient: &Patient) -> bool
    ensures { result ≡ list_any (has_surgeon inst.now.draft patient.now) (window inst.now.draft patient.now) }
{
    let end = window_end(inst, patient);
    (patient.surgery_release_day..end).any(|d| has_surgeon(inst, patient, Day(d)))
}

// Whether there is a room for a stay that begins on some day of the window.
fn some_room(inst: &Instance, patient: &Patient) -> bool
    ensures { result ≡ list_any (has_room inst.now.draft patient.now) (window inst.now.draft patient.now) }
{
    let end = window_end(inst, patient);
    (patient.surgery_release_day..end).any(|d| has_room(inst, patient, Day(d)))
}

// Whether each stay that begins in the window has the day.
fn is_needed(inst: &Instance, patient: &Patient, day: Day) -> bool
    ensures { result ≡ is_needed inst.now.draft patient.now day.0 }
{
    let end = window_end(inst, patient);
    (patient.surgery_release_day..end).all(|a| covers(a, patient.length_of_stay, day))
}

// Whether a stay of so many days from a day on has this day.
fn covers(first: u32, len: u32, day: Day) -> bool
    ensures { result ≡ covers first len day.0 }
{
    first <= day.0 && (day.0 as u64) < first as u64 + len as u64
}

// Whether the room suits, and has a bed on the day.
fn has_place(inst: &Instance, patient: &Patient, day: Day, room: RoomNo) -> bool
    ensures { result ≡ has_place inst.now.draft patient.now day.0 room.0 }
{
    suits(patient, room) && has_bed(inst, room, patient.gender.as_str(), day)
}

// Whether there is such a room on the day.
fn some_place(inst: &Instance, patient: &Patient, day: Day) -> bool
    ensures { result ≡ list_any (has_place inst.now.draft patient.now day.0) (rooms inst.now.draft) }
{
    (0..inst.rooms()).any(|r| has_place(inst, patient, day, RoomNo(r)))
}

// Whether each room that suits is full, or has another gender in it, on the day.
fn is_taken(inst: &Instance, patient: &Patient, day: Day) -> bool
    ensures { result ≡ is_taken inst.now.draft patient.now day.0 }
{
    !some_place(inst, patient, day)
}

/// The first day that each stay has and on which the rooms are taken.
#[tactic(auto, unfolding(crate::specs::Admissions::taken_day))]
pub fn taken_day(inst: &Instance, patient: &Patient) -> Option<u32>
    ensures { result ≡ taken_day inst.now.draft patient.now }
{
    (0..inst.days()).find(|d| is_needed(inst, patient, Day(*d)) && is_taken(inst, patient, Day(*d)))
}

// Whether this is so of the patient.
fn holds(inst: &Instance, patient: &Patient, why: Reason) -> bool
    ensures { result ≡ holds inst.now.draft patient.now why }
{
    match why {
        Reason::DueEarly => is_due_early(patient),
        Reason::ReleasedLate => inst.days() <= patient.surgery_release_day,
        Reason::NoRoom => !some_room_suits(inst, patient),
        Reason::NoTheatre => !some_theatre(inst, patient),
        Reason::NoSurgeon => !some_surgeon(inst, patient),
        Reason::DayTaken => taken_day(inst, patient).is_some(),
        Reason::RoomsTaken => !some_room(inst, patient),
        Reason::NoDay => !has_admission(inst, patient),
    }
}

// The first of these reasons that holds of the patient.
fn first_of(inst: &Instance, patient: &Patient, reasons: &[Reason]) -> Option<Reason>
    ensures { result ≡ find (holds inst.now.draft patient.now) reasons.now }
{
    reasons
        .iter()
        .copied()
        .find(|why| holds(inst, patient, *why))
}

// The first of all reasons that holds of the patient.
#[tactic(auto, unfolding(crate::specs::Admissions::first_reason))]
fn first_reason(inst: &Instance, patient: &Patient) -> Option<Reason>
    ensures { result ≡ first_reason inst.now.draft patient.now }
{
    let reasons = [
        Reason::DueEarly,
        Reason::ReleasedLate,
        Reason::NoRoom,
        Reason::NoTheatre,
        Reason::NoSurgeon,
        Reason::DayTaken,
        Reason::RoomsTaken,
        Reason::NoDay,
    ];
    first_of(inst, patient, &reasons)
}

/// Why a patient who must be admitted can't be.
#[tactic(auto, unfolding(crate::specs::Admissions::reason_of))]
pub fn reason_of(inst: &Instance, patient: &Patient) -> Option<Reason>
    ensures { result ≡ reason_of inst.now.draft patient.now }
{
    if patient.mandatory {
        first_reason(inst, patient)
    } else {
        None
    }
}
