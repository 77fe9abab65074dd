//! What a patient's stay makes of the bill of a room on a day, without the change being made.

ghost use Rattle.std.specs.Prelude.{◌≡◌, ◌<◌, ◌+◌, ◌&&◌, true, ℕ, List, length, option_map};
ghost use Rattle.ih_tables.specs.Sizes.{patient_count, person_count, room_count};
ghost use Rattle.ih_plan.specs.Presence.{is_in, placed_at, covers};
ghost use Rattle.ih_plan.specs.Persons.{person_of};
ghost use Rattle.ih_links.specs.Lists.{without, with_if};
ghost use Rattle.ih_roomdays.specs.RoomLists.{AreRoomLists, persons_at, is_at};
ghost use Rattle.ih_roomdays.specs.Profiles.{AreProfiles, ArePersons, profile_of};
ghost use Rattle.ih_roomdays.specs.{declared.profiles.Profiles.Profiles, Occupancy.IsOccupancy, Occupancy.IsSmall};
ghost use Rattle.ih_roomdays.specs.{Parts.room_counts};

use crate::bills::RoomDayCounts;
use crate::occupancies::Occupancy;
use crate::profiles::Profile;
use crate::room_lists::RoomLists;
use ih_plan::Placement;
use ih_tables::{Day, Instance, PatientNo, RoomNo};

// A stay of `length` days from day `from` on has the day.
fn covers(from: u32, length: u32, day: u32) -> bool
    ensures { result ≡ covers from length day }
{
    from <= day && (day as u64) < from as u64 + length as u64
}

/// The patient, with this stay, is in the room on the day.
pub fn is_there(
    inst: &Instance,
    patient: PatientNo,
    stay: Option<Placement>,
    room: RoomNo,
    day: Day,
) -> bool
    requires { patient.0 < patient_count inst.now.draft }
    ensures { result ≡ is_in (option_map placed_at stay)
        (person_of inst.now.draft patient.0).length_of_stay room.0 day.0 }
{
    match stay {
        None => false,
        Some(at) => at.room.0 == room.0
            && covers(at.day.0, inst.patient(patient).length_of_stay, day.0),
    }
}

/// What persons with this summary break and cost in a room.
pub fn room_counts(inst: &Instance, room: RoomNo, occupancy: Occupancy) -> RoomDayCounts
    requires room { room.0 < room_count inst.now.draft }
    requires small { IsSmall occupancy }
    ensures { (p : Profiles) (xs : List ℕ) → AreProfiles inst.now.draft p → ArePersons inst.now.draft xs
        → IsOccupancy p xs occupancy → result ≡ room_counts inst.now.draft room.0 xs }
{
    RoomDayCounts {
        mixed: occupancy.is_mixed(),
        over: occupancy.count.saturating_sub(inst.room(room).capacity),
        spread: occupancy.spread(),
    }
}

// The summary of the persons in a room on a day other than `person`, who is there or not.
fn others(
    rows: &RoomLists,
    room: RoomNo,
    day: Day,
    person: u32,
    who: Profile,
    there: bool,
) -> Occupancy
    requires rows { AreRoomLists rows.now }
    requires room { room.0 < rows.now.rooms }
    requires day { day.0 < rows.now.days }
    requires profile { who ≡ profile_of rows.now.profiles person }
    requires there { there ≡ is_at rows.now room.0 day.0 person }
    ensures { IsOccupancy rows.now.profiles (without person (persons_at rows.now room.0 day.0)) result }
{
    let crowd = rows.crowds[(room.0 * rows.days + day.0) as usize];
    if there {
        crowd.without(who)
    } else {
        crowd.occupancy
    }
}

/// What the room's day breaks and costs without the patient, and with the patient there, who `was` there or not.
pub fn without_and_with(
    inst: &Instance,
    rows: &RoomLists,
    room: RoomNo,
    day: Day,
    patient: PatientNo,
    was: bool,
) -> (RoomDayCounts, RoomDayCounts)
    requires rows { AreRoomLists rows.now }
    requires profiles { AreProfiles inst.now.draft rows.now.profiles }
    requires rooms { rows.now.rooms ≡ room_count inst.now.draft }
    requires persons { rows.now.persons ≡ person_count inst.now.draft }
    requires room { room.0 < room_count inst.now.draft }
    requires day { day.0 < rows.now.days }
    requires patient { patient.0 < patient_count inst.now.draft }
    requires was { was ≡ is_at rows.now room.0 day.0 patient.0 }
    ensures without { result.0 ≡ room_counts inst.now.draft room.0
        (without patient.0 (persons_at rows.now room.0 day.0)) }
    ensures with { result.1
        ≡ room_counts inst.now.draft room.0
        (with_if true patient.0 (without patient.0 (persons_at rows.now room.0 day.0))) }
{
    let who = rows.profiles.of(patient.0);
    let rest = others(rows, room, day, patient.0, who, was);
    (
        room_counts(inst, room, rest),
        room_counts(inst, room, rest.with(who)),
    )
}
