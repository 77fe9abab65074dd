//! Whether a room has a bed for a patient, beside those who are there when an attempt is made.

ghost use Rattle.std.specs.Prelude.{◌<◌, IfSome};
ghost use Rattle.ih_tables.specs.Sizes.{patient_count};
ghost use Rattle.ih_plan.specs.{Timetable.IsPlacement, Expand.IsMoveOf, Series.AreMoves};
ghost use Rattle.ih_proposals.specs.RoomDays.{IsRoomDay};

use crate::room_days::{RoomDay, person_at};
use crate::situation::Situation;
use ih_moves::Chain;
use ih_plan::{Members, Move, Placement, end_of};
use ih_tables::{Day, Instance, PatientNo, PersonNo, RoomNo};
use ih_validate::is_incompatible;

// Whether a placement of the patient has the room on the day.
fn is_there(inst: &Instance, patient: PatientNo, at: Placement, there: RoomDay) -> bool
    requires patient { patient.0 < patient_count inst.now.draft }
    requires placement { IsPlacement inst.now.draft at }
{
    at.room == there.room && at.day.0 <= there.day.0 && there.day.0 < end_of(inst, patient, at)
}

// The patient whom a move brings to the room on the day, where it does.
fn brought(inst: &Instance, mv: Move, there: RoomDay) -> Option<PatientNo>
    requires { IsMoveOf inst.now.draft mv }
    ensures { IfSome result (λ p. p.0 < patient_count inst.now.draft) }
{
    match mv {
        Move::Place(p, at) => {
            if is_there(inst, p, at, there) {
                Some(p)
            } else {
                None
            }
        }
        _ => None,
    }
}

// How many beds of so many are left beside the patients whom the attempt brings to the room on the day; none where one
// of them has another gender than the patient.
fn beds_beside(
    here: &Situation<'_>,
    patient: PatientNo,
    there: RoomDay,
    attempt: &Chain,
    beds: u32,
) -> u32
    requires patient { patient.0 < patient_count here.now.inst.now.draft }
    requires moves { AreMoves here.now.inst.now.draft attempt.now }
{
    let rooms = here.room_days();
    let mut left = beds;
    for i in 0..attempt.len() {
        if let Some(other) = brought(here.inst, attempt.at(here.inst, i), there) {
            if left == 0 || !rooms.same_gender(PersonNo(patient.0), PersonNo(other.0)) {
                return 0;
            }
            left -= 1;
        }
    }
    left
}

// Whether the patient's stay has the room.
fn has_room(here: &Situation<'_>, patient: PatientNo, room: RoomNo) -> bool
    requires { patient.0 < patient_count here.now.inst.now.draft }
{
    match here.stay(patient) {
        None => false,
        Some(at) => at.room == room,
    }
}

// Whether the move is of a patient whose stay has the room.
fn is_from(here: &Situation<'_>, mv: Move, room: RoomNo) -> bool
    requires { IsMoveOf here.now.inst.now.draft mv }
{
    match mv {
        Move::Place(p, _) | Move::Withdraw(p) | Move::SetRoom(p, _) => has_room(here, p, room),
        _ => false,
    }
}

// So many of those in the room may be gone at most once the attempt is made: those whom it moves, and the patient.
fn most_gone(here: &Situation<'_>, patient: PatientNo, room: RoomNo, attempt: &Chain) -> u32
    requires patient { patient.0 < patient_count here.now.inst.now.draft }
    requires moves { AreMoves here.now.inst.now.draft attempt.now }
{
    let mut gone: u32 = 0;
    if has_room(here, patient, room) {
        gone = 1;
    }
    for i in 0..attempt.len() {
        if is_from(here, attempt.at(here.inst, i), room) {
            gone = gone.saturating_add(1);
        }
    }
    gone
}

// Whether the room has a bed for the patient on the day once the attempt is made, which moves the patient too or
// doesn't yet: those who are there have the patient's gender. So many of those may be gone then. That is looked at
// first, since most rooms are full.
fn has_bed(
    here: &Situation<'_>,
    patient: PatientNo,
    there: RoomDay,
    attempt: &Chain,
    gone: u32,
) -> bool
    requires patient { patient.0 < patient_count here.now.inst.now.draft }
    requires there { IsRoomDay here.now.inst.now.draft there }
    requires moves { AreMoves here.now.inst.now.draft attempt.now }
{
    let rooms = here.room_days();
    let mut beds = here.inst.room(there.room).capacity;
    let count = rooms.count(there.room, there.day);
    if beds.saturating_add(gone) <= count {
        return false;
    }
    for i in 0..count {
        let x = person_at(here.inst, rooms, there, i);
        if x.0 != patient.0 && !attempt.moves_person(x) {
            if beds == 0 || !rooms.same_gender(PersonNo(patient.0), x) {
                return false;
            }
            beds -= 1;
        }
    }
    beds_beside(here, patient, there, attempt, beds) > 0
}

/// Whether the placement's room suits the patient and has a bed for the patient on each of its days once the attempt is
/// made, which doesn't place the patient yet.
pub fn fits(here: &Situation<'_>, patient: PatientNo, at: Placement, attempt: &Chain) -> bool
    requires patient { patient.0 < patient_count here.now.inst.now.draft }
    requires placement { IsPlacement here.now.inst.now.draft at }
    requires moves { AreMoves here.now.inst.now.draft attempt.now }
{
    if is_incompatible(here.inst.patient(patient), at.room) {
        return false;
    }
    let gone = most_gone(here, patient, at.room, attempt);
    for d in at.day.0..end_of(here.inst, patient, at) {
        let there = RoomDay {
            room: at.room,
            day: Day(d),
        };
        if !has_bed(here, patient, there, attempt, gone) {
            return false;
        }
    }
    true
}
