//! What surgery costs once an attempt is made.

ghost use Rattle.std.specs.Prelude.{◌<◌};
ghost use Rattle.ih_tables.specs.Sizes.{patient_count, room_count};
ghost use Rattle.ih_plan.specs.Series.{AreMoves};
ghost use Rattle.ih_proposals.specs.NewStays.{IsNewStay};

use crate::new_stays::NewStay;
use crate::room_days::{RoomDay, person_at};
use crate::situation::Situation;
use ih_moves::Chain;
use ih_plan::{Members, Move};
use ih_tables::{Instance, PatientNo, RoomNo};

// The minutes of surgery of others on the day of a stay.
#[derive(Clone, Copy)]
struct Work {
    // In its theatre.
    in_theatre: u32,
    // By the patient's surgeon, there and in other theatres.
    by_surgeon_there: u32,
    by_surgeon_elsewhere: u32,
}

// The work with another patient's surgery, where that is on the day.
fn with_surgery(inst: &Instance, before: Work, stay: NewStay, other: NewStay) -> Work
    requires stay { IsNewStay inst.now.draft stay }
    requires other { IsNewStay inst.now.draft other }
{
    let mut work = before;
    if other.patient.0 == stay.patient.0 || other.at.day.0 != stay.at.day.0 {
        return work;
    }
    let patient = inst.patient(other.patient);
    let minutes = patient.surgery_duration;
    let is_there = other.at.theatre.0 == stay.at.theatre.0;
    if is_there {
        work.in_theatre = work.in_theatre.saturating_add(minutes);
    }
    if patient.surgeon_id.0 == inst.patient(stay.patient).surgeon_id.0 {
        if is_there {
            work.by_surgeon_there = work.by_surgeon_there.saturating_add(minutes);
        } else {
            work.by_surgeon_elsewhere = work.by_surgeon_elsewhere.saturating_add(minutes);
        }
    }
    work
}

// The work with the surgeries of those in a room whom the attempt doesn't move.
fn with_room(
    here: &Situation<'_>,
    before: Work,
    stay: NewStay,
    room: RoomNo,
    attempt: &Chain,
) -> Work
    requires stay { IsNewStay here.now.inst.now.draft stay }
    requires room { room.0 < room_count here.now.inst.now.draft }
{
    let rooms = here.room_days();
    let there = RoomDay {
        room,
        day: stay.at.day,
    };
    let mut work = before;
    for i in 0..rooms.count(there.room, there.day) {
        let x = person_at(here.inst, rooms, there, i);
        if x.0 < here.inst.patients() && !attempt.moves_person(x) {
            let patient = PatientNo(x.0);
            if let Some(at) = here.stay(patient) {
                work = with_surgery(here.inst, work, stay, NewStay { patient, at });
            }
        }
    }
    work
}

// The work of others on the day of a stay once the attempt is made. Patients whom it brings to another room aren't
// counted.
fn work_then(here: &Situation<'_>, stay: NewStay, attempt: &Chain) -> Work
    requires stay { IsNewStay here.now.inst.now.draft stay }
    requires moves { AreMoves here.now.inst.now.draft attempt.now }
{
    let mut work = Work {
        in_theatre: 0,
        by_surgeon_there: 0,
        by_surgeon_elsewhere: 0,
    };
    for r in 0..here.inst.rooms() {
        work = with_room(here, work, stay, RoomNo(r), attempt);
    }
    for i in 0..attempt.len() {
        if let Move::Place(patient, at) = attempt.at(here.inst, i) {
            work = with_surgery(here.inst, work, stay, NewStay { patient, at });
        }
    }
    work
}

// The minutes of a day, by a list with those of each day: none past the last one.
fn minutes_of_day(days: &[u32], day: u32) -> u32 {
    match days.get(day as usize) {
        Some(minutes) => *minutes,
        None => 0,
    }
}

/// What the surgery of a stay adds to the score once the attempt is made, which doesn't give the patient a stay yet: the
/// minutes above what the theatre and the surgeon have, a theatre opened, and a surgeon's change of theatre.
pub fn surgery_then(here: &Situation<'_>, stay: NewStay, attempt: &Chain) -> i64
    requires stay { IsNewStay here.now.inst.now.draft stay }
    requires moves { AreMoves here.now.inst.now.draft attempt.now }
{
    let inst = here.inst;
    let weights = inst.weights().w;
    let work = work_then(here, stay, attempt);
    let patient = inst.patient(stay.patient);
    let theatre = inst.theatre(stay.at.theatre);
    let surgeon = inst.surgeon(patient.surgeon_id);
    let of_theatre = minutes_of_day(theatre.availability.as_slice(), stay.at.day.0);
    let of_surgeon = minutes_of_day(surgeon.max_surgery_time.as_slice(), stay.at.day.0);
    let by_surgeon = work
        .by_surgeon_there
        .saturating_add(work.by_surgeon_elsewhere);
    let above = minutes_above(work.in_theatre, patient.surgery_duration, of_theatre).saturating_add(
        minutes_above(by_surgeon, patient.surgery_duration, of_surgeon),
    );
    let mut score = i64::from(here.hard).saturating_mul(i64::from(above));
    if work.in_theatre == 0 {
        score = score.saturating_add(weights[4]);
    }
    if work.by_surgeon_there == 0 && work.by_surgeon_elsewhere > 0 {
        score = score.saturating_add(weights[5]);
    }
    score
}

// By so many minutes a surgery more is above the most.
fn minutes_above(others: u32, own: u32, most: u32) -> u32 {
    others.saturating_add(own).saturating_sub(most)
}
