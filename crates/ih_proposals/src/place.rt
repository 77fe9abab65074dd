//! A patient in a room that fits, and in the theatre that is cheapest there.

ghost use Rattle.std.specs.Prelude.{◌<◌, IfSome};
ghost use Rattle.ih_tables.specs.Sizes.{patient_count, room_count, theatre_count};
ghost use Rattle.ih_plan.specs.{Timetable.IsPlacement, Expand.IsMoveOf, Series.AreMoves};

use crate::fitting::Fitting;
use crate::situation::{Situation, is_small};
use crate::stays::{draw_day, draw_patient};
use crate::theatres::cheapest_surgery;
use crate::words::RandomWords;
use ih_moves::Chain;
use ih_plan::{Move, Placement};
use ih_tables::{Day, Instance, PatientNo, RoomNo};

/// A placement, and what its surgery adds to the score.
#[derive(Clone, Copy)]
pub struct PricedPlace {
    pub at: Placement,
    pub surgery_cost: i64,
}

// Whether the patient may stay out, and that would be cheaper than surgery at this cost. On large wards that isn't asked.
fn is_better_out(inst: &Instance, patient: PatientNo, surgery_cost: i64) -> bool
    requires { patient.0 < patient_count inst.now.draft }
{
    is_small(inst) && !inst.patient(patient).mandatory && inst.weights().w[7] < surgery_cost
}

/// A placement of the patient in a room from a day on, in the theatre that is cheapest there, once the attempt is made.
/// None where the patient would better stay out, or where surgery at no cost is too dear: it has to cost less than `most`.
pub fn place_in(
    here: &Situation<'_>,
    words: &mut RandomWords,
    patient: PatientNo,
    day: Day,
    room: RoomNo,
    attempt: &Chain,
    most: i64,
) -> Option<PricedPlace>
    requires patient { patient.0 < patient_count here.now.inst.now.draft }
    requires day { day.0 < here.now.inst.now.draft.days }
    requires room { room.0 < room_count here.now.inst.now.draft }
    requires theatres { 0 < theatre_count here.now.inst.now.draft }
    requires moves { AreMoves here.now.inst.now.draft attempt.now }
    ensures { IfSome result (λ place. IsPlacement here.now.inst.now.draft place.at) }
{
    let first = words.below(here.inst.theatres());
    if most <= 0 {
        return None;
    }
    let surgery = cheapest_surgery(here, patient, day, first, attempt);
    if is_better_out(here.inst, patient, surgery.cost) {
        return None;
    }
    let theatre = surgery.theatre;
    Some(PricedPlace {
        at: Placement { day, room, theatre },
        surgery_cost: surgery.cost,
    })
}

// A placement of the patient from a day on, by random words: the first room that fits, beside those who are there once
// the attempt is made. None where the patient would better stay out.
fn find_place_on(
    here: &Situation<'_>,
    words: &mut RandomWords,
    patient: PatientNo,
    day: Day,
    attempt: &Chain,
) -> Option<PricedPlace>
    requires patient { patient.0 < patient_count here.now.inst.now.draft }
    requires day { day.0 < here.now.inst.now.draft.days }
    requires moves { AreMoves here.now.inst.now.draft attempt.now }
    ensures { IfSome result (λ place. IsPlacement here.now.inst.now.draft place.at) }
{
    if here.inst.theatres() == 0 {
        return None;
    }
    let first = words.below(here.inst.rooms());
    let mut rooms = Fitting::new(here, patient, day, first, attempt);
    let room = rooms.next(here, patient, day, attempt)?;
    place_in(here, words, patient, day, room, attempt, i64::MAX)
}

/// Another placement of the patient, by random words: on the first of so many days of its window that has one.
pub fn find_place(
    here: &Situation<'_>,
    words: &mut RandomWords,
    patient: PatientNo,
    attempt: &Chain,
    tries: u32,
) -> Option<Placement>
    requires patient { patient.0 < patient_count here.now.inst.now.draft }
    requires moves { AreMoves here.now.inst.now.draft attempt.now }
    ensures { IfSome result (IsPlacement here.now.inst.now.draft) }
{
    for _ in 0..tries {
        if let Some(day) = draw_day(here.inst, words, patient) {
            if let Some(place) = find_place_on(here, words, patient, day, attempt) {
                return Some(place.at);
            }
        }
    }
    None
}

/// A move: a patient, by a random word, to another placement, beside those who are there once the attempt is made.
pub fn place(here: &Situation<'_>, words: &mut RandomWords, attempt: &Chain) -> Option<Move>
    requires { AreMoves here.now.inst.now.draft attempt.now }
    ensures { IfSome result (IsMoveOf here.now.inst.now.draft) }
{
    let patient = draw_patient(here.inst, words)?;
    let at = find_place(here, words, patient, attempt, 1)?;
    Some(Move::Place(patient, at))
}
