//! A Kempe move. A patient goes to another room. Who is in its way there goes to the room that it left; who is in their
//! way goes the other way, and so on.

ghost use Rattle.std.specs.Prelude.{◌<◌, IfSome};
ghost use Rattle.ih_tables.specs.Sizes.{patient_count, room_count};
ghost use Rattle.ih_plan.specs.{Expand.IsMoveOf, Series.AreMoves};

use crate::arrivals::{Arrival, Exit};
use crate::clearing::clear;
use crate::situation::Situation;
use crate::stays::draw_patient;
use crate::words::RandomWords;
use ih_moves::Chain;
use ih_plan::{Move, Placement};
use ih_tables::{Instance, PatientNo, RoomNo};
use ih_validate::is_incompatible;

// So many patients change their room at most.
const MOST: usize = 8;

// Brings all who have to leave a room, so that the patient may come for the whole stay, to the patient's room so far;
// false where somebody can't.
fn make_way(
    here: &Situation<'_>,
    words: &mut RandomWords,
    patient: PatientNo,
    room: RoomNo,
    attempt: &mut Chain,
) -> bool
    requires patient { patient.0 < patient_count here.now.inst.now.draft }
    requires room { room.0 < room_count here.now.inst.now.draft }
    requires moves { AreMoves here.now.inst.now.draft attempt.old }
    ensures { AreMoves here.now.inst.now.draft attempt.new }
{
    let Some(old) = here.stay(patient) else {
        return false;
    };
    let arrival = Arrival {
        patient,
        at: Placement { room, ..old },
        exit: Exit::To(old.room),
    };
    clear(here, words, arrival, attempt)
}

// The patient whom a move brings to another room, and that room.
fn room_change(inst: &Instance, mv: Move) -> Option<(PatientNo, RoomNo)>
    requires { IsMoveOf inst.now.draft mv }
    ensures { IfSome result (λ c. (c.0.0 < patient_count inst.now.draft) × (c.1.0 < room_count inst.now.draft)) }
{
    match mv {
        Move::SetRoom(p, r) => Some((p, r)),
        _ => None,
    }
}

// Makes way for each patient whom the attempt brings to another room, also for those who are brought for that; false
// where somebody can't leave.
fn make_way_for_all(here: &Situation<'_>, words: &mut RandomWords, attempt: &mut Chain) -> bool
    requires { AreMoves here.now.inst.now.draft attempt.old }
    ensures { AreMoves here.now.inst.now.draft attempt.new }
{
    for i in 0..MOST {
        if i >= attempt.len() {
            return true;
        }
        if let Some((p, to)) = room_change(here.inst, attempt.at(here.inst, i)) {
            if !make_way(here, words, p, to, attempt) {
                return false;
            }
        }
    }
    true
}

// An admitted patient and another room that it may have, both by random words.
fn draw_room_change(here: &Situation<'_>, words: &mut RandomWords) -> Option<(PatientNo, RoomNo)>
    ensures { IfSome result (λ c.
        (c.0.0 < patient_count here.now.inst.now.draft) × (c.1.0 < room_count here.now.inst.now.draft)) }
{
    let inst = here.inst;
    let p = draw_patient(inst, words)?;
    let at = here.stay(p)?;
    let other = RoomNo(words.below(inst.rooms()));
    if other == at.room || is_incompatible(inst.patient(p), other) {
        None
    } else {
        Some((p, other))
    }
}

/// Up to eight moves: a patient goes to another room, both by random words, and two rooms exchange all whom this
/// disturbs and who are disturbed by that in turn. None where that comes to no end.
pub fn kempe(here: &Situation<'_>, words: &mut RandomWords, attempt: &mut Chain)
    requires { AreMoves here.now.inst.now.draft attempt.old }
    ensures { AreMoves here.now.inst.now.draft attempt.new }
{
    let Some((p, other)) = draw_room_change(here, words) else {
        return;
    };
    attempt.add(here.inst, Move::SetRoom(p, other));
    if !make_way_for_all(here, words, attempt) {
        attempt.begin(here.inst);
    }
}
