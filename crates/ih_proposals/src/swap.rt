//! A patient in the place of another of the same gender, who takes the first one's place or gets another.

ghost use Rattle.std.specs.Prelude.{◌<◌, IfSome};
ghost use Rattle.ih_tables.specs.Sizes.{patient_count};
ghost use Rattle.ih_plan.specs.{Timetable.IsPlacement, Expand.IsMoveOf, Series.AreMoves};

use crate::best_place::settle;
use crate::situation::Situation;
use crate::stays::{cyclic, draw_patient};
use crate::words::RandomWords;
use ih_moves::Chain;
use ih_plan::{Move, Placement};
use ih_tables::{Instance, PatientNo, PersonNo};
use ih_validate::{is_incompatible, outside_window};

// So many patients are looked at.
const LOOKS: u32 = 64;

// Whether the patient may be admitted with the placement: the day and the room are allowed.
fn is_allowed(inst: &Instance, patient_no: PatientNo, at: Placement) -> bool
    requires { patient_no.0 < patient_count inst.now.draft }
{
    let patient = inst.patient(patient_no);
    !outside_window(patient, Some(at)) && !is_incompatible(patient, at.room)
}

// Whether a patient who isn't admitted may take the place of another: the other stays as long or longer.
fn may_replace(inst: &Instance, patient: PatientNo, other_no: PatientNo) -> bool
    requires patient { patient.0 < patient_count inst.now.draft }
    requires other { other_no.0 < patient_count inst.now.draft }
{
    inst.patient(patient).length_of_stay <= inst.patient(other_no).length_of_stay
}

// Whether two admitted patients may exchange their placements: both stay equally long.
fn may_exchange(
    inst: &Instance,
    patient: PatientNo,
    mine: Placement,
    other: PatientNo,
    theirs: Placement,
) -> bool
    requires patient { patient.0 < patient_count inst.now.draft }
    requires other { other.0 < patient_count inst.now.draft }
{
    let differ = mine.day.0 != theirs.day.0 || mine.room.0 != theirs.room.0;
    differ
        && inst.patient(patient).length_of_stay == inst.patient(other).length_of_stay
        && is_allowed(inst, other, mine)
}

// The placement of the other that the patient may take, whose own is `mine`.
fn place_of_other(
    here: &Situation<'_>,
    patient: PatientNo,
    mine: Option<Placement>,
    other: PatientNo,
) -> Option<Placement>
    requires patient { patient.0 < patient_count here.now.inst.now.draft }
    requires other { other.0 < patient_count here.now.inst.now.draft }
    ensures { IfSome result (IsPlacement here.now.inst.now.draft) }
{
    let inst = here.inst;
    let theirs = here.stay(other)?;
    if patient.0 == other.0
        || !here
            .room_days()
            .same_gender(PersonNo(patient.0), PersonNo(other.0))
    {
        return None;
    }
    let may = match mine {
        None => may_replace(inst, patient, other),
        Some(at) => may_exchange(inst, patient, at, other, theirs),
    };
    if may && is_allowed(inst, patient, theirs) {
        Some(theirs)
    } else {
        None
    }
}

// The move of a patient whose place another one takes: to the other's place, or out where that one isn't admitted.
fn move_away(_inst: &Instance, patient: PatientNo, to: Option<Placement>) -> Move
    requires patient { patient.0 < patient_count _inst.now.draft }
    requires placement { IfSome to (IsPlacement _inst.now.draft) }
    ensures { IsMoveOf _inst.now.draft result }
{
    match to {
        None => Move::Withdraw(patient),
        Some(at) => Move::Place(patient, at),
    }
}

/// Two or three moves, for a patient by a random word and the first other patient, cyclically from a random one on, whose
/// place the patient may take: both exchange their placements, or, where the patient isn't admitted, the other gets the
/// cheapest of a few places. Where there is none it is left out or, if it is mandatory, there is no move.
pub fn swap(here: &Situation<'_>, words: &mut RandomWords, attempt: &mut Chain)
    requires { AreMoves here.now.inst.now.draft attempt.old }
    ensures { AreMoves here.now.inst.now.draft attempt.new }
{
    let inst = here.inst;
    let Some(p) = draw_patient(inst, words) else {
        return;
    };
    let patients = inst.patients();
    let mine = here.stay(p);
    let first = words.below(patients);
    for i in 0..patients.min(LOOKS) {
        let q = PatientNo(cyclic(first, i, patients));
        if let Some(theirs) = place_of_other(here, p, mine, q) {
            attempt.add(inst, move_away(inst, q, mine));
            attempt.add(inst, Move::Place(p, theirs));
            if mine.is_none() && !settle(here, words, q, attempt) {
                attempt.begin(inst);
            }
            return;
        }
    }
}
