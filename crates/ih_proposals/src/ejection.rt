//! A patient in a room and from a day on by random words, whatever is there: who has to leave gets another place.

ghost use Rattle.std.specs.Prelude.{◌<◌, IfSome};
ghost use Rattle.ih_tables.specs.Sizes.{patient_count};
ghost use Rattle.ih_plan.specs.{Timetable.IsPlacement, Expand.IsMoveOf, Series.AreMoves};

use crate::arrivals::{Arrival, Exit};
use crate::clearing::{MOST_WITHDRAWN, clear};
use crate::place::find_place;
use crate::situation::Situation;
use crate::stays::{draw_day, draw_patient};
use crate::theatres::cheapest_surgery;
use crate::words::RandomWords;
use ih_moves::Chain;
use ih_plan::{Move, Placement};
use ih_tables::{Instance, PatientNo, RoomNo};
use ih_validate::is_incompatible;

// A placement of the patient by random words, in a room that suits.
fn draw_goal(
    here: &Situation<'_>,
    words: &mut RandomWords,
    patient: PatientNo,
    attempt: &Chain,
) -> Option<Placement>
    requires patient { patient.0 < patient_count here.now.inst.now.draft }
    requires moves { AreMoves here.now.inst.now.draft attempt.now }
    ensures { IfSome result (IsPlacement here.now.inst.now.draft) }
{
    let theatres = here.inst.theatres();
    if theatres == 0 {
        return None;
    }
    let day = draw_day(here.inst, words, patient)?;
    let room = RoomNo(words.below(here.inst.rooms()));
    if is_incompatible(here.inst.patient(patient), room) {
        return None;
    }
    let theatre = cheapest_surgery(here, patient, day, words.below(theatres), attempt).theatre;
    Some(Placement { day, room, theatre })
}

/// The patient whom a move withdraws.
pub fn withdrawn(inst: &Instance, mv: Move) -> Option<PatientNo>
    requires { IsMoveOf inst.now.draft mv }
    ensures { IfSome result (λ p. p.0 < patient_count inst.now.draft) }
{
    match mv {
        Move::Withdraw(p) => Some(p),
        _ => None,
    }
}

// Gives each patient who was withdrawn another place. Who has none stays out; false where that is a mandatory patient.
fn resettle(here: &Situation<'_>, words: &mut RandomWords, attempt: &mut Chain) -> bool
    requires { AreMoves here.now.inst.now.draft attempt.old }
    ensures { AreMoves here.now.inst.now.draft attempt.new }
{
    for i in 0..MOST_WITHDRAWN + 1 {
        if i >= attempt.len() {
            return true;
        }
        if let Some(q) = withdrawn(here.inst, attempt.at(here.inst, i)) {
            match find_place(here, words, q, attempt, 2) {
                Some(at) => attempt.add(here.inst, Move::Place(q, at)),
                None => {
                    if here.inst.patient(q).mandatory {
                        return false;
                    }
                }
            }
        }
    }
    true
}

/// Up to five moves: a patient gets a room and a day by random words, and at most two who have to leave get the first
/// place that fits on one of two days, or stay out. None where an occupant, too many or a mandatory patient would have
/// to leave for good.
pub fn ejection(here: &Situation<'_>, words: &mut RandomWords, attempt: &mut Chain)
    requires { AreMoves here.now.inst.now.draft attempt.old }
    ensures { AreMoves here.now.inst.now.draft attempt.new }
{
    let Some(patient) = draw_patient(here.inst, words) else {
        return;
    };
    let Some(at) = draw_goal(here, words, patient, attempt) else {
        return;
    };
    attempt.add(here.inst, Move::Place(patient, at));
    let arrival = Arrival {
        patient,
        at,
        exit: Exit::Out,
    };
    if !clear(here, words, arrival, attempt) || !resettle(here, words, attempt) {
        attempt.begin(here.inst);
    }
}
