//! Clears a room for a patient: who has to leave goes.

ghost use Rattle.std.specs.Prelude.{◌<◌};
ghost use Rattle.ih_tables.specs.Sizes.{patient_count, room_count};
ghost use Rattle.ih_plan.specs.{Series.AreMoves};
ghost use Rattle.ih_proposals.specs.Arrivals.{IsArrival, IsExit};

use crate::arrivals::{Arrival, Exit};
use crate::leaving::{Leaving, one_to_leave};
use crate::situation::Situation;
use crate::words::RandomWords;
use ih_moves::Chain;
use ih_plan::{Move, end_of};
use ih_tables::{Day, Instance, PatientNo, PersonNo, RoomNo};
use ih_validate::is_incompatible;

/// So many patients are withdrawn at most.
pub const MOST_WITHDRAWN: usize = 2;

// So many leave at most: an attempt has no more moves.
const MOST_LEAVING: usize = 8;

// Withdraws a patient; false where enough are withdrawn. The attempt's first move is that of the one who comes.
fn withdraw(inst: &Instance, patient: PatientNo, attempt: &mut Chain) -> bool
    requires patient { patient.0 < patient_count inst.now.draft }
    requires moves { AreMoves inst.now.draft attempt.old }
    ensures { AreMoves inst.now.draft attempt.new }
{
    if attempt.len() > MOST_WITHDRAWN {
        return false;
    }
    attempt.add(inst, Move::Withdraw(patient));
    true
}

// Brings a patient to a room; false where enough have moved, or the room doesn't suit.
fn bring(inst: &Instance, patient: PatientNo, room: RoomNo, attempt: &mut Chain) -> bool
    requires patient { patient.0 < patient_count inst.now.draft }
    requires room { room.0 < room_count inst.now.draft }
    requires moves { AreMoves inst.now.draft attempt.old }
    ensures { AreMoves inst.now.draft attempt.new }
{
    if attempt.is_full() || is_incompatible(inst.patient(patient), room) {
        return false;
    }
    attempt.add(inst, Move::SetRoom(patient, room));
    true
}

// Lets a person go; false where that is an occupant, or the patient can't.
fn let_go(inst: &Instance, person: PersonNo, exit: Exit, attempt: &mut Chain) -> bool
    requires exit { IsExit inst.now.draft exit }
    requires moves { AreMoves inst.now.draft attempt.old }
    ensures { AreMoves inst.now.draft attempt.new }
{
    if person.0 >= inst.patients() {
        return false;
    }
    let patient = PatientNo(person.0);
    match exit {
        Exit::Out => withdraw(inst, patient, attempt),
        Exit::To(room) => bring(inst, patient, room, attempt),
    }
}

// Lets all go who have to leave on a day so that the patient may come; false where somebody can't.
fn clear_on(
    here: &Situation<'_>,
    words: &mut RandomWords,
    arrival: Arrival,
    day: Day,
    attempt: &mut Chain,
) -> bool
    requires arrival { IsArrival here.now.inst.now.draft arrival }
    requires day { day.0 < here.now.inst.now.draft.days }
    requires moves { AreMoves here.now.inst.now.draft attempt.old }
    ensures { AreMoves here.now.inst.now.draft attempt.new }
{
    'leaving: for _ in 0..MOST_LEAVING {
        match one_to_leave(here, words, arrival, day, attempt) {
            Leaving::Nobody => return true,
            Leaving::TooMany => return false,
            Leaving::One(x) => {
                if !let_go(here.inst, x, arrival.exit, attempt) {
                    return false;
                }
            }
        }
    }
    false
}

/// Lets all go who have to leave on any day of the patient's placement; false where somebody can't.
pub fn clear(
    here: &Situation<'_>,
    words: &mut RandomWords,
    arrival: Arrival,
    attempt: &mut Chain,
) -> bool
    requires arrival { IsArrival here.now.inst.now.draft arrival }
    requires moves { AreMoves here.now.inst.now.draft attempt.old }
    ensures { AreMoves here.now.inst.now.draft attempt.new }
{
    for d in arrival.at.day.0..end_of(here.inst, arrival.patient, arrival.at) {
        if !clear_on(here, words, arrival, Day(d), attempt) {
            return false;
        }
    }
    true
}
