//! A few patients who come to one room in a few days get other places.

ghost use Rattle.std.specs.Prelude.{◌<◌, IfSome};
ghost use Rattle.ih_tables.specs.Sizes.{patient_count, room_count};
ghost use Rattle.ih_plan.specs.{Series.AreMoves};

use crate::best_place::settle;
use crate::ejection::withdrawn;
use crate::room_days::{RoomDay, person_at};
use crate::situation::{Situation, is_small};
use crate::stays::{cyclic, draw_patient};
use crate::words::RandomWords;
use ih_moves::{Chain, window_len};
use ih_plan::{Members, Move};
use ih_tables::{Day, PatientNo, PersonNo, RoomNo};

// Those are withdrawn who come on so many days in a row.
const DAYS: u32 = 4;
// So many patients are withdrawn at most.
const MOST_WITHDRAWN: usize = 3;
// So many patients are looked at for one who is out.
const LOOKS: u32 = 64;
// Once in so many times one who is out joins.
const TIMES_A_JOIN: u32 = 4;
// The same on small wards, where it tells most who comes at all.
const TIMES_A_JOIN_IF_SMALL: u32 = 2;

// The patient whom a number of a person stands for, where the patient is admitted on that day.
fn admitted_on(here: &Situation<'_>, person: PersonNo, day: Day) -> Option<PatientNo>
    ensures { IfSome result (λ p. p.0 < patient_count here.now.inst.now.draft) }
{
    if person.0 >= here.inst.patients() {
        return None;
    }
    let patient = PatientNo(person.0);
    let at = here.stay(patient)?;
    if at.day.0 == day.0 {
        Some(patient)
    } else {
        None
    }
}

// Withdraws patients of a room who are admitted on a day, as long as there aren't enough.
fn withdraw_on(here: &Situation<'_>, room: RoomNo, day: Day, attempt: &mut Chain)
    requires room { room.0 < room_count here.now.inst.now.draft }
    requires day { day.0 < here.now.inst.now.draft.days }
    requires moves { AreMoves here.now.inst.now.draft attempt.old }
    ensures { AreMoves here.now.inst.now.draft attempt.new }
{
    let rooms = here.room_days();
    for i in 0..rooms.count(room, day) {
        let person = person_at(here.inst, rooms, RoomDay { room, day }, i);
        if attempt.len() >= MOST_WITHDRAWN {
            return;
        }
        if let Some(patient) = admitted_on(here, person, day) {
            attempt.add(here.inst, Move::Withdraw(patient));
        }
    }
}

// Withdraws patients of a room who are admitted on one of `DAYS` days from a day on, up to `MOST_WITHDRAWN`.
fn withdraw_from(here: &Situation<'_>, room: RoomNo, from: Day, attempt: &mut Chain)
    requires room { room.0 < room_count here.now.inst.now.draft }
    requires moves { AreMoves here.now.inst.now.draft attempt.old }
    ensures { AreMoves here.now.inst.now.draft attempt.new }
{
    let to = from.0.saturating_add(DAYS).min(here.inst.days());
    for d in from.0..to {
        withdraw_on(here, room, Day(d), attempt);
    }
}

// Whether the patient is out, and may come on one of these days.
fn may_join(here: &Situation<'_>, patient_no: PatientNo, from: Day) -> bool
    requires { patient_no.0 < patient_count here.now.inst.now.draft }
{
    let patient = here.inst.patient(patient_no);
    let release = patient.surgery_release_day;
    here.stay(patient_no).is_none()
        && release < from.0.saturating_add(DAYS)
        && from.0 < release.saturating_add(window_len(here.inst, patient))
}

// A patient who may join: the first cyclically from a random one on.
fn draw_out(here: &Situation<'_>, words: &mut RandomWords, from: Day) -> Option<PatientNo>
    ensures { IfSome result (λ p. p.0 < patient_count here.now.inst.now.draft) }
{
    let patients = here.inst.patients();
    let first = draw_patient(here.inst, words)?;
    for i in 0..patients.min(LOOKS) {
        let patient = PatientNo(cyclic(first.0, i, patients));
        if may_join(here, patient, from) {
            return Some(patient);
        }
    }
    None
}

// Gives a patient who is out and may join, where there is one, the cheapest of a few places.
fn join(here: &Situation<'_>, words: &mut RandomWords, from: Day, attempt: &mut Chain)
    requires { AreMoves here.now.inst.now.draft attempt.old }
    ensures { AreMoves here.now.inst.now.draft attempt.new }
{
    if let Some(patient) = draw_out(here, words, from) {
        settle(here, words, patient, attempt);
    }
}

// Gives the patient whom the attempt withdraws at an index, where it does, the cheapest of a few places. False where
// that is a mandatory patient who has none.
fn resettle_at(
    here: &Situation<'_>,
    words: &mut RandomWords,
    index: usize,
    attempt: &mut Chain,
) -> bool
    requires { AreMoves here.now.inst.now.draft attempt.old }
    ensures { AreMoves here.now.inst.now.draft attempt.new }
{
    if index >= attempt.len() {
        return true;
    }
    match withdrawn(here.inst, attempt.at(here.inst, index)) {
        Some(patient) => settle(here, words, patient, attempt),
        None => true,
    }
}

// Gives each of so many who are withdrawn the cheapest of a few places, cyclically from a random one on. False, and
// no further, where a mandatory patient has none.
fn resettle(here: &Situation<'_>, words: &mut RandomWords, count: u32, attempt: &mut Chain) -> bool
    requires count { 0 < count }
    requires moves { AreMoves here.now.inst.now.draft attempt.old }
    ensures { AreMoves here.now.inst.now.draft attempt.new }
{
    let first = words.below(count);
    for i in 0..count {
        if !resettle_at(here, words, cyclic(first, i, count) as usize, attempt) {
            return false;
        }
    }
    true
}

/// Up to seven moves: two or three patients who are admitted to one room on four days in a row, both by random words, are
/// withdrawn; each gets the cheapest of a few places, or stays out. Once in four times, on small wards in two, one who
/// is out comes first. None where a mandatory patient would stay out.
pub fn regroup(here: &Situation<'_>, words: &mut RandomWords, attempt: &mut Chain)
    requires { AreMoves here.now.inst.now.draft attempt.old }
    ensures { AreMoves here.now.inst.now.draft attempt.new }
{
    let room = RoomNo(words.below(here.inst.rooms()));
    let from = Day(words.below(here.inst.days()));
    attempt.begin(here.inst);
    withdraw_from(here, room, from, attempt);
    let count = attempt.len() as u32;
    if count < 2 {
        attempt.begin(here.inst);
        return;
    }
    let times = if is_small(here.inst) {
        TIMES_A_JOIN_IF_SMALL
    } else {
        TIMES_A_JOIN
    };
    if words.below(times) == 0 {
        join(here, words, from, attempt);
    }
    if !resettle(here, words, count, attempt) {
        attempt.begin(here.inst);
    }
}
