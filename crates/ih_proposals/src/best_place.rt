//! The cheapest of a few placements of a patient.

ghost use Rattle.std.specs.Prelude.{◌<◌, IfSome};
ghost use Rattle.ih_tables.specs.Sizes.{patient_count, room_count, theatre_count};
ghost use Rattle.ih_plan.specs.{Timetable.IsPlacement, Series.AreMoves};
ghost use Rattle.ih_proposals.specs.NewStays.{IsNewStay};

use crate::fitting::Fitting;
use crate::new_stays::{NewStay, carers_of};
use crate::place::{PricedPlace, place_in};
use crate::situation::{Situation, is_small};
use crate::words::RandomWords;
use ih_moves::{Chain, window_len};
use ih_plan::{Move, Placement};
use ih_tables::{Day, Instance, PatientNo, RoomNo, TheatreNo};

// So many days of the patient's window are looked at.
const DAYS: u32 = 4;
// So many rooms are compared on each of them, on large wards and on small ones.
const ROOMS: u32 = 3;

const ROOMS_IF_SMALL: u32 = 1;

// How many rooms are compared on a day.
fn rooms_of_a_day(inst: &Instance) -> u32 {
    if is_small(inst) {
        ROOMS_IF_SMALL
    } else {
        ROOMS
    }
}

// Which day of the patient's window is the first to be looked at, by random words: every other time its first one.
fn draw_first(inst: &Instance, words: &mut RandomWords, patient_no: PatientNo) -> u32
    requires { patient_no.0 < patient_count inst.now.draft }
{
    let days = window_len(inst, inst.patient(patient_no));
    if days <= DAYS || words.below(2) == 0 {
        0
    } else {
        words.below(days - DAYS + 1)
    }
}

// A day of the patient's window, by its number there.
fn day_of_window(inst: &Instance, patient_no: PatientNo, day_no: u32) -> Option<Day>
    requires { patient_no.0 < patient_count inst.now.draft }
    ensures { IfSome result (λ d. d.0 < inst.now.draft.days) }
{
    let patient = inst.patient(patient_no);
    if day_no < window_len(inst, patient) {
        Some(Day(patient.surgery_release_day + day_no))
    } else {
        None
    }
}

// How many nurses care for the patient over a stay: as far as their marks tell them apart.
fn count_carers(here: &Situation<'_>, stay: NewStay) -> u32
    requires { IsNewStay here.now.inst.now.draft stay }
{
    carers_of(here, stay).once.count_ones()
}

// A room, and how many nurses care for the patient there.
#[derive(Clone, Copy)]
struct RoomChoice {
    room: RoomNo,
    carers: u32,
}

// Of the first rooms that fit the patient from a day on the one with the fewest nurses over the stay.
fn room_of_fewest_nurses(
    here: &Situation<'_>,
    patient: PatientNo,
    day: Day,
    first: u32,
    attempt: &Chain,
) -> Option<RoomChoice>
    requires patient { patient.0 < patient_count here.now.inst.now.draft }
    requires day { day.0 < here.now.inst.now.draft.days }
    requires theatres { 0 < theatre_count here.now.inst.now.draft }
    requires moves { AreMoves here.now.inst.now.draft attempt.now }
    ensures { IfSome result (λ c. c.room.0 < room_count here.now.inst.now.draft) }
{
    let mut rooms = Fitting::new(here, patient, day, first, attempt);
    let mut best: Option<RoomChoice> = None;
    let mut least = u32::MAX;
    for _ in 0..rooms_of_a_day(here.inst) {
        if let Some(room) = rooms.next(here, patient, day, attempt) {
            let at = Placement {
                day,
                room,
                theatre: TheatreNo(0),
            };
            let carers = count_carers(here, NewStay { patient, at });
            if carers < least {
                least = carers;
                best = Some(RoomChoice { room, carers });
            }
        }
    }
    best
}

// A placement, and roughly what it costs: the delay, its surgery, and the nurses who care over the stay. Skills,
// workloads and ages aren't looked at.
#[derive(Clone, Copy)]
struct RoughPlace {
    at: Placement,
    cost: i64,
}

// A placement of the patient from a day on, by random words, in the one of the first rooms that fit which has the fewest
// nurses. None where it costs `most` or more.
fn rough_place_on(
    here: &Situation<'_>,
    words: &mut RandomWords,
    patient: PatientNo,
    day: Day,
    attempt: &Chain,
    most: i64,
) -> Option<RoughPlace>
    requires patient { patient.0 < patient_count here.now.inst.now.draft }
    requires day { day.0 < here.now.inst.now.draft.days }
    requires moves { AreMoves here.now.inst.now.draft attempt.now }
    ensures { IfSome result (λ place. IsPlacement here.now.inst.now.draft place.at) }
{
    let inst = here.inst;
    if inst.theatres() == 0 {
        return None;
    }
    let first = words.below(inst.rooms());
    let choice = room_of_fewest_nurses(here, patient, day, first, attempt)?;
    let weights = &inst.weights().w;
    let delay = day
        .0
        .saturating_sub(inst.patient(patient).surgery_release_day);
    let stay_cost = weights[6]
        .saturating_mul(i64::from(delay))
        .saturating_add(weights[2].saturating_mul(i64::from(choice.carers)));
    let PricedPlace { at, surgery_cost } = place_in(
        here,
        words,
        patient,
        day,
        choice.room,
        attempt,
        most.saturating_sub(stay_cost),
    )?;
    Some(RoughPlace {
        at,
        cost: surgery_cost.saturating_add(stay_cost),
    })
}

/// The cheapest of a few placements of the patient: on each of four days in a row one in a room that fits, beside those
/// who are there once the attempt is made, which doesn't place the patient yet.
pub fn cheapest_place(
    here: &Situation<'_>,
    words: &mut RandomWords,
    patient: PatientNo,
    attempt: &Chain,
) -> Option<Placement>
    requires patient { patient.0 < patient_count here.now.inst.now.draft }
    requires moves { AreMoves here.now.inst.now.draft attempt.now }
    ensures { IfSome result (IsPlacement here.now.inst.now.draft) }
{
    let first = draw_first(here.inst, words, patient);
    let mut best = None;
    let mut least = i64::MAX;
    for i in 0..DAYS {
        if let Some(day) = day_of_window(here.inst, patient, first.saturating_add(i)) {
            if let Some(place) = rough_place_on(here, words, patient, day, attempt, least) {
                if place.cost < least {
                    least = place.cost;
                    best = Some(place.at);
                }
            }
        }
    }
    best
}

/// Gives a patient the cheapest of a few places. Who has none stays out; false where that is a mandatory patient.
pub fn settle(
    here: &Situation<'_>,
    words: &mut RandomWords,
    patient: PatientNo,
    attempt: &mut Chain,
) -> bool
    requires patient { patient.0 < patient_count here.now.inst.now.draft }
    requires moves { AreMoves here.now.inst.now.draft attempt.old }
    ensures { AreMoves here.now.inst.now.draft attempt.new }
{
    match cheapest_place(here, words, patient, attempt) {
        Some(at) => {
            attempt.add(here.inst, Move::Place(patient, at));
            true
        }
        None => !here.inst.patient(patient).mandatory,
    }
}
