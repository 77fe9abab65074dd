//! Single moves that take a broken rule away.

ghost use Rattle.std.specs.Prelude.{◌≡◌, ◌<◌, ◌≤◌, IfSome};
ghost use Rattle.ih_tables.specs.Sizes.{patient_count, room_count, shift_count};
ghost use Rattle.ih_plan.specs.{Writes.IsWriteOf, Expand.IsMoveOf};
ghost use Rattle.ih_proposals.specs.Mending.{IsMend};

use crate::nurses::{count_working, working_at};
use crate::situation::Situation;
use ih_costs::Ledgers;
use ih_moves::window_len;
use ih_plan::{Move, Placement, Write};
use ih_tables::{Bill, Day, Instance, PatientNo, RoomNo, Shift, TheatreNo};
use ih_validate::is_incompatible;

/// A move that takes a broken rule away.
#[derive(Clone, Copy)]
pub struct Mend {
    /// The move.
    pub mv: Move,
    /// What it adds to the score.
    pub value: i64,
}

// Whether a change takes something away of one of the rules, whatever it does to the others.
fn takes_away(price: &Bill) -> bool {
    for x in &price.v {
        if *x < 0 {
            return true;
        }
    }
    false
}

// How many more units of all rules a change breaks.
fn broken_more(price: &Bill) -> i64 {
    let mut sum: i64 = 0;
    for x in &price.v {
        sum = sum.saturating_add(*x);
    }
    sum
}

// The mend before, or a move that makes this write, where that breaks less and is cheaper.
fn cheaper_mend(here: &Situation<'_>, before: Option<Mend>, write: Write, mv: Move) -> Option<Mend>
    requires before { IfSome before (IsMend here.now.inst.now.draft) }
    requires write { IsWriteOf here.now.inst.now.draft write }
    requires inside { IsMoveOf here.now.inst.now.draft mv }
    ensures { IfSome result (IsMend here.now.inst.now.draft) }
{
    let price = here.ledgers.price_write(&write);
    if broken_more(&price) >= 0 {
        return before;
    }
    let value = here.score(&price);
    if let Some(mend) = before {
        if mend.value <= value {
            return before;
        }
    }
    Some(Mend { mv, value })
}

// The mend before, or the cheapest one that brings the patient to a room from a day on.
fn mend_in_room(
    here: &Situation<'_>,
    before: Option<Mend>,
    patient: PatientNo,
    day: Day,
    room: RoomNo,
) -> Option<Mend>
    requires before { IfSome before (IsMend here.now.inst.now.draft) }
    requires patient { patient.0 < patient_count here.now.inst.now.draft }
    requires day { day.0 < here.now.inst.now.draft.days }
    requires room { room.0 < room_count here.now.inst.now.draft }
    ensures { IfSome result (IsMend here.now.inst.now.draft) }
{
    let mut best = before;
    for t in 0..here.inst.theatres() {
        let at = Placement {
            day,
            room,
            theatre: TheatreNo(t),
        };
        let write = Write::SetStay(patient, Some(at));
        best = cheaper_mend(here, best, write, Move::Place(patient, at));
    }
    best
}

// The mend before, or the cheapest one that brings the patient to a room that suits, from a day on.
fn mend_on_day(
    here: &Situation<'_>,
    before: Option<Mend>,
    patient: PatientNo,
    day: Day,
) -> Option<Mend>
    requires before { IfSome before (IsMend here.now.inst.now.draft) }
    requires patient { patient.0 < patient_count here.now.inst.now.draft }
    requires day { day.0 < here.now.inst.now.draft.days }
    ensures { IfSome result (IsMend here.now.inst.now.draft) }
{
    let mut best = before;
    for r in 0..here.inst.rooms() {
        if !is_incompatible(here.inst.patient(patient), RoomNo(r)) {
            best = mend_in_room(here, best, patient, day, RoomNo(r));
        }
    }
    best
}

// The mend before, or the cheapest one of the patient's stay from such a day on.
fn mend_from(
    here: &Situation<'_>,
    before: Option<Mend>,
    patient_no: PatientNo,
    first: u32,
) -> Option<Mend>
    requires before { IfSome before (IsMend here.now.inst.now.draft) }
    requires patient { patient_no.0 < patient_count here.now.inst.now.draft }
    ensures { IfSome result (IsMend here.now.inst.now.draft) }
{
    let write = Write::SetStay(patient_no, None);
    let mut best = cheaper_mend(here, before, write, Move::Withdraw(patient_no));
    let patient = here.inst.patient(patient_no);
    for later in 0..window_len(here.inst, patient) {
        let day = patient.surgery_release_day + later;
        if first <= day {
            best = mend_on_day(here, best, patient_no, Day(day));
        }
    }
    best
}

/// Whether a rule would be mended if the patient came, where one has to come, or left.
pub fn breaks_rule(inst: &Instance, ledgers: &Ledgers<'_>, patient: PatientNo) -> bool
    requires instance { ledgers.now.instance ≡ inst.now.draft }
    requires patient { patient.0 < patient_count inst.now.draft }
{
    match ledgers.plan().stay(patient) {
        None => inst.patient(patient).mandatory,
        Some(_) => takes_away(&ledgers.price_write(&Write::SetStay(patient, None))),
    }
}

/// The mend before, or a cheaper one that gives the patient another stay, from such a day on, or none. Which one it is,
/// is free.
pub fn mend_stay<'a>(
    inst: &'a Instance,
    hard: u32,
    ledgers: &'a Ledgers<'a>,
    before: Option<Mend>,
    patient: PatientNo,
    first: u32,
) -> Option<Mend>
    requires instance { ledgers.now.instance ≡ inst.now.draft }
    requires hard { hard ≤ 1000000 }
    requires before { IfSome before (IsMend inst.now.draft) }
    requires patient { patient.0 < patient_count inst.now.draft }
    ensures { IfSome result (IsMend inst.now.draft) }
{
    let here = Situation::new(inst, hard, ledgers, None);
    mend_from(&here, before, patient, first)
}

// Whether the room has a nurse who works the shift.
fn is_covered(here: &Situation<'_>, room: RoomNo, shift: Shift) -> bool
    requires room { room.0 < room_count here.now.inst.now.draft }
    requires shift { shift.0 < shift_count here.now.inst.now.draft }
{
    match here.nurse(room, shift) {
        None => false,
        Some(nurse) => here.inst.works(nurse, shift).is_some(),
    }
}

/// The cheapest nurse for a room and shift that breaks a rule as it is. Which one it is, is free.
pub fn mend_shift<'a>(
    inst: &'a Instance,
    hard: u32,
    ledgers: &'a Ledgers<'a>,
    room: RoomNo,
    shift: Shift,
) -> Option<Mend>
    requires instance { ledgers.now.instance ≡ inst.now.draft }
    requires hard { hard ≤ 1000000 }
    requires room { room.0 < room_count inst.now.draft }
    requires shift { shift.0 < shift_count inst.now.draft }
    ensures { IfSome result (IsMend inst.now.draft) }
{
    let here = Situation::new(inst, hard, ledgers, None);
    if is_covered(&here, room, shift) {
        return None;
    }
    let mut best = None;
    for i in 0..count_working(inst, shift) {
        let nurse = working_at(inst, shift, i as usize);
        let write = Write::SetCare(room, shift, Some(nurse));
        best = cheaper_mend(&here, best, write, Move::Nurse(room, shift, nurse));
    }
    best
}
