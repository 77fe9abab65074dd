//! Moves that may change a choice that stays: one before the freeze day, or one that is pinned.

ghost use Rattle.std.specs.Prelude.{◌≡◌, ◌<◌};
ghost use Rattle.std.specs.List.{list_any};
ghost use Rattle.ih_plan.specs.{Timetable.IsPlanOf, Timetable.stay_of, Expand.IsMoveOf};
ghost use Rattle.ih_plan.specs.{Series.AreMoves, Frozen.is_before};
ghost use Rattle.ih_tables.specs.Sizes.{patient_count};
ghost use Rattle.ih_improve.specs.{Frozen.may_be_frozen, Kept.may_be_kept, Pinned.may_be_pinned};

use crate::pins::Pins;
use crate::settings::Settings;
use ih_plan::{Move, Plan, Write, frozen};
use ih_tables::{Instance, PatientNo};

/// Whether the start admits the patient before the freeze day.
pub(crate) fn is_early(inst: &Instance, start: &Plan, freeze: u32, patient: PatientNo) -> bool
    requires start { IsPlanOf inst.now.draft start.now }
    requires patient { patient.0 < patient_count inst.now.draft }
    ensures { result ≡ is_before freeze (stay_of start.now patient.0) }
{
    frozen(start, freeze, &Write::SetStay(patient, None))
}

// Whether the move may change a choice before the freeze day.
fn may_be_frozen(inst: &Instance, start: &Plan, freeze: u32, mv: &Move) -> bool
    requires start { IsPlanOf inst.now.draft start.now }
    requires inside { IsMoveOf inst.now.draft mv.now }
    ensures { result ≡ may_be_frozen start.now freeze mv.now }
{
    match *mv {
        Move::Idle => false,
        Move::Place(p, at) => is_early(inst, start, freeze, p) || at.day.0 < freeze,
        Move::SetDay(p, d) => is_early(inst, start, freeze, p) || d.0 < freeze,
        Move::Withdraw(p) | Move::SetRoom(p, _) | Move::SetTheatre(p, _) => {
            is_early(inst, start, freeze, p)
        }
        Move::SwapRooms(p, q) => {
            is_early(inst, start, freeze, p) || is_early(inst, start, freeze, q)
        }
        Move::Nurse(_, k, _) | Move::SwapNurses(k, _, _) => k.0 / 3 < freeze,
        Move::NurseRun(_, _, d, _) => d.0 < freeze,
    }
}

// Whether the move may change a choice that is pinned.
fn may_be_pinned(inst: &Instance, start: &Plan, pins: &Pins, mv: &Move) -> bool
    requires start { IsPlanOf inst.now.draft start.now }
    requires inside { IsMoveOf inst.now.draft mv.now }
    ensures { result ≡ may_be_pinned inst.now.draft start.now pins.now mv.now }
{
    match *mv {
        Move::Idle => false,
        Move::Place(p, _)
        | Move::Withdraw(p)
        | Move::SetDay(p, _)
        | Move::SetRoom(p, _)
        | Move::SetTheatre(p, _) => pins.has_patient(p),
        Move::SwapRooms(p, q) => pins.has_patient(p) || pins.has_patient(q),
        Move::Nurse(r, k, _) => pins.has_day(inst, start, r, k.0 / 3),
        Move::NurseRun(_, r, d, len) => pins.has_run(inst, start, r, d.0, len),
        Move::SwapNurses(k, a, b) => {
            pins.has_day(inst, start, a, k.0 / 3) || pins.has_day(inst, start, b, k.0 / 3)
        }
    }
}

/// Whether one of the moves may change a choice that stays, judged by the start and the moves alone: exactly if one of
/// them is of a patient, a day or a shift before the freeze day, or of what is pinned. The others keep the start's choices
/// on every timetable that has kept them.
pub(crate) fn any_kept(
    inst: &Instance,
    start: &Plan,
    pins: &Pins,
    settings: &Settings,
    moves: &[Move],
) -> bool
    requires start { IsPlanOf inst.now.draft start.now }
    requires inside { AreMoves inst.now.draft moves.now }
    ensures { result ≡ list_any (may_be_kept
        (record { instance = inst.now.draft; start = start.now; pins = pins.now; settings = settings.now })) moves.now }
{
    match moves.split_first() {
        None => false,
        Some((mv, later)) => {
            may_be_frozen(inst, start, settings.freeze, mv)
                || may_be_pinned(inst, start, pins, mv)
                || any_kept(inst, start, pins, settings, later)
        }
    }
}
