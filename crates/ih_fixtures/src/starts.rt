//! A timetable of the instance of two patients, with which tests begin.

ghost use Rattle.std.specs.Prelude.{◌≡◌, IfOk};
ghost use Rattle.ih_plan.specs.Timetable.{IsPlanOf};
ghost use Rattle.ih_fixtures.specs.Two.{IsOfTwo};

use crate::two::two_patients;
use ih_plan::{Placement, Plan, Write};
use ih_tables::{Day, Instance, NurseNo, PatientNo, RoomNo, Shift, TheatreNo};
use std::alloc::{AllocError, Global};

/// The placement of these numbers.
pub fn at(day: u32, room: u32, theatre: u32) -> Placement
    ensures { result
        ≡ record { day = record { 0 = day }; room = record { 0 = room }; theatre = record { 0 = theatre } } }
{
    Placement {
        day: Day(day),
        room: RoomNo(room),
        theatre: TheatreNo(theatre),
    }
}

/// The first room and this theatre on the first day.
pub fn first_day(theatre: u32) -> Placement
    ensures { result ≡ record { day = record { 0 = 0 }; room = record { 0 = 0 }; theatre = record { 0 = theatre } } }
{
    at(0, 0, theatre)
}

// The first patient is admitted on the first day, and the first room has the first nurse in all shifts.
#[tactic(auto, using(ih_plan::proofs::PlanRanges::plan_steps))]
fn first_admitted(alloc: Global, inst: &Instance) -> Result<Plan, AllocError>
    requires { IsOfTwo inst.now.draft }
    ensures { IfOk result (IsPlanOf inst.now.draft) }
{
    let mut plan = Plan::empty(alloc, inst)?;
    plan.put(&Write::SetStay(PatientNo(0), Some(first_day(0))));
    for k in 0..6 {
        plan.put(&Write::SetCare(RoomNo(0), Shift(k), Some(NurseNo(0))));
    }
    Ok(plan)
}

fn with_first_admitted<F: FnOnce(&Instance, &Plan) -> bool>(
    alloc: Global,
    inst: &Instance,
    holds: F,
) -> bool
    requires two { IsOfTwo inst.now.draft }
    requires callable { (i : _) (p : _) → IsOfTwo i.now.draft → IsPlanOf i.now.draft p.now → F.pre holds i p }
{
    match first_admitted(alloc, inst) {
        Ok(plan) => holds(inst, &plan),
        Err(_) => false,
    }
}

/// Whether something holds on the ward of two patients, of whom the first is admitted on the first day, and the first
/// room has the first nurse in all shifts. It is false where memory runs out.
pub fn on_first_admitted<F: FnOnce(&Instance, &Plan) -> bool>(alloc: Global, holds: F) -> bool
    requires { (i : _) (p : _) → IsOfTwo i.now.draft → IsPlanOf i.now.draft p.now → F.pre holds i p }
{
    match two_patients(alloc) {
        Some(inst) => with_first_admitted(alloc, &inst, holds),
        None => false,
    }
}
