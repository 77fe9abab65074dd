//! The timetable that the next ward keeps.

ghost use Rattle.std.specs.Prelude.{◌≡◌, ◌+◌, ◌<◌, IfOk};
ghost use Rattle.ih_tables.specs.Sizes.{patient_count, room_count};
ghost use Rattle.ih_plan.specs.Timetable.{IsPlanOf};
ghost use Rattle.ih_carry.specs.Handovers.{HasNurses, HasStays, IsCarried, handover_of};

use crate::handovers::Handover;
use ih_plan::{Plan, Write};
use ih_tables::{PatientNo, RoomNo, Shift};
use std::alloc::{AllocError, Global};

// Gives each patient the stay that the next ward keeps.
fn carry_stays(handover: &Handover<'_>, plan: &mut Plan)
    requires { IsPlanOf handover.now.next.now.draft plan.old }
    ensures fits { IsPlanOf handover.now.next.now.draft plan.new }
    ensures stays { HasStays (handover_of handover.now) (patient_count handover.now.next.now.draft) plan.new }
{
    for p in 0..handover.next.patients() {
        let stay = handover.kept_stay(PatientNo(p));
        plan.put(&Write::SetStay(PatientNo(p), stay));
    }
}

// Gives a room the nurses that the next ward keeps.
fn carry_room(handover: &Handover<'_>, plan: &mut Plan, room: RoomNo)
    requires room { room.0 < room_count handover.now.next.now.draft }
    requires fits { IsPlanOf handover.now.next.now.draft plan.old }
    requires nurses { HasNurses (handover_of handover.now) room.0 plan.old }
    ensures fits { IsPlanOf handover.now.next.now.draft plan.new }
    ensures nurses { HasNurses (handover_of handover.now) (room.0 + 1) plan.new }
    ensures stays { plan.new.stays ≡ plan.old.stays }
{
    for k in 0..handover.next.shifts() {
        let nurse = handover.kept_nurse(room, Shift(k));
        plan.put(&Write::SetCare(room, Shift(k), nurse));
    }
}

/// The timetable of the next ward that has what is kept, and nothing else.
pub fn carry(alloc: Global, handover: &Handover<'_>) -> Result<Plan, AllocError>
    ensures { IfOk result (IsCarried (handover_of handover.now)) }
{
    let mut plan = Plan::empty(alloc, handover.next)?;
    carry_stays(handover, &mut plan);
    for r in 0..handover.next.rooms() {
        carry_room(handover, &mut plan, RoomNo(r));
    }
    Ok(plan)
}
