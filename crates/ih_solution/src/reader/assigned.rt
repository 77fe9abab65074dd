//! A nurse's assignments, written into a timetable.

ghost use Rattle.std.specs.Prelude.{◌≡◌, ◌<◌, All};
ghost use Rattle.ih_tables.specs.Sizes.{nurse_count};
ghost use Rattle.ih_plan.specs.Timetable.{IsPlanOf};
ghost use Rattle.ih_solution.specs.Assigned.{IsInRange, with_rooms, with_assignments};

use crate::reader::rows::{Assignment, ListedNurse};
use ih_plan::{Plan, Write};
use ih_tables::{Instance, NurseNo};

// Gives the nurse the rooms of one shift.
fn assign(inst: &Instance, plan: &mut Plan, nurse: NurseNo, given: &Assignment)
    requires plan { IsPlanOf inst.now.draft plan.old }
    requires nurse { nurse.0 < nurse_count inst.now.draft }
    requires fits { IsInRange inst.now.draft given.now }
    ensures plan { IsPlanOf inst.now.draft plan.new }
    ensures gives { plan.new ≡ with_rooms nurse given.now.shift given.now.rooms plan.old }
{
    for room in given.rooms.as_slice() {
        plan.put(&Write::SetCare(*room, given.shift, Some(nurse)));
    }
}

/// Gives a nurse the rooms of all the nurse's assignments.
pub fn assign_all(inst: &Instance, plan: &mut Plan, row: &ListedNurse)
    requires plan { IsPlanOf inst.now.draft plan.old }
    requires nurse { row.now.nurse.0 < nurse_count inst.now.draft }
    requires fits { All (IsInRange inst.now.draft) row.now.assignments }
    ensures plan { IsPlanOf inst.now.draft plan.new }
    ensures gives { plan.new ≡ with_assignments row.now.nurse row.now.assignments plan.old }
{
    for given in row.assignments.as_slice() {
        assign(inst, plan, row.nurse, given);
    }
}
