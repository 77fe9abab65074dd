//! Ledgers that take over a whole timetable, entry by entry.

ghost use Rattle.std.specs.Prelude.{◌≡◌, ◌<◌, ◌*◌, ◌+◌, take};
ghost use Rattle.ih_tables.specs.Sizes.{room_count, shift_count};
ghost use Rattle.ih_plan.specs.Timetable.{IsPlanOf};
ghost use Rattle.ih_costs.specs.CellLedgers.{AreLedgersOf, AreLedgers, timetable_of};

use crate::cell_ledgers::CellLedgers;
use ih_plan::{Plan, Write};
use ih_tables::{Instance, PatientNo, RoomNo, Shift};

// The stays of all patients.
fn copy_stays(inst: &Instance, ledgers: &mut CellLedgers, plan: &Plan)
    requires stands { AreLedgers inst.now.draft ledgers.old }
    requires plan { IsPlanOf inst.now.draft plan.now }
    ensures stands { AreLedgers inst.now.draft ledgers.new }
    ensures stays { (timetable_of ledgers.new).stays ≡ plan.now.stays }
{
    for p in 0..inst.patients() {
        let p = PatientNo(p);
        ledgers.put(inst, &Write::SetStay(p, plan.stay(p)));
    }
}

// The nurses of a room, where those of the rooms before it are there.
fn copy_room(inst: &Instance, ledgers: &mut CellLedgers, plan: &Plan, room: RoomNo)
    requires stands { AreLedgers inst.now.draft ledgers.old }
    requires plan { IsPlanOf inst.now.draft plan.now }
    requires room { room.0 < room_count inst.now.draft }
    requires before { take (shift_count inst.now.draft * room.0) (timetable_of ledgers.old).cares
        ≡ take (shift_count inst.now.draft * room.0) plan.now.cares }
    ensures stands { AreLedgers inst.now.draft ledgers.new }
    ensures stays { (timetable_of ledgers.new).stays ≡ (timetable_of ledgers.old).stays }
    ensures cares { take (shift_count inst.now.draft * (room.0 + 1)) (timetable_of ledgers.new).cares
        ≡ take (shift_count inst.now.draft * (room.0 + 1)) plan.now.cares }
{
    for k in 0..inst.shifts() {
        let k = Shift(k);
        ledgers.put(inst, &Write::SetCare(room, k, plan.care(room, k)));
    }
}

// The nurses of all rooms.
fn copy_cares(inst: &Instance, ledgers: &mut CellLedgers, plan: &Plan)
    requires stands { AreLedgers inst.now.draft ledgers.old }
    requires plan { IsPlanOf inst.now.draft plan.now }
    ensures stands { AreLedgers inst.now.draft ledgers.new }
    ensures stays { (timetable_of ledgers.new).stays ≡ (timetable_of ledgers.old).stays }
    ensures cares { (timetable_of ledgers.new).cares ≡ plan.now.cares }
{
    for r in 0..inst.rooms() {
        copy_room(inst, ledgers, plan, RoomNo(r));
    }
}

/// Makes the ledgers stand for a timetable.
pub fn copy_plan(inst: &Instance, ledgers: &mut CellLedgers, plan: &Plan)
    requires stands { AreLedgers inst.now.draft ledgers.old }
    requires plan { IsPlanOf inst.now.draft plan.now }
    ensures { AreLedgersOf inst.now.draft plan.now ledgers.new }
{
    copy_stays(inst, ledgers, plan);
    copy_cares(inst, ledgers, plan);
}
