//! What another choice of nurse for a room's shift, or none, changes in the bill, told by the cells that it touches.

ghost use Rattle.std.specs.Prelude.{◌≡◌};
ghost use Rattle.ih_plan.specs.{declared.moves.Write.TheVariants.SetCare, Writes.put, Writes.IsWriteOf};
ghost use Rattle.ih_plan.specs.{BillOf.change_of_bill};
ghost use Rattle.ih_costs.specs.CellLedgers.{AreLedgers, timetable_of};

use crate::cell_ledgers::CellLedgers;
use ih_tables::bill_numbers::{
    CONTINUITY_OF_CARE, EXCESS_WORKLOAD, NURSE_PRESENCE, NURSE_SKILL, UNCOVERED_ROOM,
};
use ih_tables::{Bill, Instance, NurseNo, RoomNo, Shift};

impl CellLedgers {
    /// What another choice of nurse for a room's shift, or none, changes in the bill. It isn't made.
    pub fn choice_price(
        &self,
        inst: &Instance,
        room: RoomNo,
        shift: Shift,
        new: Option<NurseNo>,
    ) -> Bill
        requires stands { AreLedgers inst.now.draft self.now }
        requires write { IsWriteOf inst.now.draft (SetCare room shift new) }
        ensures { result ≡ change_of_bill inst.now.draft (timetable_of self.now)
            (put (SetCare room shift new) (timetable_of self.now)) }
    {
        let old = self.plan().care(room, shift);
        if new == old {
            return Bill::zero();
        }
        let delta = self.nurses.choice_delta(inst, room, shift, new);
        let mut bill = Bill::zero();
        bill.v[NURSE_PRESENCE] = delta.off;
        bill.v[UNCOVERED_ROOM] = delta.uncovered;
        bill.s[NURSE_SKILL] = delta.missing_skill;
        bill.s[CONTINUITY_OF_CARE] = delta.nurses_seen;
        bill.s[EXCESS_WORKLOAD] = delta.overload;
        bill
    }
}
