//! Three ledgers that stand for one timetable.

ghost use Rattle.std.specs.Prelude.{◌≡◌, ◌<◌, None, Some, IfOk};
ghost use Rattle.ih_tables.specs.{Sizes.patient_count, declared.ids.NurseNo.NurseNo};
ghost use Rattle.ih_plan.specs.Timetable.{empty, stay_of, IsPlacement};
ghost use Rattle.ih_plan.specs.{declared.moves.Placement.Placement, declared.moves.Write.TheVariants.SetStay};
ghost use Rattle.ih_plan.specs.{declared.moves.Write.TheVariants.SetCare, Writes.put, Writes.IsWriteOf};
ghost use Rattle.ih_costs.specs.CellLedgers.{AreLedgers, AreLedgersOf, timetable_of};

use ih_nurses::Nurses;
use ih_plan::{Placement, Plan, Write};
use ih_roomdays::RoomDays;
use ih_tables::{Instance, NurseNo, PatientNo, RoomNo, Shift};
use ih_theatres::Theatres;
use std::alloc::{AllocError, Global};

/// The ledgers of one timetable, which the ledger of nurses keeps.
#[derive(Drop)]
pub struct CellLedgers {
    pub room_days: RoomDays,
    pub theatres: Theatres,
    pub nurses: Nurses,
}

impl CellLedgers {
    /// The ledgers of the empty timetable. All later calls take no memory.
    pub fn new(alloc: Global, inst: &Instance) -> Result<CellLedgers, AllocError>
        ensures { IfOk result (λ l. AreLedgersOf inst.now.draft (empty inst.now.draft) l) }
    {
        let room_days = RoomDays::new(alloc, inst)?;
        let theatres = Theatres::new(alloc, inst)?;
        let nurses = Nurses::new(alloc, inst)?;
        Ok(CellLedgers {
            room_days,
            theatres,
            nurses,
        })
    }

    /// The timetable.
    pub fn plan(&self) -> &Plan
        ensures { result.now ≡ timetable_of self.now }
    {
        self.nurses.plan()
    }

    // Takes out a patient, where admitted.
    fn take_out(&mut self, inst: &Instance, patient: PatientNo)
        requires stands { AreLedgers inst.now.draft self.old }
        requires patient { patient.0 < patient_count inst.now.draft }
        ensures { AreLedgersOf inst.now.draft (put (SetStay patient None) (timetable_of self.old)) self.new }
    {
        if let Some(at) = self.plan().stay(patient) {
            self.room_days.leave(inst, patient, at);
            self.theatres.leave(inst, patient, at);
            self.nurses.leave(inst, patient, at);
        }
    }

    // Admits a patient who isn't admitted, where there is a placement.
    fn bring_in(&mut self, inst: &Instance, patient: PatientNo, stay: Option<Placement>)
        requires stands { AreLedgers inst.now.draft self.old }
        requires patient { patient.0 < patient_count inst.now.draft }
        requires placement { (at : Placement) → stay ≡ Some at → IsPlacement inst.now.draft at }
        requires out { stay_of (timetable_of self.old) patient.0 ≡ None }
        ensures { AreLedgersOf inst.now.draft (put (SetStay patient stay) (timetable_of self.old)) self.new }
    {
        if let Some(at) = stay {
            self.room_days.enter(inst, patient, at);
            self.theatres.enter(inst, patient, at);
            self.nurses.enter(inst, patient, at);
        }
    }

    fn set_stay(&mut self, inst: &Instance, patient: PatientNo, stay: Option<Placement>)
        requires stands { AreLedgers inst.now.draft self.old }
        requires write { IsWriteOf inst.now.draft (SetStay patient stay) }
        ensures { AreLedgersOf inst.now.draft (put (SetStay patient stay) (timetable_of self.old)) self.new }
    {
        self.take_out(inst, patient);
        self.bring_in(inst, patient, stay);
    }

    fn set_care(&mut self, inst: &Instance, room: RoomNo, shift: Shift, nurse: Option<NurseNo>)
        requires stands { AreLedgers inst.now.draft self.old }
        requires write { IsWriteOf inst.now.draft (SetCare room shift nurse) }
        ensures { AreLedgersOf inst.now.draft (put (SetCare room shift nurse) (timetable_of self.old)) self.new }
    {
        self.nurses.set_care(inst, room, shift, nurse);
    }

    /// Makes a write.
    pub fn put(&mut self, inst: &Instance, write: &Write)
        requires stands { AreLedgers inst.now.draft self.old }
        requires write { IsWriteOf inst.now.draft write.now }
        ensures { AreLedgersOf inst.now.draft (put write.now (timetable_of self.old)) self.new }
    {
        match *write {
            Write::SetStay(p, stay) => self.set_stay(inst, p, stay),
            Write::SetCare(r, k, n) => self.set_care(inst, r, k, n),
        }
    }
}
