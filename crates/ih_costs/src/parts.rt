//! Each cell's part of the bill.

ghost use Rattle.std.specs.Prelude.{◌≡◌, ◌<◌};
ghost use Rattle.ih_tables.specs.{Sizes.patient_count, declared.cells.Cell.TheVariants.Stay};
ghost use Rattle.ih_plan.specs.{BillOf.as_bill, Cells.IsCellOf, Cells.part_at};
ghost use Rattle.ih_costs.specs.CellLedgers.{AreLedgers, timetable_of};

use crate::cell_ledgers::CellLedgers;
use crate::stays::stay_bill;
use ih_tables::{Bill, Cell, Instance, PatientNo};

impl CellLedgers {
    fn stay_part(&self, inst: &Instance, patient: PatientNo) -> Bill
        requires stands { AreLedgers inst.now.draft self.now }
        requires patient { patient.0 < patient_count inst.now.draft }
        ensures { result ≡ as_bill (part_at inst.now.draft (timetable_of self.now) (Stay patient)) }
    {
        stay_bill(inst.patient(patient), self.plan().stay(patient))
    }

    /// A cell's part of the bill: the parts of all cells sum to the timetable's bill.
    pub fn part(&self, inst: &Instance, cell: Cell) -> Bill
        requires stands { AreLedgers inst.now.draft self.now }
        requires cell { IsCellOf inst.now.draft cell }
        ensures { result ≡ as_bill (part_at inst.now.draft (timetable_of self.now) cell) }
    {
        match cell {
            Cell::Stay(p) => self.stay_part(inst, p),
            Cell::RoomDay(r, d) => self.room_days.cell_bill(inst, r, d),
            Cell::TheatreDay(t, d) => self.theatres.theatre_bill(inst, t, d),
            Cell::SurgeonDay(s, d) => self.theatres.surgeon_bill(inst, s, d),
            Cell::RoomShift(r, k) => self.nurses.room_shift_bill(inst, r, k),
            Cell::NurseShift(n, k) => self.nurses.nurse_shift_bill(inst, n, k),
            Cell::Care(x) => self.nurses.care_bill(inst, x),
        }
    }
}
