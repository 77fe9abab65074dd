//! What a placement gives to a patient's care, told without making it.

ghost use Rattle.std.specs.Prelude.{◌≡◌, ◌<◌, ◌^◌};
ghost use Rattle.ih_tables.specs.{declared.cells.Cell.TheVariants.Care, Sizes.patient_count, Bills.IsWithin};
ghost use Rattle.ih_plan.specs.{Timetable.Timetable, Timetable.IsPlacement, Cells.delta_at};
ghost use Rattle.ih_nurses.specs.Ledger.{IsLedgerOf};

use crate::Nurses;
use crate::bills::{NursingCosts, difference};
use crate::seen::distinct_nurses_over;
use crate::shift_spans::stay_shift_span;
use ih_plan::Placement;
use ih_tables::{Bill, Instance, PatientNo};

// The costs of the distinct nurses of a stay alone.
fn nursed(nurses_seen: u32) -> NursingCosts
    ensures { result ≡ record { off = 0; uncovered = 0; missing_skill = 0; nurses_seen = nurses_seen; overload = 0 } }
{
    NursingCosts {
        off: 0,
        uncovered: 0,
        missing_skill: 0,
        nurses_seen,
        overload: 0,
    }
}

impl Nurses {
    /// How many nurses more a patient sees with a placement than without one. Each number is at most 10^11 in
    /// magnitude.
    pub fn care_delta(&self, inst: &Instance, patient: PatientNo, at: Placement) -> Bill
        requires patient { patient.0 < patient_count inst.now.draft }
        requires placement { IsPlacement inst.now.draft at }
        requires stands { (P : Timetable) × IsLedgerOf inst.now.draft P self.now }
        ensures delta { (P : Timetable) → IsLedgerOf inst.now.draft P self.now
            → result ≡ delta_at inst.now.draft P patient at (Care (record { 0 = patient.0 })) }
        ensures within { IsWithin (10 ^ 11) result }
    {
        let shift_span = stay_shift_span(inst, patient, Some(at));
        difference(
            nursed(distinct_nurses_over(inst, &self.plan, shift_span)),
            nursed(0),
        )
    }
}
