//! What a placement of a patient makes its room and that room's nurse cost more in one shift.

ghost use Rattle.std.specs.Prelude.{◌≡◌, ◌<◌, ◌≤◌, ◌-◌, ◌*◌, pos, true, Some, length, slice_index};
ghost use Rattle.ih_tables.specs.Sizes.{room_count, shift_count, nurse_count};
ghost use Rattle.ih_links.specs.Lists.{without};
ghost use Rattle.ih_plan.specs.Timetable.{Timetable, stay_of, care_of};
ghost use Rattle.ih_plan.specs.Presence.{day_of, present};
ghost use Rattle.ih_plan.specs.{Costs.is_empty, Costs.skill_level, Sums.bit};
ghost use Rattle.ih_nurses.specs.Deltas.{uncovered_in, missing_in, overload_in, excess_in, increase_by_placement};
ghost use Rattle.ih_nurses.specs.{Ledger.IsLedgerOf, Ledger.plan_of, Visits.IsVisitOf, Visits.has_day};
ghost use Rattle.ih_nurses.specs.Visits.{patient_of, placement_of};

use crate::Nurses;
use crate::loads::{load, overload};
use crate::own::entry;
use crate::rooms::has_others;
use crate::visits::{Visit, present_stay_load};
use ih_plan::{Placement, bit, nurse_at};
use ih_tables::{Instance, NurseNo, PatientNo, RoomNo, Shift};

/// What a shift of a placement's room costs more with the patient there than without.
#[derive(Clone, Copy)]
pub struct ShiftDelta {
    /// 1 where the room has no nurse, and nobody but the patient, and 0 where not.
    pub uncovered: u32,
    /// The skill above the nurse's that the patient requires.
    pub missing_skill: u32,
    /// The workload above the nurse's maximum that comes with the patient.
    pub overload: u32,
}

// The skill above the nurse's that the patient requires in a shift of the placement.
#[inline(always)]
fn skill_delta(inst: &Instance, nurse: NurseNo, shift: Shift, at: Placement, skill: &[u32]) -> u32
    requires nurse { nurse.0 < nurse_count inst.now.draft }
    requires begun { 3 * at.day.0 ≤ shift.0 }
    requires inside { shift.0 - 3 * at.day.0 < length skill.now }
    ensures { result ≡ slice_index skill.now (shift.0 - 3 * at.day.0) - skill_level inst.now.draft nurse.0 }
{
    entry(skill, at, shift).saturating_sub(inst.nurse(nurse).skill_level)
}

impl Nurses {
    // 1 where nobody but the patient is in the room, and 0 where not.
    #[inline(always)]
    fn alone_delta(&self, inst: &Instance, room: RoomNo, shift: Shift, patient: PatientNo) -> u32
        requires room { room.0 < room_count inst.now.draft }
        requires shift { shift.0 < shift_count inst.now.draft }
        requires stands { (P : Timetable) × IsLedgerOf inst.now.draft P self.now }
        ensures { (P : Timetable) → IsLedgerOf inst.now.draft P self.now
            → result ≡ bit (is_empty (without patient.0 (present inst.now.draft P room.0 (day_of shift.0)))) }
    {
        bit(!has_others(&self.here[(shift.0 / 3) as usize], room, patient.0))
    }

    // The workload above the maximum that comes with the patient to the nurse who has the room in the shift.
    #[inline(always)]
    fn load_delta(&self, inst: &Instance, nurse: NurseNo, shift: Shift, visit: &Visit<'_>) -> u32
        requires nurse { nurse.0 < nurse_count inst.now.draft }
        requires shift { shift.0 < shift_count inst.now.draft }
        requires counted { has_day inst.now.draft (patient_of visit.now).0 (Some (placement_of visit.now))
            (day_of shift.0)
            ≡ true }
        requires stands { (P : Timetable) × IsLedgerOf inst.now.draft P self.now
            × (care_of P (placement_of visit.now).room.0 shift.0 ≡ Some nurse.0) }
        requires visit { IsVisitOf inst.now.draft (stay_of (plan_of self.now) (patient_of visit.now).0) visit.now }
        ensures { (P : Timetable) → IsLedgerOf inst.now.draft P self.now
            → pos result ≡ increase_by_placement P (patient_of visit.now) (placement_of visit.now)
            (λ Q. overload_in inst.now.draft Q nurse shift) }
    {
        let all = load(inst, self.loads.as_slice(), nurse, shift);
        let come = entry(visit.workload, visit.at, shift);
        let gone = present_stay_load(inst, &self.plan, visit, nurse, shift, come);
        let without = all.work - gone;
        let with = without + come;
        overload(all, with) - overload(all, without)
    }

    /// What a shift of a placement's room costs more with the patient there than without.
    #[inline(always)]
    pub fn shift_delta(&self, inst: &Instance, shift: Shift, visit: &Visit<'_>) -> ShiftDelta
        requires shift { shift.0 < shift_count inst.now.draft }
        requires counted { has_day inst.now.draft (patient_of visit.now).0 (Some (placement_of visit.now))
            (day_of shift.0)
            ≡ true }
        requires stands { (P : Timetable) × IsLedgerOf inst.now.draft P self.now }
        requires visit { IsVisitOf inst.now.draft (stay_of (plan_of self.now) (patient_of visit.now).0) visit.now }
        ensures uncovered { (P : Timetable) → IsLedgerOf inst.now.draft P self.now
            → pos result.uncovered ≡ increase_by_placement P (patient_of visit.now) (placement_of visit.now)
            (λ Q. uncovered_in inst.now.draft Q (placement_of visit.now).room shift) }
        ensures missing_skill { (P : Timetable) → IsLedgerOf inst.now.draft P self.now
            → pos result.missing_skill ≡ increase_by_placement P (patient_of visit.now) (placement_of visit.now)
            (λ Q. missing_in inst.now.draft Q (placement_of visit.now).room shift) }
        ensures overload { (P : Timetable) → IsLedgerOf inst.now.draft P self.now
            → pos result.overload ≡ increase_by_placement P (patient_of visit.now) (placement_of visit.now)
            (λ Q. excess_in inst.now.draft Q (placement_of visit.now).room shift) }
    {
        match nurse_at(inst, &self.plan, visit.at.room, shift) {
            None => ShiftDelta {
                uncovered: self.alone_delta(inst, visit.at.room, shift, visit.patient),
                missing_skill: 0,
                overload: 0,
            },
            Some(n) => ShiftDelta {
                uncovered: 0,
                missing_skill: skill_delta(inst, n, shift, visit.at, visit.skill),
                overload: self.load_delta(inst, n, shift, visit),
            },
        }
    }
}
