//! What one patient's stay asks of a nurse in a shift.

ghost use Rattle.std.specs.Prelude.{◌≡◌, ◌<◌, ◌≤◌, ◌-◌, ◌*◌, length, slice_index};
ghost use Rattle.ih_tables.specs.Sizes.{patient_count, shift_count};
ghost use Rattle.ih_plan.specs.{Timetable.IsPlanOf, Timetable.IsPlacement, Persons.person_of};
ghost use Rattle.ih_nurses.specs.Loads.{stay_load};

use crate::choices::is_nurse;
use ih_plan::{Placement, Plan, nurse_at};
use ih_tables::{Instance, NurseNo, PatientNo, Shift};

/// What a list with an entry for each shift of a stay has for a shift.
#[inline(always)]
pub fn entry(list: &[u32], at: Placement, shift: Shift) -> u32
    requires begun { 3 * at.day.0 ≤ shift.0 }
    requires inside { shift.0 - 3 * at.day.0 < length list.now }
    ensures { result ≡ slice_index list.now (shift.0 - 3 * at.day.0) }
{
    list[(shift.0 - 3 * at.day.0) as usize]
}

// What a list with an entry for each shift of a stay has for a shift: 0 past the list's end.
#[inline(always)]
fn entry_or_none(list: &[u32], at: Placement, shift: Shift) -> u32
    requires { 3 * at.day.0 ≤ shift.0 }
    ensures { result ≡ slice_index list.now (shift.0 - 3 * at.day.0) }
{
    let place = (shift.0 - 3 * at.day.0) as usize;
    list.get(place).copied().unwrap_or(0)
}

/// The workload that a patient's stay gives to a nurse in a shift, by the patient's list of workloads.
#[inline(always)]
pub fn stay_load(
    inst: &Instance,
    plan: &Plan,
    patient: PatientNo,
    workload: &[u32],
    at: Placement,
    nurse: NurseNo,
    shift: Shift,
) -> u32
    requires plan { IsPlanOf inst.now.draft plan.now }
    requires patient { patient.0 < patient_count inst.now.draft }
    requires workload { workload.now ≡ (person_of inst.now.draft patient.0).workload }
    requires placement { IsPlacement inst.now.draft at }
    requires shift { shift.0 < shift_count inst.now.draft }
    ensures value { result ≡ stay_load inst.now.draft plan.now patient.0 at nurse.0 shift.0 }
    ensures bound { result ≤ 100000 }
{
    if 3 * at.day.0 <= shift.0 && is_nurse(nurse_at(inst, plan, at.room, shift), nurse) {
        entry_or_none(workload, at, shift)
    } else {
        0
    }
}
