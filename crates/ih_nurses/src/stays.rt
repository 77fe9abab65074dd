//! What a patient's stay adds to the loads of its room's nurses.

ghost use Rattle.std.specs.Prelude.{◌≡◌, ◌<◌, ◌≤◌, ◌+◌, ◌-◌, ◌*◌, ℕ, slice_index};
ghost use Rattle.ih_tables.specs.Sizes.{patient_count, nurse_count, shift_count};
ghost use Rattle.ih_plan.specs.{Persons.person_of};
ghost use Rattle.ih_nurses.specs.Loads.{IsStayOf, IsTable, load_at, stay_load};

use crate::loads::{NurseLoad, add_load, take_load};
use ih_plan::{Placement, Plan, end_of, nurse_at};
use ih_tables::{Instance, PatientNo, Shift};

/// The workload that a patient makes in a shift of its stay.
#[tactic(auto, unfolding(ih_plan::specs::Persons::person_of))]
pub fn workload(inst: &Instance, patient: PatientNo, at: Placement, shift: u32) -> u32
    requires patient { patient.0 < patient_count inst.now.draft }
    requires begun { 3 * at.day.0 ≤ shift }
    ensures value { result ≡ slice_index (person_of inst.now.draft patient.0).workload (shift - 3 * at.day.0) }
    ensures bound { result ≤ 100000 }
{
    let place = (shift - 3 * at.day.0) as usize;
    let a = inst.patient(patient);
    a.workload_produced
        .as_slice()
        .get(place)
        .copied()
        .unwrap_or(0)
}

/// Adds a stay to the loads of its room's nurses.
pub fn add_stay(
    inst: &Instance,
    plan: &Plan,
    loads: &mut [NurseLoad],
    patient: PatientNo,
    at: Placement,
)
    requires stay { IsStayOf inst.now.draft plan.now patient at }
    requires table { IsTable inst.now.draft loads.old }
    requires small { (n k : ℕ) → n < nurse_count inst.now.draft → k < shift_count inst.now.draft
        → load_at inst.now.draft loads.old n k ≤ 256000000 }
    ensures table { IsTable inst.now.draft loads.new }
    ensures each { (n k : ℕ) → n < nurse_count inst.now.draft → k < shift_count inst.now.draft
        → load_at inst.now.draft loads.new n k
        ≡ load_at inst.now.draft loads.old n k + stay_load inst.now.draft plan.now patient.0 at n k }
{
    let end = end_of(inst, patient, at);
    for k in 3 * at.day.0..3 * end {
        let load = workload(inst, patient, at, k);
        let nurse = nurse_at(inst, plan, at.room, Shift(k));
        add_load(inst, loads, nurse, Shift(k), load);
    }
}

/// Takes a stay from the loads of its room's nurses.
pub fn take_stay(
    inst: &Instance,
    plan: &Plan,
    loads: &mut [NurseLoad],
    patient: PatientNo,
    at: Placement,
)
    requires stay { IsStayOf inst.now.draft plan.now patient at }
    requires table { IsTable inst.now.draft loads.old }
    requires enough { (n k : ℕ) → n < nurse_count inst.now.draft → k < shift_count inst.now.draft
        → stay_load inst.now.draft plan.now patient.0 at n k ≤ load_at inst.now.draft loads.old n k }
    ensures table { IsTable inst.now.draft loads.new }
    ensures each { (n k : ℕ) → n < nurse_count inst.now.draft → k < shift_count inst.now.draft
        → load_at inst.now.draft loads.new n k + stay_load inst.now.draft plan.now patient.0 at n k
        ≡ load_at inst.now.draft loads.old n k }
{
    let end = end_of(inst, patient, at);
    for k in 3 * at.day.0..3 * end {
        let load = workload(inst, patient, at, k);
        let nurse = nurse_at(inst, plan, at.room, Shift(k));
        take_load(inst, loads, nurse, Shift(k), load);
    }
}
