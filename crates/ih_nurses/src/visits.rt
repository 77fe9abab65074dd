//! What is the same in every shift of a patient's placement, looked up once for all of them.

ghost use Rattle.std.specs.Prelude.{◌≡◌, ◌<◌, ◌≤◌, ◌-◌, ◌*◌, true, Some, slice_index, IfSome};
ghost use Rattle.ih_tables.specs.Sizes.{patient_count, shift_count};
ghost use Rattle.ih_plan.specs.Timetable.{IsPlanOf, IsPlacement, stay_of, care_of};
ghost use Rattle.ih_plan.specs.{Persons.person_of, Presence.day_of};
ghost use Rattle.ih_nurses.specs.{Loads.load_of_stay, Visits.IsBefore, Visits.IsVisitOf, Visits.has_day};
ghost use Rattle.ih_nurses.specs.Visits.{patient_of, placement_of};

use crate::own::stay_load;
use ih_plan::{Placement, Plan};
use ih_tables::{Instance, NurseNo, PatientNo, Shift};

/// How a patient's present stay lies to a placement.
#[derive(Clone, Copy)]
pub enum Before {
    /// No day of the placement is one of the present stay's, or there is none.
    Apart,
    /// The present stay has the placement's room and its first day.
    Same,
    /// The present stay, which is another.
    Other(Placement),
}

/// What is the same in every shift of a patient's placement.
#[derive(Clone, Copy)]
pub struct Visit<'a> {
    pub(crate) patient: PatientNo,
    pub(crate) at: Placement,
    // What the patient asks of a nurse in each shift of a stay, from the first on.
    pub(crate) workload: &'a [u32],
    pub(crate) skill: &'a [u32],
    // How the present stay lies to the placement.
    pub(crate) before: Before,
}

// How a patient's present stay lies to a placement.
#[tactic(auto, unfolding(ih_plan::specs::Persons::person_of))]
fn present_stay(
    inst: &Instance,
    patient: PatientNo,
    old: Option<Placement>,
    at: Placement,
) -> Before
    requires patient { patient.0 < patient_count inst.now.draft }
    requires old { IfSome old (IsPlacement inst.now.draft) }
    requires placement { IsPlacement inst.now.draft at }
    ensures { IsBefore inst.now.draft patient.0 old at result }
{
    let len = inst.patient(patient).length_of_stay;
    match old {
        None => Before::Apart,
        Some(stay) => {
            if stay.room.0 == at.room.0 && stay.day.0 == at.day.0 {
                Before::Same
            } else if stay.day.0 + len <= at.day.0 || at.day.0 + len <= stay.day.0 {
                Before::Apart
            } else {
                Before::Other(stay)
            }
        }
    }
}

impl<'a> Visit<'a> {
    /// What is the same in every shift of a placement of a patient, whose stay is `old` so far.
    #[tactic(auto, unfolding(ih_plan::specs::Persons::person_of))]
    pub fn new(
        inst: &'a Instance,
        patient: PatientNo,
        old: Option<Placement>,
        at: Placement,
    ) -> Visit<'a>
        requires patient { patient.0 < patient_count inst.now.draft }
        requires old { IfSome old (IsPlacement inst.now.draft) }
        requires placement { IsPlacement inst.now.draft at }
        ensures patient { patient_of result ≡ patient }
        ensures placement { placement_of result ≡ at }
        ensures visit { IsVisitOf inst.now.draft old result }
    {
        let a = inst.patient(patient);
        Visit {
            patient,
            at,
            workload: a.workload_produced.as_slice(),
            skill: a.skill_level_required.as_slice(),
            before: present_stay(inst, patient, old, at),
        }
    }
}

/// The workload that the patient's present stay gives, in a shift of a placement, to the nurse who has the placement's
/// room. The patient makes the workload `come` in that shift of the placement.
#[inline(always)]
pub fn present_stay_load(
    inst: &Instance,
    plan: &Plan,
    visit: &Visit<'_>,
    nurse: NurseNo,
    shift: Shift,
    come: u32,
) -> u32
    requires plan { IsPlanOf inst.now.draft plan.now }
    requires counted { has_day inst.now.draft visit.now.patient.0 (Some visit.now.at) (day_of shift.0) ≡ true }
    requires shift { shift.0 < shift_count inst.now.draft }
    requires nurse { care_of plan.now visit.now.at.room.0 shift.0 ≡ Some nurse.0 }
    requires visit { IsVisitOf inst.now.draft (stay_of plan.now visit.now.patient.0) visit.now }
    requires come { come
        ≡ slice_index (person_of inst.now.draft visit.now.patient.0).workload (shift.0 - 3 * visit.now.at.day.0) }
    requires small { come ≤ 100000 }
    ensures value { result
        ≡ load_of_stay inst.now.draft plan.now visit.now.patient.0
        (stay_of plan.now visit.now.patient.0) nurse.0 shift.0 }
    ensures bound { result ≤ 100000 }
{
    match visit.before {
        Before::Apart => 0,
        Before::Same => come,
        Before::Other(stay) => stay_load(
            inst,
            plan,
            visit.patient,
            visit.workload,
            stay,
            nurse,
            shift,
        ),
    }
}
