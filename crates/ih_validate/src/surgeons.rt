//! Surgeons: changes of theatre within a day.

ghost use Rattle.std.specs.Prelude.{◌≡◌, ◌<◌, ◌≤◌, ◌-◌, ◌*◌, map, length, All};
ghost use Rattle.ih_tables.specs.Sizes.{patient_count};
ghost use Rattle.ih_plan.specs.Costs.{operated_by, theatre_of, theatres_used};
ghost use Rattle.ih_plan.specs.{Timetable.IsPlanOf, BillOf.transfers, Sums.sum_below};

use crate::marks::{count_marked, mark};
use crate::summing::sum_below;
use crate::surgery::{Resource, sum_days};
use ih_plan::Plan;
use ih_tables::{Instance, PatientNo, SurgeonNo};

fn theatre_at(plan: &Plan, patient: PatientNo) -> Option<u32>
    requires { patient.0 < length plan.now.stays }
    ensures { result ≡ theatre_of plan.now patient.0 }
{
    match plan.stay(patient) {
        None => None,
        Some(at) => Some(at.theatre.0),
    }
}

// How many theatres the patients have among them.
fn theatres_used(inst: &Instance, plan: &Plan, patients: &[u32]) -> u64
    requires plan { IsPlanOf inst.now.draft plan.now }
    requires patients { All (λ p. p < patient_count inst.now.draft) patients.now }
    ensures count { result ≡ theatres_used inst.now.draft (map (theatre_of plan.now) patients.now) }
    ensures bound { result ≤ 64 }
{
    let mut used = [false; 64];
    for p in patients {
        mark(&mut used, theatre_at(plan, PatientNo(*p)));
    }
    count_marked(&used, inst.theatres())
}

fn transfers_of(inst: &Instance, plan: &Plan, surgeon: SurgeonNo) -> u64
    requires { IsPlanOf inst.now.draft plan.now }
    ensures sum { result ≡ sum_below inst.now.draft.days
        (λ d. theatres_used inst.now.draft
        (map (theatre_of plan.now) (operated_by inst.now.draft plan.now surgeon.0 d)) - 1) }
    ensures bound { result ≤ 3584 }
{
    sum_days(inst, plan, Resource::OfSurgeon(surgeon), 64, |_d, today| {
        theatres_used(inst, plan, today).saturating_sub(1)
    })
}

/// For each surgeon and day with surgery, the distinct theatres less one.
#[tactic(auto, unfolding(ih_plan::specs::BillOf::transfers))]
pub fn transfers(inst: &Instance, plan: &Plan) -> u64
    requires { IsPlanOf inst.now.draft plan.now }
    ensures value { result ≡ transfers inst.now.draft plan.now }
    ensures bound { result ≤ 458752 }
{
    sum_below(
        inst.surgeons(),
        3584,
        |s| transfers_of(inst, plan, SurgeonNo(s)),
    )
}
