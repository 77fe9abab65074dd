//! Minutes of surgery, and those above the limits of theatres and of surgeons.

ghost use Rattle.std.specs.Prelude.{◌≡◌, ◌<◌, ◌≤◌, ◌*◌, length, All};
ghost use Rattle.ih_tables.specs.Sizes.{patient_count};
ghost use Rattle.ih_plan.specs.{Timetable.IsPlanOf, Costs.minutes};
ghost use Rattle.ih_validate.specs.Surgery.{IsResourceOf, overtime, overtime_of};

use crate::summing::sum_below;
use crate::surgery::{Resource, ResourceKind, count_of, limit_of, one_of, sum_days};
use ih_plan::Plan;
use ih_tables::{Instance, PatientNo};

/// The minutes of surgery of patients.
fn minutes(inst: &Instance, patients: &[u32]) -> u64
    requires patients { All (λ p. p < patient_count inst.now.draft) patients.now }
    requires few { length patients.now ≤ 2560 }
    ensures sum { result ≡ minutes inst.now.draft patients.now }
    ensures bound { result ≤ 4294967296 * 2560 }
{
    let mut sum = 0;
    for p in patients {
        sum += inst.patient(PatientNo(*p)).surgery_duration as u64;
    }
    sum
}

#[tactic(auto, unfolding(crate::specs::Surgery::overtime_of))]
fn overtime_of(inst: &Instance, plan: &Plan, resource: Resource) -> u64
    requires plan { IsPlanOf inst.now.draft plan.now }
    requires resource { IsResourceOf inst.now.draft resource }
    ensures value { result ≡ overtime_of inst.now.draft plan.now resource }
    ensures bound { result ≤ 615726511554560 }
{
    sum_days(inst, plan, resource, 4294967296 * 2560, |d, today| {
        minutes(inst, today).saturating_sub(limit_of(inst, resource, d))
    })
}

/// Minutes of surgery above each theatre's availability, or each surgeon's maximum, of a day.
pub fn overtime(inst: &Instance, plan: &Plan, kind: ResourceKind) -> u64
    requires { IsPlanOf inst.now.draft plan.now }
    ensures value { result ≡ overtime inst.now.draft plan.now kind }
    ensures bound { result ≤ 615726511554560 * 128 }
{
    sum_below(
        count_of(inst, kind),
        615726511554560,
        |i| overtime_of(inst, plan, one_of(kind, i)),
    )
}
