//! Surgeries by theatres and by surgeons, day by day.

ghost use Rattle.std.specs.Prelude.{◌≡◌, ◌<◌, ◌≤◌, ◌*◌, ◌^◌, ℕ, length, slice_index};
ghost use Rattle.ih_tables.specs.Sizes.{patient_count};
ghost use Rattle.ih_plan.specs.{Timetable.IsPlanOf, Sums.sum_below};
ghost use Rattle.ih_validate.specs.Surgery.{
  AreOperated,
  IsResourceOf,
  count_of,
  has_surgery,
  is_patient_of,
  limit_of,
  one_of,
};
ghost use Rattle.ih_validate.specs.Surgery.{operated_on, patients_of};

use crate::number_lists::NumberList;
use ih_plan::Plan;
use ih_tables::{Instance, PatientNo, SurgeonNo, TheatreNo};

/// All theatres, or all surgeons.
#[derive(Clone, Copy)]
pub enum ResourceKind {
    Theatres,
    Surgeons,
}

/// How many there are.
pub fn count_of(inst: &Instance, kind: ResourceKind) -> u32
    ensures { result ≡ count_of inst.now.draft kind }
{
    match kind {
        ResourceKind::Theatres => inst.theatres(),
        ResourceKind::Surgeons => inst.surgeons(),
    }
}

/// A theatre or a surgeon, whose surgeries are looked at.
#[derive(Clone, Copy)]
pub enum Resource {
    OfTheatre(TheatreNo),
    OfSurgeon(SurgeonNo),
}

/// The theatre or the surgeon of a number.
pub fn one_of(kind: ResourceKind, number: u32) -> Resource
    ensures { result ≡ one_of kind number }
{
    match kind {
        ResourceKind::Theatres => Resource::OfTheatre(TheatreNo(number)),
        ResourceKind::Surgeons => Resource::OfSurgeon(SurgeonNo(number)),
    }
}

fn is_patient_of(inst: &Instance, plan: &Plan, resource: Resource, patient: PatientNo) -> bool
    requires plan { IsPlanOf inst.now.draft plan.now }
    requires patient { patient.0 < patient_count inst.now.draft }
    ensures { result ≡ is_patient_of inst.now.draft plan.now resource patient.0 }
{
    match resource {
        Resource::OfTheatre(t) => match plan.stay(patient) {
            None => false,
            Some(at) => at.theatre.0 == t.0,
        },
        Resource::OfSurgeon(s) => inst.patient(patient).surgeon_id.0 == s.0,
    }
}

/// Whether the patient has surgery there, or by the surgeon, on the day.
pub fn has_surgery(
    inst: &Instance,
    plan: &Plan,
    resource: Resource,
    day: u32,
    patient: PatientNo,
) -> bool
    requires plan { IsPlanOf inst.now.draft plan.now }
    requires patient { patient.0 < patient_count inst.now.draft }
    ensures { result ≡ has_surgery inst.now.draft plan.now resource day patient.0 }
{
    match plan.stay(patient) {
        None => match resource {
            Resource::OfTheatre(_) => false,
            Resource::OfSurgeon(_) => false,
        },
        Some(at) => match resource {
            Resource::OfTheatre(t) => at.theatre.0 == t.0 && at.day.0 == day,
            Resource::OfSurgeon(s) => inst.patient(patient).surgeon_id.0 == s.0 && at.day.0 == day,
        },
    }
}

fn on_day(numbers: &[u32], day: u32) -> u64
    ensures { result ≡ slice_index numbers.now day }
{
    numbers.get(day as usize).copied().unwrap_or(0) as u64
}

/// The minutes of surgery that there may be on the day.
pub fn limit_of(inst: &Instance, resource: Resource, day: u32) -> u64
    requires { IsResourceOf inst.now.draft resource }
    ensures { result ≡ limit_of inst.now.draft resource day }
{
    match resource {
        Resource::OfTheatre(t) => on_day(inst.theatre(t).availability.as_slice(), day),
        Resource::OfSurgeon(s) => on_day(inst.surgeon(s).max_surgery_time.as_slice(), day),
    }
}

// Lists all patients of the resource.
fn list_own(inst: &Instance, plan: &Plan, resource: Resource, own: &mut NumberList)
    requires { IsPlanOf inst.now.draft plan.now }
    ensures { own.new ≡ patients_of inst.now.draft plan.now resource }
{
    own.list_below(
        inst.patients(),
        |p| is_patient_of(inst, plan, resource, PatientNo(p)),
    );
}

// Lists those of them who have surgery on the day.
fn list_today(
    inst: &Instance,
    plan: &Plan,
    resource: Resource,
    day: u32,
    own: &[u32],
    today: &mut NumberList,
)
    requires plan { IsPlanOf inst.now.draft plan.now }
    requires own { own.now ≡ patients_of inst.now.draft plan.now resource }
    requires few { length own.now ≤ 2560 }
    ensures { today.new ≡ operated_on inst.now.draft plan.now resource day }
{
    today.list_among(
        own,
        |p| has_surgery(inst, plan, resource, day, PatientNo(p)),
    );
}

/// The sum of what each day costs by who has surgery then, each at most so much. All patients are looked through once,
/// and then the theatre's or the surgeon's own for each day.
pub fn sum_days<F: Fn(u32, &[u32]) -> u64>(
    inst: &Instance,
    plan: &Plan,
    resource: Resource,
    most: u64,
    each: F,
) -> u64
    requires plan { IsPlanOf inst.now.draft plan.now }
    requires callable { (d : ℕ) (ps : _) → AreOperated inst.now.draft plan.now resource d ps.now → F.pre each d ps }
    requires few { (d : ℕ) (ps : _) (x : ℕ) → F.post each d ps x → x ≤ most }
    requires fits { inst.now.draft.days * most < 2 ^ 64 }
    ensures sum { (f : ℕ → ℕ)
        → ((d : ℕ) (ps : _) (x : ℕ) → AreOperated inst.now.draft plan.now resource d ps.now → F.post each d ps x
        → x ≡ f d)
        → result ≡ sum_below inst.now.draft.days f }
    ensures bound { result ≤ inst.now.draft.days * most }
{
    let mut own = NumberList::new();
    let mut today = NumberList::new();
    list_own(inst, plan, resource, &mut own);
    let mut sum = 0;
    for d in 0..inst.days() {
        list_today(inst, plan, resource, d, own.as_slice(), &mut today);
        sum += each(d, today.as_slice());
    }
    sum
}
