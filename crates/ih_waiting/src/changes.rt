//! What an admission changes in the bill.

ghost use Rattle.std.specs.Prelude.{◌≡◌, ◌<◌, ◌≤◌, ◌^◌, ◌*◌, ◌≤ℤ◌, pos, length};
ghost use Rattle.ih_tables.specs.{Bills.at, Bills.AreWithin, Bills.IsWithin, Sizes.patient_count};
ghost use Rattle.ih_plan.specs.Sums.{sum_below};
ghost use Rattle.ih_plan.specs.Timetable.{IsPlacement};
ghost use Rattle.ih_waiting.specs.Admissions.{broken_more, change_by, rise};
ghost use Rattle.ih_waiting.specs.ScorerUse.{IsForAdmissions};

use ih_fill::Scorer;
use ih_plan::{Placement, Write};
use ih_tables::{Bill, Instance, PatientNo};

/// What admitting the patient at a place changes in the bill.
pub fn change_by(inst: &Instance, scorer: &Scorer<'_>, patient: PatientNo, place: Placement) -> Bill
    requires scorer { IsForAdmissions inst.now.draft scorer.now }
    requires patient { patient.0 < patient_count inst.now.draft }
    requires place { IsPlacement inst.now.draft place }
    ensures value { result ≡ change_by inst.now.draft scorer.now.plan patient.0 place }
    ensures within { IsWithin (10 ^ 11) result }
{
    // For the proof alone.
    scorer.fits();
    scorer.price(&Write::SetStay(patient, Some(place)))
}

// By how much a number goes up.
fn rise(change: i64) -> u64
    requires { change ≤ℤ pos (10 ^ 11) }
    ensures value { result ≡ rise change }
    ensures small { result ≤ 10 ^ 11 }
{
    if change > 0 { change as u64 } else { 0 }
}

// By how much the numbers that go up do so.
#[tactic(auto, using(ih_plan::proofs::SumLemmas::sum_steps))]
fn rises(changes: &[i64]) -> u64
    requires short { length changes.now ≤ 9 }
    requires within { AreWithin (10 ^ 11) (length changes.now) changes.now }
    ensures { result ≡ sum_below (length changes.now) (λ k. rise (at changes.now k)) }
{
    let mut sum = 0;
    for k in 0..changes.len() {
        sum += rise(changes[k]);
    }
    sum
}

/// How many units of rules more are broken, where what is mended doesn't count.
#[tactic(auto, unfolding(crate::specs::Admissions::broken_more))]
pub fn broken_more(change: &Bill) -> u64
    requires { IsWithin (10 ^ 11) change.now }
    ensures { result ≡ broken_more change.now }
{
    rises(&change.v)
}
