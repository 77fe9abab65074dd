//! What candidates change on the ward of two patients.

ghost use Rattle.std.specs.Prelude.{◌≡◌};
ghost use Rattle.ih_plan.specs.Timetable.{IsPlanOf};
ghost use Rattle.ih_fixtures.specs.Two.{IsOfTwo};

use ih_fill::Scorer;
use ih_fixtures::{at, on_two_patients};
use ih_plan::{Plan, Write};
use ih_tables::{Instance, PatientNo};
use std::alloc::Global;

// Whether the candidates that the fill compares have these values: the mandatory patient's on the second day, in either
// theatre, which is less than on the first, and then the optional one's.
fn have_values(inst: &Instance, scorer: &mut Scorer<'_>) -> bool
    requires instance { scorer.old.instance ≡ inst.now.draft }
    requires two { IsOfTwo inst.now.draft }
{
    let later = at(1, 0, 0);
    let first = scorer.stay(PatientNo(0), later).value;
    let second = scorer.stay(PatientNo(0), at(1, 0, 1)).value;
    let earlier = scorer.stay(PatientNo(0), at(0, 0, 0)).value;
    scorer.put(&Write::SetStay(PatientNo(0), Some(later)));
    (first, second, earlier) == (-966, -966, -965)
        && scorer.stay(PatientNo(1), at(0, 1, 0)).value == -70
}

fn have_values_from(alloc: Global, inst: &Instance, empty: &Plan) -> bool
    requires plan { IsPlanOf inst.now.draft empty.now }
    requires two { IsOfTwo inst.now.draft }
{
    match Scorer::new(alloc, inst, 1_000, false, empty) {
        Ok(mut scorer) => have_values(inst, &mut scorer),
        Err(_) => false,
    }
}

#[tactic(auto, using(ih_plan::proofs::PlanRanges::plan_steps))]
fn are_valued(alloc: Global, inst: &Instance) -> bool
    requires { IsOfTwo inst.now.draft }
{
    match Plan::empty(alloc, inst) {
        Ok(empty) => have_values_from(alloc, inst, &empty),
        Err(_) => false,
    }
}

#[test]
fn candidates_have_the_values_of_what_they_change(rt: HostRuntime) {
    let alloc = rt.alloc();
    assert!(rt; on_two_patients(alloc, |inst| are_valued(alloc, inst)));
}
