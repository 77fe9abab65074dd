//! The cheapest admission of a patient.

ghost use Rattle.std.specs.Prelude.{◌≡◌, ◌<◌, IfSome};
ghost use Rattle.ih_tables.specs.Sizes.{patient_count};
ghost use Rattle.ih_plan.specs.Timetable.{IsPlacement};
ghost use Rattle.ih_waiting.specs.Admissions.{cheapest_admission, place_in};
ghost use Rattle.ih_waiting.specs.ScorerUse.{IsForAdmissions};

use crate::stays::first_stay;
use ih_fill::{Scorer, cheapest_stay};
use ih_plan::{Placement, Write};
use ih_tables::{Instance, PatientNo};

// Where a write of a stay puts the patient.
fn place_in(write: &Write) -> Option<Placement>
    ensures { result ≡ place_in write.now }
{
    match *write {
        Write::SetStay(_, stay) => stay,
        Write::SetCare(_, _, _) => None,
    }
}

/// Where the cheapest admission puts the patient: of all stays that the patient may get, the first of least score.
pub fn cheapest_admission(
    inst: &Instance,
    scorer: &Scorer<'_>,
    patient: PatientNo,
) -> Option<Placement>
    requires scorer { IsForAdmissions inst.now.draft scorer.now }
    requires patient { patient.0 < patient_count inst.now.draft }
    ensures cheapest { result ≡ cheapest_admission inst.now.draft scorer.now.plan patient.0 }
    ensures inside { IfSome result (λ place. IsPlacement inst.now.draft place) }
{
    let data = inst.patient(patient);
    match first_stay(inst, patient, data) {
        None => None,
        Some(place) => {
            let first = scorer.stay(patient, place);
            let best = cheapest_stay(inst, scorer, patient, data, first);
            place_in(&best.write)
        }
    }
}
