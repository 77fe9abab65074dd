//! A line for each patient who waits.

ghost use Rattle.std.specs.Prelude.{◌≡◌, ◌<◌, ◌^◌, ◌++◌, [], IfOk, IfSome, OnOk, if◌then◌else◌, string_bytes};
ghost use Rattle.ih_tables.specs.{Bills.IsWithin, Sizes.patient_count};
ghost use Rattle.ih_plan.specs.Timetable.{IsPlacement, IsPlanOf};
ghost use Rattle.ih_fill.specs.Fill.{is_waiting};
ghost use Rattle.ih_waiting.specs.ScorerUse.{IsForAdmissions};
ghost use Rattle.ih_waiting.specs.Waiting.{admission_text, day_text, lines_of, patient_line, waiting_text};

use crate::admissions::cheapest_admission;
use crate::changes::{broken_more, change_by};
use crate::sentences::{Text, change_text, line_text, no_day_text, place_text};
use ih_fill::Scorer;
use ih_plan::{MAX_HARD, Placement, Plan};
use ih_tables::{Bill, Instance, PatientNo};
use std::alloc::{AllocError, Global};

// What appending gives: it fails only where memory runs out.
type Put = Result<(), AllocError>;

// A place, and what an admission there changes.
#[tactic(auto, unfolding(crate::specs::Waiting::admission_text))]
fn admission_text(alloc: Global, inst: &Instance, place: Placement, change: &Bill) -> Text
    requires place { IsPlacement inst.now.draft place }
    requires within { IsWithin (10 ^ 11) change.now }
    ensures { IfOk result (λ s. string_bytes s ≡ admission_text inst.now.draft place change.now) }
{
    let room = inst.room(place.room).id.as_str();
    let theatre = inst.theatre(place.theatre).id.as_str();
    let mut text = place_text(alloc, place.day.0, room, theatre)?;
    let change = change_text(alloc, broken_more(change), change.cost(inst.weights()))?;
    text.push_str(change.as_str())?;
    Ok(text)
}

// On which day a patient could come, and where to.
fn day_text(
    alloc: Global,
    inst: &Instance,
    scorer: &Scorer<'_>,
    patient: PatientNo,
    place: Option<Placement>,
) -> Text
    requires scorer { IsForAdmissions inst.now.draft scorer.now }
    requires patient { patient.0 < patient_count inst.now.draft }
    requires inside { IfSome place (λ place. IsPlacement inst.now.draft place) }
    ensures { IfOk result (λ s. string_bytes s ≡ day_text inst.now.draft scorer.now.plan patient.0 place) }
{
    match place {
        None => no_day_text(alloc),
        Some(place) => {
            let change = change_by(inst, scorer, patient, place);
            admission_text(alloc, inst, place, &change)
        }
    }
}

// What is said of a patient.
#[tactic(auto, unfolding(crate::specs::Waiting::patient_line))]
fn patient_line(
    alloc: Global,
    inst: &Instance,
    scorer: &Scorer<'_>,
    mandatory: bool,
    patient: PatientNo,
) -> Text
    requires scorer { IsForAdmissions inst.now.draft scorer.now }
    requires patient { patient.0 < patient_count inst.now.draft }
    ensures { IfOk result (λ s. string_bytes s ≡ patient_line inst.now.draft scorer.now.plan mandatory patient.0) }
{
    let place = cheapest_admission(inst, scorer, patient);
    let day = day_text(alloc, inst, scorer, patient, place)?;
    let id = inst.patient(patient).id.as_str();
    line_text(alloc, id, mandatory, day.as_str())
}

// Whether the plan leaves the patient out, who is of the mandatory or of the other ones.
fn is_waiting(inst: &Instance, plan: &Plan, mandatory: bool, patient: PatientNo) -> bool
    requires plan { IsPlanOf inst.now.draft plan.now }
    requires patient { patient.0 < patient_count inst.now.draft }
    ensures { result ≡ is_waiting inst.now.draft plan.now mandatory patient.0 }
{
    plan.stay(patient).is_none() && inst.patient(patient).mandatory == mandatory
}

// Appends what is said of a patient, where the patient waits.
fn put_patient(
    alloc: Global,
    out: &mut String,
    inst: &Instance,
    scorer: &Scorer<'_>,
    mandatory: bool,
    patient: PatientNo,
) -> Put
    requires scorer { IsForAdmissions inst.now.draft scorer.now }
    requires patient { patient.0 < patient_count inst.now.draft }
    ensures { OnOk result (string_bytes out.new ≡ string_bytes out.old
        ++ (if is_waiting inst.now.draft scorer.now.plan mandatory patient.0
        then patient_line inst.now.draft scorer.now.plan mandatory patient.0 else [])) }
{
    if is_waiting(inst, scorer.plan(), mandatory, patient) {
        let line = patient_line(alloc, inst, scorer, mandatory, patient)?;
        out.push_str(line.as_str())
    } else {
        Ok(())
    }
}

// Appends what is said of those who wait and are mandatory, or of the others.
#[tactic(auto, using(crate::proofs::LineSteps::line_steps), unfolding(crate::specs::Waiting::lines_of))]
fn put_lines(
    alloc: Global,
    out: &mut String,
    inst: &Instance,
    scorer: &Scorer<'_>,
    mandatory: bool,
) -> Put
    requires { IsForAdmissions inst.now.draft scorer.now }
    ensures { OnOk result (string_bytes out.new
        ≡ string_bytes out.old ++ lines_of inst.now.draft scorer.now.plan mandatory) }
{
    for p in 0..inst.patients() {
        put_patient(alloc, out, inst, scorer, mandatory, PatientNo(p))?;
    }
    Ok(())
}

// What prices admissions to a plan.
fn scorer_of<'a>(alloc: Global, inst: &'a Instance, plan: &Plan) -> Result<Scorer<'a>, AllocError>
    requires { IsPlanOf inst.now.draft plan.now }
    ensures fit { IfOk result (IsForAdmissions inst.now.draft) }
    ensures plan { IfOk result (λ s. s.plan ≡ plan.now) }
{
    Scorer::new(alloc, inst, MAX_HARD, true, plan)
}

/// Who waits: a line for each patient whom the plan leaves out, the mandatory ones first, each by number. It says on
/// which day the patient could come, and to which room and theatre: of all stays that the patient may get the first of
/// least score, where a broken rule weighs most. If that breaks no rule more than the plan does, it says what is added
/// to the cost, and else also how many units of rules more are broken.
#[tactic(auto, unfolding(crate::specs::Waiting::waiting_text))]
pub fn who_waits(alloc: Global, inst: &Instance, plan: &Plan) -> Result<Vec<u8>, AllocError>
    requires { IsPlanOf inst.now.draft plan.now }
    ensures { IfOk result (λ text. text.items ≡ waiting_text inst.now.draft plan.now) }
{
    let scorer = scorer_of(alloc, inst, plan)?;
    let mut out = String::new(alloc);
    put_lines(alloc, &mut out, inst, &scorer, true)?;
    put_lines(alloc, &mut out, inst, &scorer, false)?;
    Ok(out.into_bytes())
}
