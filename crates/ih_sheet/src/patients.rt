//! The rows of patients.

ghost use Rattle.std.specs.Prelude.{◌≡◌, ◌<◌, ◌∷◌, IfOk, map};
ghost use Rattle.csv.specs.Records.{fields_of};
ghost use Rattle.ih_tables.specs.Sizes.{patient_count};
ghost use Rattle.ih_plan.specs.Timetable.{IsPlacement};
ghost use Rattle.ih_sheet.specs.Rows.{admitted_fields, of_patient, patient_heading, patient_row, patient_rows};
ghost use Rattle.ih_sheet.specs.Rows.{waiting_fields};

use crate::names::{mandatory_text, room_id, surgeon_id, theatre_id};
use crate::shown::Shown;
use csv::StringRecord;
use ih_plan::Placement;
use ih_tables::{Instance, PatientNo};
use std::alloc::{AllocError, Global};

fn heading(alloc: Global) -> Result<StringRecord, AllocError>
    ensures { IfOk result (λ row. fields_of row ≡ patient_heading) }
{
    let names = [
        "patient",
        "admitted",
        "day",
        "date",
        "room",
        "theatre",
        "surgeon",
        "minutes",
        "leaves",
        "delay",
        "mandatory",
    ];
    StringRecord::from_fields(alloc, names.as_slice())
}

// The row of a patient who isn't admitted.
fn waiting_row(
    alloc: Global,
    inst: &Instance,
    patient: PatientNo,
) -> Result<StringRecord, AllocError>
    requires { patient.0 < patient_count inst.now.draft }
    ensures { IfOk result
        (λ row. fields_of row ≡ of_patient inst.now.draft patient.0 (waiting_fields inst.now.draft)) }
{
    let a = inst.patient(patient);
    let minutes = a.surgery_duration.to_string(alloc)?;
    let fields = [
        a.id.as_str(),
        "no",
        "",
        "",
        "",
        "",
        surgeon_id(inst, a.surgeon_id),
        minutes.as_str(),
        "",
        "",
        mandatory_text(a),
    ];
    StringRecord::from_fields(alloc, fields.as_slice())
}

// The row of a patient with this stay.
fn admitted_row(
    alloc: Global,
    shown: &Shown<'_>,
    patient: PatientNo,
    at: Placement,
) -> Result<StringRecord, AllocError>
    requires patient { patient.0 < patient_count shown.now.inst.now.draft }
    requires place { IsPlacement shown.now.inst.now.draft at }
    ensures { IfOk result (λ row. fields_of row ≡ of_patient shown.now.inst.now.draft patient.0
        (admitted_fields shown.now.inst.now.draft shown.now.dates.now at)) }
{
    let inst = shown.inst;
    let a = inst.patient(patient);
    let day = at.day.0.to_string(alloc)?;
    let date = shown.date(alloc, at.day.0)?;
    let minutes = a.surgery_duration.to_string(alloc)?;
    let leaves = (at.day.0 + a.length_of_stay).to_string(alloc)?;
    let delay = at
        .day
        .0
        .saturating_sub(a.surgery_release_day)
        .to_string(alloc)?;
    let fields = [
        a.id.as_str(),
        "yes",
        day.as_str(),
        date.as_str(),
        room_id(inst, at.room),
        theatre_id(inst, at.theatre),
        surgeon_id(inst, a.surgeon_id),
        minutes.as_str(),
        leaves.as_str(),
        delay.as_str(),
        mandatory_text(a),
    ];
    StringRecord::from_fields(alloc, fields.as_slice())
}

#[tactic(auto, unfolding(crate::specs::Rows::patient_row))]
fn patient_row(
    alloc: Global,
    shown: &Shown<'_>,
    patient: PatientNo,
) -> Result<StringRecord, AllocError>
    requires { patient.0 < patient_count shown.now.inst.now.draft }
    ensures { IfOk result (λ row. fields_of row
        ≡ patient_row shown.now.inst.now.draft shown.now.dates.now shown.now.plan.now patient.0) }
{
    match shown.plan.stay(patient) {
        None => waiting_row(alloc, shown.inst, patient),
        Some(at) => admitted_row(alloc, shown, patient, at),
    }
}

/// The heading, and a row for each patient, in number order.
#[tactic(auto, using(crate::proofs::RowSteps::row_steps))]
pub fn patient_rows(alloc: Global, shown: &Shown<'_>) -> Result<Vec<StringRecord>, AllocError>
    ensures { IfOk result (λ rows. map fields_of rows.items
        ≡ patient_heading ∷ patient_rows shown.now.inst.now.draft shown.now.dates.now shown.now.plan.now) }
{
    let mut rows = Vec::new(alloc);
    rows.push(heading(alloc)?)?;
    for p in 0..shown.inst.patients() {
        rows.push(patient_row(alloc, shown, PatientNo(p))?)?;
    }
    Ok(rows)
}
