//! The rows of surgeries, by theatre and day.

ghost use Rattle.std.specs.Prelude.{◌≡◌, ◌<◌, ◌∷◌, ◌++◌, IfOk, OnOk, map};
ghost use Rattle.csv.specs.Records.{fields_of};
ghost use Rattle.ih_tables.specs.Sizes.{patient_count, theatre_count};
ghost use Rattle.ih_plan.specs.{Costs.operated_in, Timetable.stay_of};
ghost use Rattle.ih_sheet.specs.Rows.{rows_of_day, rows_of_theatre, surgery_heading, surgery_row, surgery_rows};

use crate::names::{surgeon_id, theatre_id};
use crate::shown::Shown;
use csv::StringRecord;
use ih_tables::{PatientNo, TheatreNo};
use std::alloc::{AllocError, Global};

fn heading(alloc: Global) -> Result<StringRecord, AllocError>
    ensures { IfOk result (λ row. fields_of row ≡ surgery_heading) }
{
    let names = ["theatre", "day", "date", "patient", "surgeon", "minutes"];
    StringRecord::from_fields(alloc, names.as_slice())
}

/// Whether the patient has surgery in the theatre on the day.
pub fn is_operated(shown: &Shown<'_>, theatre: TheatreNo, day: u32, patient: PatientNo) -> bool
    requires { patient.0 < patient_count shown.now.inst.now.draft }
    ensures { result ≡ operated_in theatre.0 day (stay_of shown.now.plan.now patient.0) }
{
    match shown.plan.stay(patient) {
        None => false,
        Some(at) => at.theatre.0 == theatre.0 && at.day.0 == day,
    }
}

#[tactic(auto, unfolding(crate::specs::Rows::surgery_row))]
fn surgery_row(
    alloc: Global,
    shown: &Shown<'_>,
    theatre: TheatreNo,
    day: u32,
    patient: PatientNo,
) -> Result<StringRecord, AllocError>
    requires theatre { theatre.0 < theatre_count shown.now.inst.now.draft }
    requires patient { patient.0 < patient_count shown.now.inst.now.draft }
    ensures { IfOk result (λ row. fields_of row
        ≡ surgery_row shown.now.inst.now.draft shown.now.dates.now theatre.0 day patient.0) }
{
    let inst = shown.inst;
    let a = inst.patient(patient);
    let day_text = day.to_string(alloc)?;
    let date = shown.date(alloc, day)?;
    let minutes = a.surgery_duration.to_string(alloc)?;
    let fields = [
        theatre_id(inst, theatre),
        day_text.as_str(),
        date.as_str(),
        a.id.as_str(),
        surgeon_id(inst, a.surgeon_id),
        minutes.as_str(),
    ];
    StringRecord::from_fields(alloc, fields.as_slice())
}

// Appends the surgeries in a theatre on a day, by the number of the patient.
#[tactic(auto, using(crate::proofs::RowSteps::row_steps), unfolding(ih_plan::specs::Costs::operated))]
fn put_day(
    alloc: Global,
    shown: &Shown<'_>,
    theatre: TheatreNo,
    day: u32,
    rows: &mut Vec<StringRecord>,
) -> Result<(), AllocError>
    requires { theatre.0 < theatre_count shown.now.inst.now.draft }
    ensures { OnOk result (map fields_of rows.new.items ≡ map fields_of rows.old.items
        ++ rows_of_day shown.now.inst.now.draft shown.now.dates.now shown.now.plan.now theatre.0 day) }
{
    for p in 0..shown.inst.patients() {
        let patient = PatientNo(p);
        if is_operated(shown, theatre, day, patient) {
            rows.push(surgery_row(alloc, shown, theatre, day, patient)?)?;
        }
    }
    Ok(())
}

// Appends the surgeries in a theatre, by day.
#[tactic(auto, using(crate::proofs::RowSteps::row_steps))]
fn put_theatre(
    alloc: Global,
    shown: &Shown<'_>,
    theatre: TheatreNo,
    rows: &mut Vec<StringRecord>,
) -> Result<(), AllocError>
    requires { theatre.0 < theatre_count shown.now.inst.now.draft }
    ensures { OnOk result (map fields_of rows.new.items ≡ map fields_of rows.old.items
        ++ rows_of_theatre shown.now.inst.now.draft shown.now.dates.now shown.now.plan.now theatre.0) }
{
    for d in 0..shown.inst.days() {
        put_day(alloc, shown, theatre, d, rows)?;
    }
    Ok(())
}

/// The heading, and the surgeries in each theatre, in number order.
#[tactic(auto, using(crate::proofs::RowSteps::row_steps))]
pub fn surgery_rows(alloc: Global, shown: &Shown<'_>) -> Result<Vec<StringRecord>, AllocError>
    ensures { IfOk result (λ rows. map fields_of rows.items
        ≡ surgery_heading ∷ surgery_rows shown.now.inst.now.draft shown.now.dates.now shown.now.plan.now) }
{
    let mut rows = Vec::new(alloc);
    rows.push(heading(alloc)?)?;
    for t in 0..shown.inst.theatres() {
        put_theatre(alloc, shown, TheatreNo(t), &mut rows)?;
    }
    Ok(rows)
}
