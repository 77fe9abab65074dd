//! The patients' items, each with its stay.

ghost use Rattle.std.specs.Prelude.{◌≡◌, ◌<◌, ◌^◌, false, IfOk, IfSome, [], map, length};
ghost use Rattle.serde_json.specs.View.{view};
ghost use Rattle.ih_tables.specs.{Sizes.patient_count, Marks.is_marked};
ghost use Rattle.ih_plan.specs.Timetable.{IsPlanOf, IsPlacement};
ghost use Rattle.ih_format.specs.{Gives.Gives, Gives.seen, Checks.under};
ghost use Rattle.ih_solution.specs.Reading.{no_day, admission_day, placement_on, patient_row, patient_rows, patients};
ghost use Rattle.ih_solution.specs.Reading.{timetable_of};

use crate::reader::rows::ListedStay;
use crate::reader::{lists, references};
use ih_format::{FormatError, json_values};
use ih_plan::{Placement, Plan, Write};
use ih_tables::{Day, Fault, Instance, Key, Place, Refusal};
use serde_json::Value;
use std::alloc::Global;

// No day, which is the text `none`.
fn no_day(text: &str, at: Place) -> Result<Option<u32>, Refusal>
    ensures { result ≡ no_day at text.now }
{
    if text != "none" {
        return Err(json_values::refusal(Fault::Kind, at));
    }
    Ok(None)
}

// The day of admission: the text `none`, or a day of the horizon.
fn admission_day(inst: &Instance, value: &Value, at: Place) -> Result<Option<u32>, Refusal>
    ensures inside { IfOk result (λ o. IfSome o (λ n. n < inst.now.draft.days)) }
    ensures gives { result ≡ admission_day inst.now.draft at (view value.now) }
{
    if let Some(text) = value.as_str() {
        return no_day(text, at);
    }
    let day = json_values::number(value, 0, inst.days() - 1, at)?;
    Ok(Some(day))
}

// The placement on a day, and none where there is no day: the other keys are then ignored.
fn placement_on(
    inst: &Instance,
    object: &Value,
    day: Option<u32>,
    at: Place,
) -> Result<Option<Placement>, Refusal>
    requires day { IfSome day (λ n. n < inst.now.draft.days) }
    ensures placed { IfOk result (λ o. IfSome o (IsPlacement inst.now.draft)) }
    ensures gives { result ≡ placement_on inst.now.draft day at (view object.now) }
{
    let Some(day) = day else {
        return Ok(None);
    };
    let value = json_values::value_of(object, Key::Room, at)?;
    let room = references::room(inst, value, at.key(Key::Room))?;
    let value = json_values::value_of(object, Key::OperatingTheater, at)?;
    let theatre = references::theatre(inst, value, at.key(Key::OperatingTheater))?;
    Ok(Some(Placement {
        day: Day(day),
        room,
        theatre,
    }))
}

// A patient whom no earlier item has, with the stay.
#[tactic(auto, unfolding(crate::specs::Reading::patient_row))]
fn patient_row(
    inst: &Instance,
    value: &Value,
    earlier: &[bool],
    at: Place,
) -> Result<ListedStay, Refusal>
    requires { length earlier.now ≡ patient_count inst.now.draft }
    ensures inside { IfOk result (λ row. row.patient.0 < patient_count inst.now.draft) }
    ensures new { IfOk result (λ row. is_marked earlier.now row.patient.0 ≡ false) }
    ensures placed { IfOk result (λ row. IfSome row.stay (IsPlacement inst.now.draft)) }
    ensures gives { result ≡ patient_row inst.now.draft (is_marked earlier.now) at (view value.now) }
{
    let _ = json_values::object(value, at)?;
    let id = json_values::value_of(value, Key::Id, at)?;
    let patient = references::patient(inst, id, at.key(Key::Id))?;
    if earlier[patient.0 as usize] {
        return Err(json_values::refusal(Fault::Duplicate, at.key(Key::Id)));
    }
    let day = json_values::value_of(value, Key::AdmissionDay, at)?;
    let day = admission_day(inst, day, at.key(Key::AdmissionDay))?;
    let stay = placement_on(inst, value, day, at)?;
    Ok(ListedStay { patient, stay })
}

// The timetable of the patients' items, in which no room has a nurse.
fn each_stay(
    alloc: Global,
    inst: &Instance,
    values: &[Value],
    at: Place,
) -> Result<Plan, FormatError>
    requires { length values.now < 2 ^ 32 }
    ensures plan { IfOk result (IsPlanOf inst.now.draft) }
    ensures gives { Gives (λ p. p) result
        (seen (λ rows. timetable_of inst.now.draft rows []) (patient_rows inst.now.draft at (map view values.now))) }
{
    let mut plan = Plan::empty(alloc, inst)?;
    let mut listed = lists::no_flags(alloc, inst.patients())?;
    let mut i = 0;
    for value in values {
        let row = patient_row(inst, value, listed.as_slice(), at.item(i))?;
        listed[row.patient.0 as usize] = true;
        plan.put(&Write::SetStay(row.patient, row.stay));
        i += 1;
    }
    Ok(plan)
}

/// The timetable of an object's patients, in which no room has a nurse.
pub fn stays(alloc: Global, inst: &Instance, object: &Value, at: Place) -> Result<Plan, FormatError>
    ensures plan { IfOk result (IsPlanOf inst.now.draft) }
    ensures gives { Gives (λ p. p) result
        (seen (λ rows. timetable_of inst.now.draft rows [])
        (under at (view object.now) Key.Patients (patients inst.now.draft))) }
{
    let value = json_values::value_of(object, Key::Patients, at)?;
    let at = at.key(Key::Patients);
    each_stay(alloc, inst, lists::items(value, at)?, at)
}
