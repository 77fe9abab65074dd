//! The choices that a timetable makes, in the order in which they are gone through.

ghost use Rattle.std.specs.Prelude.{◌≡◌, ◌<◌, ◌++◌, All, IfOk, OnOk};
ghost use Rattle.std.specs.List.{range_with_len};
ghost use Rattle.ih_tables.specs.Sizes.{patient_count, room_count, shift_count};
ghost use Rattle.ih_plan.specs.Timetable.{IsPlanOf};
ghost use Rattle.ih_fill.specs.Choices.{IsChoiceOf, all_choices, nurse_choices, nurses_in, stay_choices};
ghost use Rattle.ih_fill.specs.Fill.{fill_choices, is_waiting, waiting};

use ih_plan::Plan;
use ih_tables::{Instance, PatientNo, RoomNo, Shift};
use std::alloc::{AllocError, Global};

/// A choice that a timetable makes.
#[derive(Clone, Copy, Debug, PartialEq, Eq)]
pub enum Choice {
    /// The stay of a patient.
    Stay(PatientNo),
    /// The nurse of a room in a shift.
    Nurse(RoomNo, Shift),
}

// Appends the stays of all patients, in their order.
fn push_stays(choices: &mut Vec<Choice>, inst: &Instance) -> Result<(), AllocError>
    requires inside { All (IsChoiceOf inst.now.draft) choices.old.items }
    ensures more { OnOk result (choices.new.items
        ≡ choices.old.items ++ stay_choices (range_with_len 0 (patient_count inst.now.draft))) }
    ensures inside { OnOk result (All (IsChoiceOf inst.now.draft) choices.new.items) }
{
    for p in 0..inst.patients() {
        choices.push(Choice::Stay(PatientNo(p)))?;
    }
    Ok(())
}

// Whether the patient isn't admitted in the timetable, and is of the mandatory or of the optional ones.
fn is_waiting(inst: &Instance, plan: &Plan, patient: PatientNo, mandatory: bool) -> bool
    requires plan { IsPlanOf inst.now.draft plan.now }
    requires patient { patient.0 < patient_count inst.now.draft }
    ensures { result ≡ is_waiting inst.now.draft plan.now mandatory patient.0 }
{
    plan.stay(patient).is_none() && inst.patient(patient).mandatory == mandatory
}

// Appends the stays of the mandatory or of the optional patients who aren't admitted, in their order.
fn push_waiting(
    choices: &mut Vec<Choice>,
    inst: &Instance,
    plan: &Plan,
    mandatory: bool,
) -> Result<(), AllocError>
    requires plan { IsPlanOf inst.now.draft plan.now }
    requires inside { All (IsChoiceOf inst.now.draft) choices.old.items }
    ensures more { OnOk result (choices.new.items
        ≡ choices.old.items ++ stay_choices (waiting inst.now.draft plan.now mandatory)) }
    ensures inside { OnOk result (All (IsChoiceOf inst.now.draft) choices.new.items) }
{
    for p in 0..inst.patients() {
        let p = PatientNo(p);
        if is_waiting(inst, plan, p, mandatory) {
            choices.push(Choice::Stay(p))?;
        }
    }
    Ok(())
}

// Appends the nurses of the rooms in a shift.
fn push_nurses_in(
    choices: &mut Vec<Choice>,
    inst: &Instance,
    shift: Shift,
) -> Result<(), AllocError>
    requires shift { shift.0 < shift_count inst.now.draft }
    requires inside { All (IsChoiceOf inst.now.draft) choices.old.items }
    ensures more { OnOk result (choices.new.items
        ≡ choices.old.items ++ nurses_in shift.0 (room_count inst.now.draft)) }
    ensures inside { OnOk result (All (IsChoiceOf inst.now.draft) choices.new.items) }
{
    for r in 0..inst.rooms() {
        choices.push(Choice::Nurse(RoomNo(r), shift))?;
    }
    Ok(())
}

// Appends the nurses of the rooms, shift by shift.
fn push_nurses(choices: &mut Vec<Choice>, inst: &Instance) -> Result<(), AllocError>
    requires inside { All (IsChoiceOf inst.now.draft) choices.old.items }
    ensures more { OnOk result (choices.new.items ≡ choices.old.items ++ nurse_choices inst.now.draft) }
    ensures inside { OnOk result (All (IsChoiceOf inst.now.draft) choices.new.items) }
{
    for k in 0..inst.shifts() {
        push_nurses_in(choices, inst, Shift(k))?;
    }
    Ok(())
}

/// The choices of a timetable: the patients come first, then the rooms of each shift.
pub fn all_choices(alloc: Global, inst: &Instance) -> Result<Vec<Choice>, AllocError>
    ensures all { IfOk result (λ v. v.items ≡ all_choices inst.now.draft) }
    ensures inside { IfOk result (λ v. All (IsChoiceOf inst.now.draft) v.items) }
{
    let mut choices = Vec::new(alloc);
    push_stays(&mut choices, inst)?;
    push_nurses(&mut choices, inst)?;
    Ok(choices)
}

/// The choices of a fill of a timetable: the patients who aren't admitted there, mandatory ones before optional ones,
/// then the rooms of each shift.
pub fn fill_choices(alloc: Global, inst: &Instance, plan: &Plan) -> Result<Vec<Choice>, AllocError>
    requires { IsPlanOf inst.now.draft plan.now }
    ensures all { IfOk result (λ v. v.items ≡ fill_choices inst.now.draft plan.now) }
    ensures inside { IfOk result (λ v. All (IsChoiceOf inst.now.draft) v.items) }
{
    let mut choices = Vec::new(alloc);
    push_waiting(&mut choices, inst, plan, true)?;
    push_waiting(&mut choices, inst, plan, false)?;
    push_nurses(&mut choices, inst)?;
    Ok(choices)
}
