//! What is said of an instance that has no feasible timetable.

ghost use Rattle.std.specs.Prelude.{◌≡◌, ◌<◌, ◌++◌, [], IfOk, OnOk, string_bytes};
ghost use Rattle.std.specs.Option.{option_map_or};
ghost use Rattle.ih_tables.specs.Sizes.{patient_count, room_count, shift_count};
ghost use Rattle.ih_validate.specs.Report.{lines_below};
ghost use Rattle.ih_why.specs.Account.{account, crowd_line, day_lines, mix_line, patient_line, reason_line};
ghost use Rattle.ih_why.specs.Account.{reason_text, room_days_text, room_shifts_text, shift_line, surgeon_id};
ghost use Rattle.ih_why.specs.{Account.window_text, Admissions.taken_day, Sentences.day_taken_text};

use crate::admissions::{reason_of, taken_day, window_end};
use crate::beds::{capacity_of, is_crowded, is_deserted, is_mixed, occupants_in};
use crate::reasons::Reason;
use crate::sentences::{
    Text, crowd_text, day_taken_text, desert_text, due_early_text, mix_text, no_day_text,
    no_room_text, no_surgeon_text, no_theatre_text, patient_text, released_late_text, span_text,
    taken_text,
};
use ih_tables::{Day, Instance, Patient, PatientNo, RoomNo, Shift, SurgeonNo};
use std::alloc::{AllocError, Global};

// What appending gives: it fails only where memory runs out.
type Put = Result<(), AllocError>;

// ---- patients

/// The surgeon's id.
pub fn surgeon_id(inst: &Instance, surgeon: SurgeonNo) -> &str
    ensures { result.now ≡ surgeon_id inst.now.draft surgeon.0 }
{
    match inst.draft.surgeons.as_slice().get(surgeon.0 as usize) {
        Some(a) => a.id.as_str(),
        None => "",
    }
}

// The days of the patient's window.
#[tactic(auto, unfolding(crate::specs::Account::window_text))]
fn window_text(alloc: Global, inst: &Instance, patient: &Patient) -> Text
    ensures { IfOk result (λ s. string_bytes s ≡ window_text inst.now.draft patient.now) }
{
    let end = window_end(inst, patient);
    span_text(alloc, patient.surgery_release_day, end.saturating_sub(1))
}

// That the rooms that suit are taken on a day, where there is one that each stay has.
fn taken_day_text(alloc: Global, inst: &Instance, patient: &Patient) -> Text
    ensures { IfOk result
        (λ s. string_bytes s ≡ option_map_or day_taken_text (taken_day inst.now.draft patient.now) []) }
{
    match taken_day(inst, patient) {
        Some(day) => day_taken_text(alloc, day),
        None => Ok(String::new(alloc)),
    }
}

// How a reason is said.
#[tactic(auto, unfolding(crate::specs::Account::reason_text))]
fn reason_text(alloc: Global, inst: &Instance, patient: &Patient, why: Reason) -> Text
    ensures { IfOk result (λ s. string_bytes s ≡ reason_text inst.now.draft patient.now why) }
{
    let window = window_text(alloc, inst, patient)?;
    let days = window.as_str();
    let surgeon = surgeon_id(inst, patient.surgeon_id);
    match why {
        Reason::DueEarly => due_early_text(alloc),
        Reason::ReleasedLate => released_late_text(alloc),
        Reason::NoRoom => no_room_text(alloc),
        Reason::NoTheatre => no_theatre_text(alloc, patient.surgery_duration, days),
        Reason::NoSurgeon => no_surgeon_text(alloc, surgeon, patient.surgery_duration, days),
        Reason::DayTaken => taken_day_text(alloc, inst, patient),
        Reason::RoomsTaken => taken_text(alloc, days),
        Reason::NoDay => no_day_text(alloc, surgeon, days),
    }
}

// Appends a line, where there is a reason.
fn put_reason(
    alloc: Global,
    out: &mut String,
    inst: &Instance,
    patient: &Patient,
    reason: Option<Reason>,
) -> Put
    ensures { OnOk result
        (string_bytes out.new ≡ string_bytes out.old ++ reason_line inst.now.draft patient.now reason) }
{
    match reason {
        None => Ok(()),
        Some(why) => {
            let text = reason_text(alloc, inst, patient, why)?;
            let line = patient_text(alloc, patient.id.as_str(), text.as_str())?;
            out.push_str(line.as_str())
        }
    }
}

// Appends what is said of a patient.
fn put_patient(alloc: Global, out: &mut String, inst: &Instance, patient: PatientNo) -> Put
    requires { patient.0 < patient_count inst.now.draft }
    ensures { OnOk result (string_bytes out.new ≡ string_bytes out.old ++ patient_line inst.now.draft patient.0) }
{
    let patient = inst.patient(patient);
    put_reason(alloc, out, inst, patient, reason_of(inst, patient))
}

// Appends what is said of all patients.
#[tactic(auto, using(crate::proofs::Lines::part_steps))]
fn put_patients(alloc: Global, out: &mut String, inst: &Instance) -> Put
    ensures { OnOk result (string_bytes out.new
        ≡ string_bytes out.old ++ lines_below (patient_count inst.now.draft) (patient_line inst.now.draft)) }
{
    for p in 0..inst.patients() {
        put_patient(alloc, out, inst, PatientNo(p))?;
    }
    Ok(())
}

// ---- rooms

// Appends that a room has more occupants on a day than it is for, where it has.
#[tactic(auto, using(crate::proofs::Lines::part_steps), unfolding(crate::specs::Account::crowd_line))]
fn put_crowd(alloc: Global, out: &mut String, inst: &Instance, room: RoomNo, day: Day) -> Put
    requires { room.0 < room_count inst.now.draft }
    ensures { OnOk result (string_bytes out.new ≡ string_bytes out.old ++ crowd_line inst.now.draft room.0 day.0) }
{
    if is_crowded(inst, room, day) {
        let count = occupants_in(inst, room, day);
        let most = capacity_of(inst, room);
        let line = crowd_text(alloc, inst.room(room).id.as_str(), day.0, count, most)?;
        out.push_str(line.as_str())
    } else {
        Ok(())
    }
}

// Appends that a room has occupants of two genders on a day, where it has.
#[tactic(auto, using(crate::proofs::Lines::part_steps), unfolding(crate::specs::Account::mix_line))]
fn put_mix(alloc: Global, out: &mut String, inst: &Instance, room: RoomNo, day: Day) -> Put
    requires { room.0 < room_count inst.now.draft }
    ensures { OnOk result (string_bytes out.new ≡ string_bytes out.old ++ mix_line inst.now.draft room.0 day.0) }
{
    if is_mixed(inst, room, day) {
        let line = mix_text(alloc, inst.room(room).id.as_str(), day.0)?;
        out.push_str(line.as_str())
    } else {
        Ok(())
    }
}

// Appends what is said of a room on a day.
#[tactic(auto, using(crate::proofs::Lines::part_steps), unfolding(crate::specs::Account::day_lines))]
fn put_day(alloc: Global, out: &mut String, inst: &Instance, room: RoomNo, day: Day) -> Put
    requires { room.0 < room_count inst.now.draft }
    ensures { OnOk result (string_bytes out.new ≡ string_bytes out.old ++ day_lines inst.now.draft room.0 day.0) }
{
    put_crowd(alloc, out, inst, room, day)?;
    put_mix(alloc, out, inst, room, day)
}

// Appends that nobody works in a shift in which the room is occupied, where it is so.
#[tactic(auto, using(crate::proofs::Lines::part_steps), unfolding(crate::specs::Account::shift_line))]
fn put_shift(alloc: Global, out: &mut String, inst: &Instance, room: RoomNo, shift: Shift) -> Put
    requires room { room.0 < room_count inst.now.draft }
    requires shift { shift.0 < shift_count inst.now.draft }
    ensures { OnOk result (string_bytes out.new ≡ string_bytes out.old ++ shift_line inst.now.draft room.0 shift.0) }
{
    if is_deserted(inst, room, shift) {
        let name = inst.shift_type(shift.0 % 3).as_str();
        let line = desert_text(alloc, shift.0 / 3, name, inst.room(room).id.as_str())?;
        out.push_str(line.as_str())
    } else {
        Ok(())
    }
}

// Appends what is said of a room, day by day.
#[tactic(auto, using(crate::proofs::Lines::part_steps), unfolding(crate::specs::Account::room_days_text))]
fn put_room_days(alloc: Global, out: &mut String, inst: &Instance, room: RoomNo) -> Put
    requires { room.0 < room_count inst.now.draft }
    ensures { OnOk result (string_bytes out.new ≡ string_bytes out.old ++ room_days_text inst.now.draft room.0) }
{
    for d in 0..inst.days() {
        put_day(alloc, out, inst, room, Day(d))?;
    }
    Ok(())
}

// Appends what is said of a room, shift by shift.
#[tactic(auto, using(crate::proofs::Lines::part_steps), unfolding(crate::specs::Account::room_shifts_text))]
fn put_room_shifts(alloc: Global, out: &mut String, inst: &Instance, room: RoomNo) -> Put
    requires { room.0 < room_count inst.now.draft }
    ensures { OnOk result (string_bytes out.new ≡ string_bytes out.old ++ room_shifts_text inst.now.draft room.0) }
{
    for k in 0..inst.shifts() {
        put_shift(alloc, out, inst, room, Shift(k))?;
    }
    Ok(())
}

// Appends what is said of all rooms, day by day.
#[tactic(auto, using(crate::proofs::Lines::part_steps))]
fn put_days(alloc: Global, out: &mut String, inst: &Instance) -> Put
    ensures { OnOk result (string_bytes out.new
        ≡ string_bytes out.old ++ lines_below (room_count inst.now.draft) (room_days_text inst.now.draft)) }
{
    for r in 0..inst.rooms() {
        put_room_days(alloc, out, inst, RoomNo(r))?;
    }
    Ok(())
}

// Appends what is said of all rooms, shift by shift.
#[tactic(auto, using(crate::proofs::Lines::part_steps))]
fn put_shifts(alloc: Global, out: &mut String, inst: &Instance) -> Put
    ensures { OnOk result (string_bytes out.new
        ≡ string_bytes out.old ++ lines_below (room_count inst.now.draft) (room_shifts_text inst.now.draft)) }
{
    for r in 0..inst.rooms() {
        put_room_shifts(alloc, out, inst, RoomNo(r))?;
    }
    Ok(())
}

/// What is said of an instance that has no feasible timetable: a line for each patient who must be admitted and can't
/// be, with the reason; for each room and day with more occupants than it is for, or with two genders; and for each
/// occupied room in a shift that nobody works. Where it says nothing there may or may not be a feasible timetable.
#[tactic(auto, unfolding(crate::specs::Account::account))]
pub fn account(alloc: Global, inst: &Instance) -> Result<Vec<u8>, AllocError>
    ensures { IfOk result (λ text. text.items ≡ account inst.now.draft) }
{
    let mut out = String::new(alloc);
    put_patients(alloc, &mut out, inst)?;
    put_days(alloc, &mut out, inst)?;
    put_shifts(alloc, &mut out, inst)?;
    Ok(out.into_bytes())
}
