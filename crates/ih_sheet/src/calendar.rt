//! The calendar of surgeries, by theatre and day.

ghost use Rattle.std.specs.Prelude.{◌≡◌, ◌<◌, ◌++◌, IfOk, OnOk, flat_map};
ghost use Rattle.ih_tables.specs.Sizes.{patient_count, theatre_count};
ghost use Rattle.ih_plan.specs.Costs.{operated};
ghost use Rattle.ih_sheet.specs.Calendar.{calendar_text, event, event_lines, events_of_day, events_of_theatre};
ghost use Rattle.ih_sheet.specs.Calendar.{line_text, room_of};

use crate::lines::{digits, escaped, put_lines};
use crate::names::{room_id, surgeon_id, theatre_id};
use crate::shown::Shown;
use crate::surgeries::is_operated;
use ih_tables::{PatientNo, TheatreNo};
use std::alloc::{AllocError, Global};

// The room that the patient has.
fn room_of<'a>(shown: &Shown<'a>, patient: PatientNo) -> &'a str
    requires { patient.0 < patient_count shown.now.inst.now.draft }
    ensures { result.now ≡ room_of shown.now.inst.now.draft shown.now.plan.now patient.0 }
{
    match shown.plan.stay(patient) {
        None => "",
        Some(at) => room_id(shown.inst, at.room),
    }
}

// Appends the lines of an event of these texts.
fn put_event_lines<'t>(
    out: &mut Vec<u8>,
    day: &'t [u8],
    patient: &'t [u8],
    surgeon: &'t [u8],
    minutes: &'t [u8],
    theatre: &'t [u8],
    room: &'t [u8],
) -> Result<(), AllocError>
    ensures { OnOk result (out.new.items ≡ out.old.items ++ flat_map line_text
        (event_lines day.now patient.now surgeon.now minutes.now theatre.now room.now)) }
{
    let begin: &'t [u8] = b"BEGIN:VEVENT";
    let end: &'t [u8] = b"END:VEVENT";
    put_lines(
        out,
        &[
            &[begin],
            &[b"UID:", patient, b"@ih_planner"],
            &[b"DTSTAMP:", day, b"T000000Z"],
            &[b"DTSTART;VALUE=DATE:", day],
            &[
                b"SUMMARY:",
                patient,
                b"\\, ",
                surgeon,
                b"\\, ",
                minutes,
                b" minutes",
            ],
            &[b"LOCATION:", theatre],
            &[b"DESCRIPTION:Room ", room],
            &[end],
        ],
    )
}

// Appends the event of the patient's surgery in the theatre, on the day with these digits.
#[tactic(auto, unfolding(crate::specs::Calendar::event))]
fn put_event(
    alloc: Global,
    shown: &Shown<'_>,
    day: &[u8],
    theatre: TheatreNo,
    patient: PatientNo,
    out: &mut Vec<u8>,
) -> Result<(), AllocError>
    requires theatre { theatre.0 < theatre_count shown.now.inst.now.draft }
    requires patient { patient.0 < patient_count shown.now.inst.now.draft }
    ensures { OnOk result (out.new.items ≡ out.old.items ++ flat_map line_text
        (event shown.now.inst.now.draft shown.now.plan.now day.now theatre.0 patient.0)) }
{
    let inst = shown.inst;
    let a = inst.patient(patient);
    let id = escaped(alloc, a.id.as_str())?;
    let surgeon = escaped(alloc, surgeon_id(inst, a.surgeon_id))?;
    let minutes = a.surgery_duration.to_string(alloc)?;
    let place = escaped(alloc, theatre_id(inst, theatre))?;
    let room = escaped(alloc, room_of(shown, patient))?;
    put_event_lines(
        out,
        day,
        id.as_slice(),
        surgeon.as_slice(),
        minutes.as_bytes(),
        place.as_slice(),
        room.as_slice(),
    )
}

// Appends the events in a theatre on the day with these digits, by the number of the patient.
#[tactic(auto, using(crate::proofs::CalendarSteps::calendar_steps), unfolding(ih_plan::specs::Costs::operated))]
fn put_events(
    alloc: Global,
    shown: &Shown<'_>,
    theatre: TheatreNo,
    day: u32,
    digits: &[u8],
    out: &mut Vec<u8>,
) -> Result<(), AllocError>
    requires { theatre.0 < theatre_count shown.now.inst.now.draft }
    ensures { OnOk result (out.new.items ≡ out.old.items ++ flat_map line_text
        (flat_map (event shown.now.inst.now.draft shown.now.plan.now digits.now theatre.0)
        (operated shown.now.inst.now.draft shown.now.plan.now theatre.0 day))) }
{
    for p in 0..shown.inst.patients() {
        let patient = PatientNo(p);
        if is_operated(shown, theatre, day, patient) {
            put_event(alloc, shown, digits, theatre, patient, out)?;
        }
    }
    Ok(())
}

// Appends the events in a theatre on a day, if that has a date.
#[tactic(auto, using(crate::proofs::CalendarSteps::calendar_steps))]
fn put_day(
    alloc: Global,
    shown: &Shown<'_>,
    theatre: TheatreNo,
    day: u32,
    out: &mut Vec<u8>,
) -> Result<(), AllocError>
    requires { theatre.0 < theatre_count shown.now.inst.now.draft }
    ensures { OnOk result (out.new.items ≡ out.old.items ++ flat_map line_text
        (events_of_day shown.now.inst.now.draft shown.now.dates.now shown.now.plan.now theatre.0 day)) }
{
    match shown.known_date(day) {
        None => Ok(()),
        Some(date) => {
            let digits = digits(alloc, date)?;
            put_events(alloc, shown, theatre, day, digits.as_slice(), out)
        }
    }
}

// Appends the events in a theatre, by day.
#[tactic(auto, using(crate::proofs::CalendarSteps::calendar_steps))]
fn put_theatre(
    alloc: Global,
    shown: &Shown<'_>,
    theatre: TheatreNo,
    out: &mut Vec<u8>,
) -> Result<(), AllocError>
    requires { theatre.0 < theatre_count shown.now.inst.now.draft }
    ensures { OnOk result (out.new.items ≡ out.old.items ++ flat_map line_text
        (events_of_theatre shown.now.inst.now.draft shown.now.dates.now shown.now.plan.now theatre.0)) }
{
    for d in 0..shown.inst.days() {
        put_day(alloc, shown, theatre, d, out)?;
    }
    Ok(())
}

/// An event for each surgery whose day has a date, by theatre, in number order.
#[tactic(auto, using(crate::proofs::CalendarSteps::calendar_steps))]
pub fn calendar(alloc: Global, shown: &Shown<'_>) -> Result<Vec<u8>, AllocError>
    ensures { IfOk result (λ text. text.items
        ≡ calendar_text shown.now.inst.now.draft shown.now.dates.now shown.now.plan.now) }
{
    let mut out = Vec::new(alloc);
    put_lines(
        &mut out,
        &[
            &[b"BEGIN:VCALENDAR"],
            &[b"VERSION:2.0"],
            &[b"PRODID:-//ih_planner//table//EN"],
        ],
    )?;
    for t in 0..shown.inst.theatres() {
        put_theatre(alloc, shown, TheatreNo(t), &mut out)?;
    }
    put_lines(&mut out, &[&[b"END:VCALENDAR"]])?;
    Ok(out)
}
