//! The table of a timetable.

ghost use Rattle.std.specs.Prelude.{◌≡◌, IfOk, map, option_map};
ghost use Rattle.csv.specs.Records.{fields_of};
ghost use Rattle.ih_plan.specs.Timetable.{IsPlanOf};
ghost use Rattle.ih_sheet.specs.Sheets.{IsTable, rows_of};

use crate::calendar::calendar;
use crate::dates::dates_of;
use crate::nurses::nurse_rows;
use crate::patients::patient_rows;
use crate::rooms::room_rows;
use crate::sheets::sheet_text;
use crate::shown::Shown;
use crate::subjects::Subject;
use crate::surgeries::surgery_rows;
use csv::StringRecord;
use ih_plan::Plan;
use ih_tables::Instance;
use jiff::civil::Date;
use std::alloc::{AllocError, Global};

// The heading and the rows of a subject; a calendar has none.
fn rows_of(
    alloc: Global,
    of: Subject,
    shown: &Shown<'_>,
) -> Result<Option<Vec<StringRecord>>, AllocError>
    ensures { IfOk result (λ rows. option_map (λ rows. map fields_of rows.items) rows
        ≡ rows_of of shown.now.inst.now.draft shown.now.dates.now shown.now.plan.now) }
{
    match of {
        Subject::Patients => Ok(Some(patient_rows(alloc, shown)?)),
        Subject::Nurses => Ok(Some(nurse_rows(alloc, shown)?)),
        Subject::Rooms => Ok(Some(room_rows(alloc, shown)?)),
        Subject::Theatres => Ok(Some(surgery_rows(alloc, shown)?)),
        Subject::Calendar => Ok(None),
    }
}

/// The table of a timetable of the instance: comma-separated values with a heading, which spreadsheets take, or an
/// iCalendar file.
///
/// Where the date of the first day is known, days have dates.
pub fn table(
    alloc: Global,
    of: Subject,
    inst: &Instance,
    plan: &Plan,
    first: Option<Date>,
) -> Result<Vec<u8>, AllocError>
    requires { IsPlanOf inst.now.draft plan.now }
    ensures { IfOk result (λ text. IsTable of inst.now.draft first plan.now text.items) }
{
    let dates = dates_of(alloc, first, inst.days())?;
    let shown = Shown {
        inst,
        plan,
        dates: dates.as_slice(),
    };
    match rows_of(alloc, of, &shown)? {
        Some(rows) => sheet_text(alloc, rows.as_slice()),
        None => calendar(alloc, &shown),
    }
}
