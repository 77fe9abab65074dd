//! The dates of the days of the horizon.

ghost use Rattle.std.specs.Prelude.{◌≤◌, IfOk, Some};
ghost use Rattle.ih_sheet.specs.Dates.{AreDates, IsDateOf};

use jiff::ToSpan;
use jiff::civil::Date;
use std::alloc::{AllocError, Global};

// The date so many days after another.
fn date_after(first: Date, days: u32) -> Option<Date>
    requires { days ≤ 56 }
    ensures { IsDateOf (Some first) days result }
{
    first.checked_add((days as i64).days()).ok()
}

// The date of a day.
fn date_of(first: &Option<Date>, day: u32) -> Option<Date>
    requires { day ≤ 56 }
    ensures { IsDateOf first.now day result }
{
    match first {
        None => None,
        Some(first) => date_after(*first, day),
    }
}

/// The dates of so many days, where the first one has this date.
#[tactic(auto, using(crate::proofs::DateSteps::date_steps))]
pub fn dates_of(
    alloc: Global,
    first: Option<Date>,
    days: u32,
) -> Result<Vec<Option<Date>>, AllocError>
    requires { days ≤ 56 }
    ensures { IfOk result (λ dates. AreDates first days dates.items) }
{
    let mut dates = Vec::new(alloc);
    for day in 0..days {
        dates.push(date_of(&first, day))?;
    }
    Ok(dates)
}
