//! A timetable with the dates of its days.

ghost use Rattle.ih_plan.specs.Timetable.{IsPlanOf};

use ih_plan::Plan;
use ih_tables::Instance;
use jiff::civil::Date;
use std::alloc::{AllocError, Global};

/// A timetable of an instance that is shown, with the date of each day, where it has one.
#[derive(Drop)]
pub struct Shown<'a> {
    pub inst: &'a Instance,
    pub plan: &'a Plan,
    pub dates: &'a [Option<Date>],
    pub ghost fits: { IsPlanOf inst.now.draft plan.now },
}

impl<'a> Shown<'a> {
    ghost use Rattle.std.specs.Prelude.{◌≡◌, IfOk, string_bytes};
    ghost use Rattle.ih_sheet.specs.Dates.{date_at, known_date};

    /// The date of a day, where it has one.
    pub fn known_date(&self, day: u32) -> Option<Date>
        ensures { result ≡ known_date self.now.dates.now day }
    {
        self.dates.get(day as usize).copied().flatten()
    }

    /// The same as 2026-01-05; no text where there is none.
    pub fn date(&self, alloc: Global, day: u32) -> Result<String, AllocError>
        ensures { IfOk result (λ text. string_bytes text ≡ date_at self.now.dates.now day) }
    {
        match self.known_date(day) {
            Some(date) => date.to_string(alloc),
            None => Ok(String::new(alloc)),
        }
    }
}
