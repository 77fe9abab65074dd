//! The page of a timetable.

ghost use Rattle.std.specs.Prelude.{◌≡◌, IfOk, IfSome, option_map};
ghost use Rattle.serde_json.specs.{Data.string, View.view};
ghost use Rattle.ih_plan.specs.Timetable.{IsPlanOf};
ghost use Rattle.ih_page.specs.Changes.{changes_data};
ghost use Rattle.ih_page.specs.Findings.{findings_data};
ghost use Rattle.ih_page.specs.Page.{date_data, heading_data, heading_texts, page_data, page_of, plan_data};
ghost use Rattle.ih_values.specs.Values.{option_data};

use crate::changes::{Compared, changes_value};
use crate::findings::findings_value;
use crate::timetables::{bill_value, care_value, stays_value};
use crate::waits::waits_value;
use ih_costs::Ledgers;
use ih_footprint::Numbering;
use ih_plan::Plan;
use ih_tables::Instance;
use ih_template::page_with;
use ih_values::{Made, Object, Shown, list_value};
use jiff::civil::Date;
use serde_json::Value;
use std::alloc::{AllocError, Global};

/// What stands over a page: its title, and the names of the files that it was made from.
#[derive(Clone, Copy, Debug)]
pub struct Heading<'a> {
    pub title: &'a str,
    pub instance: &'a str,
    pub solution: &'a str,
    /// The older solution's.
    pub older: Option<&'a str>,
}

// A name, or null.
fn name_value(alloc: Global, name: Option<&str>) -> Made
    ensures { IfOk result (λ v. view v ≡ option_data string (option_map (λ t. t.now) name.entry)) }
{
    match name {
        None => Ok(Value::Null),
        Some(text) => Value::try_from_str(alloc, text),
    }
}

impl Shown for Heading<'_> {
    ghost json = { λ h. heading_data (heading_texts h) };

    #[tactic(auto, unfolding(crate::specs::Page::heading_data))]
    fn value(&self, alloc: Global) -> Made {
        Object::new(alloc)
            .put("instance", Value::try_from_str(alloc, self.instance))?
            .put("older", name_value(alloc, self.older))?
            .put("solution", Value::try_from_str(alloc, self.solution))?
            .put("title", Value::try_from_str(alloc, self.title))?
            .value()
    }
}

// The year, the month and the day.
fn date_value(alloc: Global, date: Date) -> Made
    ensures { IfOk result (λ v. view v ≡ date_data date) }
{
    let year = u32::from(date.year().unsigned_abs());
    let month = u32::from(date.month().unsigned_abs());
    let day = u32::from(date.day().unsigned_abs());
    list_value(alloc, &[year, month, day])
}

// The date of the first day, or null.
fn first_value(alloc: Global, first: Option<Date>) -> Made
    ensures { IfOk result (λ v. view v ≡ option_data date_data first) }
{
    match first {
        None => Ok(Value::Null),
        Some(date) => date_value(alloc, date),
    }
}

// What changed since an older timetable, or null.
fn changes_since(alloc: Global, inst: &Instance, plan: &Plan, older: Option<&Plan>) -> Made
    requires plan { IsPlanOf inst.now.draft plan.now }
    requires older { IfSome older (λ o. IsPlanOf inst.now.draft o.now) }
    ensures { IfOk result
        (λ v. view v ≡ option_data (changes_data inst.now.draft plan.now) (option_map (λ o. o.now) older.entry)) }
{
    match older {
        None => Ok(Value::Null),
        Some(older) => changes_value(alloc, &Compared { inst, plan, older }),
    }
}

// What breaks rules or costs, by ledgers of the timetable.
fn found_value(alloc: Global, inst: &Instance, plan: &Plan) -> Made
    requires { IsPlanOf inst.now.draft plan.now }
    ensures { IfOk result (λ v. view v ≡ findings_data inst.now.draft plan.now) }
{
    let ledgers = Ledgers::new(alloc, inst, plan)?;
    findings_value(alloc, Numbering::of(inst), &ledgers)
}

// The timetable, and who waits.
#[tactic(auto, unfolding(crate::specs::Page::plan_data))]
fn plan_value(alloc: Global, inst: &Instance, plan: &Plan) -> Made
    requires { IsPlanOf inst.now.draft plan.now }
    ensures { IfOk result (λ v. view v ≡ plan_data inst.now.draft plan.now) }
{
    Object::new(alloc)
        .put("care", care_value(alloc, inst, plan))?
        .put("stays", stays_value(alloc, inst, plan))?
        .put("waits", waits_value(alloc, inst, plan))?
        .value()
}

// All that the page shows.
#[tactic(auto, unfolding(crate::specs::Page::page_data))]
fn page_value(
    alloc: Global,
    heading: &Heading<'_>,
    inst: &Instance,
    plan: &Plan,
    first: Option<Date>,
    older: Option<&Plan>,
) -> Made
    requires plan { IsPlanOf inst.now.draft plan.now }
    requires older { IfSome older (λ o. IsPlanOf inst.now.draft o.now) }
    ensures { IfOk result (λ v. view v
        ≡ page_data (heading_texts heading.now) inst.now.draft first (option_map (λ o. o.now) older.entry) plan.now) }
{
    Object::new(alloc)
        .put("bill", bill_value(alloc, inst, plan))?
        .put("changes", changes_since(alloc, inst, plan, older))?
        .put("findings", found_value(alloc, inst, plan))?
        .put("first", first_value(alloc, first))?
        .show("heading", heading)?
        .show("instance", &inst.draft)?
        .put("plan", plan_value(alloc, inst, plan))?
        .value()
}

/// The page of a timetable of the instance: one text of HTML that stands alone.
///
/// - Where the date of the first day is known, days have dates.
/// - Where there is an older timetable, the page says what changed since.
#[tactic(auto, using(crate::proofs::WholeNumbers::whole_numbers))]
pub fn page(
    alloc: Global,
    heading: &Heading<'_>,
    inst: &Instance,
    plan: &Plan,
    first: Option<Date>,
    older: Option<&Plan>,
) -> Result<Vec<u8>, AllocError>
    requires plan { IsPlanOf inst.now.draft plan.now }
    requires older { IfSome older (λ o. IsPlanOf inst.now.draft o.now) }
    ensures { IfOk result (λ text. text.items
        ≡ page_of (heading_texts heading.now) inst.now.draft first (option_map (λ o. o.now) older.entry) plan.now) }
{
    let data = page_value(alloc, heading, inst, plan, first, older)?;
    page_with(alloc, &data)
}
