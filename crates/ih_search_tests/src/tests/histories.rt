//! What the entries of a book come to: full bills.

ghost use Rattle.std.specs.Prelude.{◌≡◌};
ghost use Rattle.ih_plan.specs.Timetable.{IsPlanOf};

use ih_cellbook::{Book, plan_at};
use ih_fixtures::is_dearer_by;
use ih_plan::Plan;
use ih_tables::{Bill, Instance};
use ih_validate::bill;
use std::alloc::Global;

/// The full bill of the timetable after so many entries, if there are as many.
pub(crate) fn bill_after(
    alloc: Global,
    inst: &Instance,
    start: &Plan,
    book: &Book<'_>,
    place: u32,
) -> Option<Bill>
    requires start { IsPlanOf inst.now.draft start.now }
    requires instance { inst.now.draft ≡ book.now.base.instance }
{
    let entries = book.entries();
    if place as usize > entries.len() {
        return None;
    }
    match plan_at(alloc, inst, start, entries, place) {
        Ok(plan) => Some(bill(inst, &plan)),
        Err(_) => None,
    }
}

/// Whether the price of the entry at a place is what the full bill after it has more than the one before it.
pub(crate) fn is_exact(
    alloc: Global,
    inst: &Instance,
    start: &Plan,
    book: &Book<'_>,
    place: u32,
) -> bool
    requires start { IsPlanOf inst.now.draft start.now }
    requires instance { inst.now.draft ≡ book.now.base.instance }
{
    let before = bill_after(alloc, inst, start, book, place);
    let after = bill_after(alloc, inst, start, book, place.saturating_add(1));
    match (before, after, book.entries().get(place as usize)) {
        (Some(before), Some(after), Some(entry)) => is_dearer_by(&after, &before, &entry.price),
        _ => false,
    }
}
