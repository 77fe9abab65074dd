//! Laws of pages, on functions that do nothing.

ghost use Rattle.std.specs.Prelude.{Option};
ghost use Rattle.jiff.specs.Types.{Date};
ghost use Rattle.ih_plan.specs.Timetable.{Timetable};
ghost use Rattle.ih_page.specs.{Laws.ChangesAreListed, Laws.DataIsInert, Laws.FindingsSum, Page.HeadingTexts};

use ih_tables::Instance;

/// The amounts that are found for a number of the bill sum to it.
pub fn findings_sum(_inst: &Instance)
    ensures { (P : Timetable) → FindingsSum _inst.now.draft P }
{}

/// The changes since an older timetable are exactly the patients whose day, room or theatre differ, and for each room
/// exactly the shifts in which its nurse differs.
pub fn changes_are_listed(_inst: &Instance)
    ensures { (O P : Timetable) → ChangesAreListed _inst.now.draft O P }
{}

/// Whatever the files hold, none of it ends the element that the data stands in, or is a tag.
pub fn data_is_inert(_inst: &Instance)
    ensures { (h : HeadingTexts) (first : Option Date) (older : Option Timetable) (P : Timetable)
        → DataIsInert h _inst.now.draft first older P }
{}
