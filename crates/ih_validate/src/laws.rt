//! The law of parts, on a function that does nothing.

ghost use Rattle.ih_plan.specs.{Timetable.Timetable, Cells.HasParts};

use ih_tables::Instance;

/// Each timetable's bill is the sum of the parts of all its cells, number by number.
pub fn bills_have_parts(_inst: &Instance)
    ensures { (P : Timetable) → HasParts _inst.now.draft P }
{}
