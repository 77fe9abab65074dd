//! Laws of tables, on functions that do nothing.

ghost use Rattle.std.specs.Prelude.{List, Option};
ghost use Rattle.jiff.specs.Types.{Date};
ghost use Rattle.ih_plan.specs.Timetable.{Timetable};
ghost use Rattle.ih_sheet.specs.Laws.{NothingEndsALine, TableReadsBack};

use crate::subjects::Subject;
use ih_tables::Instance;

/// Whatever names the files hold, a reader of comma-separated values gives back the heading and the rows of a table,
/// field by field.
pub fn tables_read_back(_of: Subject, _inst: &Instance)
    ensures { (dates : List (Option Date)) (P : Timetable) → TableReadsBack _of _inst.now.draft dates P }
{}

/// Whatever names the files hold, nothing of them ends a line of a calendar.
pub fn nothing_ends_a_line(_inst: &Instance)
    ensures { (dates : List (Option Date)) (P : Timetable) → NothingEndsALine _inst.now.draft dates P }
{}
