//! The laws of who waits, on functions that do nothing.

ghost use Rattle.ih_tables.specs.declared.drafts.Draft.{Draft};
ghost use Rattle.ih_plan.specs.Timetable.{Timetable};
ghost use Rattle.ih_waiting.specs.Laws.{AdmissionsAreTrue, NobodyIsPassedOver};

/// What is said of an admission is true of the timetable with it.
pub fn admissions_are_true()
    ensures { (I : Draft) (P : Timetable) → AdmissionsAreTrue I P }
{}

/// Where nothing is said the plan has a stay for each patient.
pub fn nobody_is_passed_over()
    ensures { (I : Draft) (P : Timetable) → NobodyIsPassedOver I P }
{}
