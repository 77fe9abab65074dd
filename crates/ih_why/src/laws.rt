//! The laws of what is said, on functions that do nothing.

ghost use Rattle.ih_why.specs.Laws.{NobodyIsPassedOver, ReasonsAreTrue};

use ih_tables::Instance;

/// Where anything is said, no timetable is feasible; and so it is of each sentence alone.
pub fn reasons_are_true(_inst: &Instance)
    ensures { ReasonsAreTrue _inst.now.draft }
{}

/// A patient who must be admitted and can't be has a reason, which holds; and nobody else has one.
pub fn nobody_is_passed_over(_inst: &Instance)
    ensures { NobodyIsPassedOver _inst.now.draft }
{}
