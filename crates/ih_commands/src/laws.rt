//! Laws of calls, each on a function that does nothing.

ghost use Rattle.ih_commands.specs.Laws.{ExplainedCallsHaveNoPlan};

/// A call of `why` that ends with status 9 begins with causes that hold of its instance, of which no timetable is
/// feasible.
pub fn explained_calls_have_no_plan()
    ensures { ExplainedCallsHaveNoPlan }
{}
