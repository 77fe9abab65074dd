//! The laws, each on a function that does nothing.

ghost use Rattle.ih_plan.specs.Laws.{SeriesAreTheirWrites, SinglesAreMoves};

use ih_tables::Instance;

/// Moves in a row leave what their writes leave, made in order. At a timetable of the instance these are its writes.
pub fn series_are_their_writes(_inst: &Instance)
    ensures { SeriesAreTheirWrites _inst.now.draft }
{}

/// A single move in a row is that move.
pub fn single_moves_are_series(_inst: &Instance)
    ensures { SinglesAreMoves _inst.now.draft }
{}
