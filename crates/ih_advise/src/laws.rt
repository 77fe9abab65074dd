//! Laws of advice, each on a function that does nothing.

ghost use Rattle.ih_advise.specs.Laws.{AdviceIsBest, LocallyBest, LocallyBestIsSaid};

/// Each line of advice is the best change of a choice: the first least of all its candidates, with its exact price.
pub fn advice_is_best()
    ensures { AdviceIsBest }
{}

/// Nothing is advised exactly where no candidate of any choice lowers the score.
pub fn locally_best()
    ensures { LocallyBest }
{}

/// The text says that a timetable is locally best exactly where nothing is advised.
pub fn locally_best_is_said()
    ensures { LocallyBestIsSaid }
{}
