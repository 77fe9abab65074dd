//! Laws of searches, each on a function that does nothing.

ghost use Rattle.ih_optimizer.specs.Laws.{DoneCallsHaveImproved, NoneFoundLeavesADraft, RoundsLeaveTheirBest};
ghost use Rattle.ih_optimizer.specs.Laws.{AttemptsLeaveTheSame, RoundsLeaveTheSame};
ghost use Rattle.ih_optimizer.specs.Laws.{SearchesAreDetermined};

use ih_improve::Walks;

/// What a call of `improve` leaves: done, the solution of a feasible timetable that keeps the start's choices that are
/// before the freeze day or pinned, and is no dearer than the start; with none found, each file as it was, but for the
/// draft.
pub fn done_calls_have_improved()
    ensures done { DoneCallsHaveImproved }
    ensures none { NoneFoundLeavesADraft }
{}

/// However many rounds of a search are over, OUT has the solution of the best of them, once that is feasible.
pub fn rounds_leave_their_best()
    ensures { RoundsLeaveTheirBest }
{}

/// Where what each worker leaves in a round follows from what the round begins with and from the worker's number, so
/// does all that rounds with the same spans leave but some numbers in their lines, however many workers there are and
/// whatever the threads do. Where attempts are given, as many rounds have the same spans.
pub fn determined_workers_leave_the_same<W: Walks>()
    ensures spans { RoundsLeaveTheSame W.leaves }
    ensures attempts { AttemptsLeaveTheSame W.leaves }
{}

/// What a call of `improve` searches follows from its words, its files and the number of processors: the instance, the
/// start, and the settings with what comes from the weights.
pub fn searches_are_determined()
    ensures { SearchesAreDetermined }
{}
