//! Laws of histories, each on a function that does nothing.

ghost use Rattle.ih_journal.specs.Laws.{LoneWorkersAreNeverStale, LoneWorkersHaveOneHistory};
ghost use Rattle.ih_journal.specs.Laws.{LoneWorkersMakeEachAttemptOnce};

/// With one worker there is one full history over what a search is given: nothing in it is stale, and it has one entry
/// for each attempt.
pub fn lone_workers_have_one_history()
    ensures fresh { LoneWorkersAreNeverStale }
    ensures moves { LoneWorkersMakeEachAttemptOnce }
    ensures same { LoneWorkersHaveOneHistory }
{}
