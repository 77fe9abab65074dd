//! Laws, each on a function that does nothing.

ghost use Rattle.ih_cellbook.specs.Core.{SchedulesAreLegal};
ghost use Rattle.ih_cellbook.specs.Laws.{AcceptedPricesAreExact, LegalHistoriesAreFew, LegalHistoriesAreInRange};
ghost use Rattle.ih_cellbook.specs.Laws.{LegalJournalsAreShort, RightOffersStayRight, JournalsTellSearchesApart};

use ih_tables::Instance;

/// An offer that is right for a history is right for every history that begins with it and has no further entry of the
/// offer's worker.
pub fn right_offers_stay_right()
    ensures { RightOffersStayRight }
{}

/// A history that is legal but for its draws has at most one entry for each try of each attempt of each worker, and
/// fewer where some worker isn't done.
pub fn legal_histories_are_few()
    ensures { LegalHistoriesAreFew }
{}

/// In a history that is legal but for its draws each accepted price, however old, is the change of the bill at its own
/// place.
pub fn accepted_prices_are_exact()
    ensures { AcceptedPricesAreExact }
{}

/// In whatever order any number of workers look and offer, on however old a copy each priced its attempt: every entry
/// is legal but for its draw, the counters are the versions, and each accepted price is the change of the bill at its
/// place.
pub fn schedules_are_legal(_inst: &Instance)
    ensures { SchedulesAreLegal _inst.now.draft }
{}

/// Each number of a legal history of single moves is in range, and so are the options: a journal may have them.
pub fn legal_histories_are_in_range()
    ensures { LegalHistoriesAreInRange }
{}

/// Two searches of an instance that differ in their options or in an entry have two journals, also where they begin
/// with different timetables.
pub fn journals_tell_searches_apart()
    ensures { JournalsTellSearchesApart }
{}

/// The journal of a legal history is short: at most 256 bytes for each entry, and 128 for the heading.
pub fn legal_journals_are_short()
    ensures { LegalJournalsAreShort }
{}
