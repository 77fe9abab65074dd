//! Laws, each on a function that does nothing.

ghost use Rattle.ih_chain.specs.Laws.{ChainJournalsAreShort, ChainJournalsTellSearchesApart};
ghost use Rattle.ih_chain.specs.Laws.{SinglesAreHistoriesOfMoves, SinglesHaveTheSameLine};

/// A chain of one move has the line of that move, where no move is tried again.
pub fn single_chains_have_the_same_line()
    ensures { SinglesHaveTheSameLine }
{}

/// The journal of a legal history of chains is short: at most 226 bytes for each chain and 29 for each of its moves,
/// and 128 for the heading.
pub fn chain_journals_are_short()
    ensures { ChainJournalsAreShort }
{}

/// Two searches of an instance by chains of at most eight moves, without retries, that differ in their options, in the
/// length of their chains or in an entry have two journals, also where they begin with different timetables.
pub fn chain_journals_tell_searches_apart()
    ensures { ChainJournalsTellSearchesApart }
{}

/// A legal history of chains of one move is a legal history of single moves, entry by entry.
pub fn single_chains_are_moves()
    ensures { SinglesAreHistoriesOfMoves }
{}
