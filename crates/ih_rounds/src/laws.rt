//! Laws of rounds, each on a function that does nothing.

ghost use Rattle.ih_rounds.specs.Laws.{JournalsCanBeParted, JournalsTellRoundsApart, RoundJournalsAreShort};
ghost use Rattle.ih_rounds.specs.Laws.{SixteenJournalsAreShort, RoundsGetNoDearer};

use ih_cellbook::{legal_histories_are_in_range, legal_journals_are_short};

/// Where a round has a best, each later round has one that costs no more.
pub fn rounds_get_no_dearer()
    ensures { RoundsGetNoDearer }
{}

/// The journals of rounds, one after the other, tell which histories they are.
pub fn journals_can_be_parted()
    ensures { JournalsCanBeParted }
{}

/// Two runs of rounds over an instance that differ in a history or, where there is any round, in their options have two
/// journals, also where they begin with different timetables. Where they were given the same, the bytes tell where each
/// round starts as well.
pub fn journals_tell_rounds_apart()
    ensures { JournalsTellRoundsApart }
{
    // For the proof alone.
    legal_histories_are_in_range();
}

/// The journals of rounds are short: at most 128 bytes for the heading of each, and 256 for each entry that it may
/// have. So those of at most sixteen rounds that together may have a million entries have at most 256,002,048.
pub fn round_journals_are_short()
    ensures each { RoundJournalsAreShort }
    ensures all { SixteenJournalsAreShort }
{
    // For the proof alone.
    legal_journals_are_short();
}
