//! Laws of journals and of whole calls, each on a function that does nothing. A law that follows from others calls
//! theirs.

ghost use Rattle.ih_top.specs.Below.Endings.{MAX_FILE, MAX_JOURNAL};
ghost use Rattle.ih_top.specs.Below.Searches.{MAX_ENTRIES, MAX_MOVES, MAX_RETRIES};
ghost use Rattle.ih_top.specs.Laws.{ChainJournalsAreHeadless, ChainJournalsFit, ChainsAreRefused, ChainsAreToldApart};
ghost use Rattle.ih_top.specs.Laws.{DemosShowTheSame, RoundJournalsFit, RoundsAreSalvaged, RoundsAreToldApart};
ghost use Rattle.ih_top.specs.Laws.{SolvesAreToldApart};
ghost use Rattle.ih_top.specs.Laws.{JournalsFit, SolvesReplayTheSame, SolvesWithNoneReplayTheSame};
ghost use Rattle.ih_top.specs.Laws.{LoneSearchesAreAlike, LoneSearchesDoTheSame};
ghost use Rattle.ih_top.specs.Laws.{LoneSearchesEndAlike, RefusedLinesAreNotFull, RoundsAreRefused};
ghost use Rattle.ih_top.specs.Laws.{WholeLinesAreSalvaged};
ghost use Rattle.ih_top.specs.{Searches.of_chains, Rounds.of_rounds, Searches.of_moves};
ghost use Rattle.std.specs.Prelude.{ℕ, ◌≡◌};
ghost use Rattle.ih_plan.specs.declared.limits.TheConstants.{MAX_HARD, MAX_HEAT};
ghost use Rattle.ih_plan.specs.declared.limits.TheConstants.{MAX_WORKERS};
ghost use Rattle.ih_words.specs.declared.plain.TheConstants.{MAX_LENGTH, MAX_ROUNDS};
ghost use Rattle.ih_plan.specs.{declared.limits.TheConstants.MAX_FREEZE};

use ih_cellbook::{journals_tell_searches_apart, legal_journals_are_short};
use ih_chain::{chain_journals_are_short, chain_journals_tell_searches_apart};
use ih_replay::{
    legal_journals_are_taken, legal_journals_differ, taken_lines_are_of_legal_histories,
};
use ih_rounds::{journals_tell_rounds_apart, round_journals_are_short};
use ih_words::named_calls_are_within_limits;

/// Lines that are refused are those of no full history.
pub fn refused_lines_are_not_full()
    ensures { RefusedLinesAreNotFull }
{
    legal_journals_are_taken();
    legal_journals_differ();
    taken_lines_are_of_legal_histories();
}

/// Of a journal that is cut off somewhere behind its heading, `salvage` takes each whole line.
pub fn whole_lines_are_salvaged()
    ensures { WholeLinesAreSalvaged }
{
    legal_journals_are_taken();
    legal_journals_differ();
    taken_lines_are_of_legal_histories();
}

/// With one worker a search is a function of files and words: its history or its rounds, what `solve`, `chain` and `rounds`
/// write and say, how these end where there is no fault and memory enough, and what `demo` shows.
pub fn lone_searches_are_alike()
    ensures search { LoneSearchesAreAlike of_moves }
    ensures solve { LoneSearchesDoTheSame of_moves }
    ensures ends { LoneSearchesEndAlike of_moves }
    ensures chains { (each : ℕ) → LoneSearchesAreAlike (of_chains each) }
    ensures chain { (each : ℕ) → LoneSearchesDoTheSame (of_chains each) }
    ensures chain_ends { (each : ℕ) → LoneSearchesEndAlike (of_chains each) }
    ensures rounds { (count : ℕ) → LoneSearchesAreAlike (of_rounds count) }
    ensures rounds_do { (count : ℕ) → LoneSearchesDoTheSame (of_rounds count) }
    ensures rounds_end { (count : ℕ) → LoneSearchesEndAlike (of_rounds count) }
    ensures demo { DemosShowTheSame }
{}

/// What `solve` writes, `replay` and `salvage` take: over an instance and a start with the same bytes, and with no
/// fault, they end with the same solution and the same text, or memory runs out. A journal is never too long for that.
pub fn solves_replay_the_same()
    ensures best { SolvesReplayTheSame }
    ensures none { SolvesWithNoneReplayTheSame }
    ensures fits { JournalsFit }
{
    legal_journals_are_taken();
    legal_journals_differ();
    taken_lines_are_of_legal_histories();
    legal_journals_are_short();
}

/// The journal of a search by chains is no longer than a journal's file may be, and has no heading of a journal of
/// single moves: `replay` and `salvage` refuse it there, with no fault and memory enough.
pub fn chains_are_refused()
    ensures headless { ChainJournalsAreHeadless }
    ensures fits { ChainJournalsFit }
    ensures refused { ChainsAreRefused }
{
    named_calls_are_within_limits();
    chain_journals_are_short();
}

/// The journals of rounds, one after the other, are no longer than a journal's file may be. With no fault and memory
/// enough, `replay` refuses those of two rounds or more at the second heading, and `salvage` takes the history of the
/// first: it writes the best of that round, and says that, or that it has none.
pub fn rounds_are_refused()
    ensures fits { RoundJournalsFit }
    ensures refused { RoundsAreRefused }
    ensures salvaged { RoundsAreSalvaged }
{
    named_calls_are_within_limits();
    round_journals_are_short();
    legal_journals_are_taken();
    legal_journals_differ();
    taken_lines_are_of_legal_histories();
}

/// A journal tells the search: two calls of one command, over instances with the same bytes, that left the same journal
/// had the same options and made the same history, with however many workers, and whatever they began with.
pub fn journals_tell_calls_apart()
    ensures solve { SolvesAreToldApart }
    ensures chain { ChainsAreToldApart }
    ensures rounds { RoundsAreToldApart }
{
    named_calls_are_within_limits();
    journals_tell_searches_apart();
    chain_journals_tell_searches_apart();
    journals_tell_rounds_apart();
}

/// The limits of words and files are these numbers: where a definition speaks of them by name, a changed constant would
/// change what is promised, and not break it.
pub fn limits_are_these()
    ensures workers { MAX_WORKERS ≡ 64 }
    ensures moves { MAX_MOVES ≡ 1000000 }
    ensures heat { MAX_HEAT ≡ 1000000 }
    ensures hard { MAX_HARD ≡ 1000000 }
    ensures retries { MAX_RETRIES ≡ 7 }
    ensures entries { MAX_ENTRIES ≡ 1000000 }
    ensures freeze { MAX_FREEZE ≡ 56 }
    ensures rounds { MAX_ROUNDS ≡ 16 }
    ensures length { MAX_LENGTH ≡ 8 }
    ensures file { MAX_FILE ≡ 67108864 }
    ensures journal { MAX_JOURNAL ≡ 268435456 }
{}
