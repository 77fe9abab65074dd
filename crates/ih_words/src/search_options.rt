//! The options that every search needs, and the reading of words that are lawful or not.
ghost use Rattle.std.specs.Prelude.{◌≡◌, ◌≤◌, IfErr, IfOk, true, false, map, string_bytes};
ghost use Rattle.clap.specs.Words.{found_of, is_simple_and_free, rows_of};
ghost use Rattle.ih_arguments.specs.{Arguments.app_by, Matches.has_no_fault};
ghost use Rattle.ih_arguments.specs.Rules.{AreMatches, has_independent_rules};
ghost use Rattle.ih_journal.specs.Settings.{IsLawful, most_entries};
ghost use Rattle.ih_words.specs.SearchOptions.{HasOptions, options_in};

use crate::WordsError;
use clap::ArgMatches;
use ih_arguments::argument;
use ih_arguments::arguments::{Argument, Description, Kind};
use ih_arguments::matches::{matched, u32_of, u64_of};
use ih_journal::{MAX_ENTRIES, MAX_MOVES, MAX_RETRIES, Options};
use ih_plan::{MAX_HARD, MAX_HEAT, MAX_WORKERS};
use std::alloc::Global;

/// The file of the instance.
pub(crate) const INSTANCE: Argument<'static> = argument!("INSTANCE", Kind::Named);
/// The file of a solution that is read.
pub(crate) const SOLUTION: Argument<'static> = argument!("SOLUTION", Kind::Named);
/// The file that a solution or an instance goes to.
pub(crate) const OUT: Argument<'static> = argument!("OUT", Kind::Named);
/// The file of a journal.
pub(crate) const JOURNAL: Argument<'static> = argument!("JOURNAL", Kind::Named);
/// A number that all is made from.
pub(crate) const NUMBER: Argument<'static> = argument!("NUMBER", Kind::NamedNumber);
/// The options that a search needs.
pub(crate) const SEED: Argument<'static> = argument!("seed", Kind::AnyNumber);

pub(crate) const WORKERS: Argument<'static> = argument!("workers", Kind::Number(1, MAX_WORKERS));

pub(crate) const MOVES: Argument<'static> = argument!("moves", Kind::Number(0, MAX_MOVES));

pub(crate) const HEAT: Argument<'static> = argument!("heat", Kind::Number(0, MAX_HEAT));

pub(crate) const HARD: Argument<'static> = argument!("hard", Kind::Number(0, MAX_HARD));

// What `clap` reads of the words of a command, or that the words are unlawful.
pub(crate) fn matches_in<'a>(
    alloc: Global,
    description: &Description<'_, 'a>,
    words: &'a [String],
) -> Result<ArgMatches<'a>, WordsError>
    requires simple { is_simple_and_free (app_by description.now) ≡ true }
    requires independent { has_independent_rules (app_by description.now) ≡ true }
    ensures matched { IfOk result (AreMatches (app_by description.entry.now) (map string_bytes words.entry.now)) }
    ensures unlawful { IfErr result (λ e. e ≡ WordsError.Unlawful
        → has_no_fault (app_by description.entry.now) (map string_bytes words.entry.now) ≡ false) }
{
    let matches = matched(alloc, description, words)?;
    Ok(matches)
}

// The options of a search with so many retries. They are lawful where they come to no more entries than a journal may
// have.
pub(crate) fn options_in(matches: &ArgMatches, retries: u32) -> Options
    requires options { HasOptions (rows_of (found_of matches.now)) }
    requires retries { retries ≤ MAX_RETRIES }
    ensures value { result ≡ options_in (rows_of (found_of matches.now)) retries }
    ensures limits { most_entries result ≤ MAX_ENTRIES → IsLawful result }
{
    Options {
        seed: u64_of(matches, "seed"),
        workers: u32_of(matches, "workers"),
        moves: u32_of(matches, "moves"),
        heat: u32_of(matches, "heat"),
        hard: u32_of(matches, "hard"),
        retries,
    }
}
