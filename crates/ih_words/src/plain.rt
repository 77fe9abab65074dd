//! Searches that freeze nothing and try no stale move again, and whose journal's length rests on one more number: what
//! `rounds` and `chain` share.
ghost use Rattle.std.specs.Prelude.{◌≡◌, ◌≤◌, ◌*◌, IfOk, IfSome, nat_le, true, map, option_map, string_bytes};
ghost use Rattle.clap.specs.Words.{found_of, is_simple_and_free, rows_of};
ghost use Rattle.ih_journal.specs.Settings.{IsLawful, most_entries};
ghost use Rattle.ih_arguments.specs.Matches.{HasNumber, call_by, number_at};
ghost use Rattle.ih_words.specs.SearchOptions.{HasOptions, IsAnswer};
ghost use Rattle.ih_words.specs.Plain.{IsPlain, IsPlainTo, is_lawful_plain, lawful_plain};
ghost use Rattle.ih_words.specs.Plain.{lawful_plain_to, plain_app, plain_call, plain_search_in};
ghost use Rattle.ih_arguments.specs.{Rules.has_independent_rules};
ghost use Rattle.ih_words.specs.{Solve.solve_call};

use crate::WordsError;
use crate::search_options::{HARD, HEAT, INSTANCE, JOURNAL, MOVES, OUT, SEED, WORKERS, matches_in};
use crate::solve::{Solve, search_in};
use clap::ArgMatches;
use ih_arguments::arguments::{Argument, Description, Kind};
use ih_arguments::file_names::names_differ;
use ih_arguments::matches::{flag_of, optional_text_of, u32_of};
use ih_arguments::start::{FILL, START, Start};
use ih_arguments::{argument, described};
use ih_journal::{MAX_ENTRIES, Options};
use std::alloc::Global;

/// The most moves of a chain.
pub const MAX_LENGTH: u32 = 8;

/// The most rounds.
pub const MAX_ROUNDS: u32 = 16;

/// `chain INSTANCE OUT JOURNAL` or `rounds INSTANCE OUT JOURNAL` with its options, of which only `--start F` and `--fill`
/// may be left out.
#[derive(Clone, Copy, Debug)]
pub struct Plain<'a> {
    /// The search, of rounds the first one, and where all is written. It freezes nothing and tries nothing stale again.
    pub search: Solve<'a>,
    /// How many moves each chain has, or how many searches there are.
    pub number: u32,
}

// The search.
fn plain_search_in<'a>(matches: &ArgMatches<'a>) -> Solve<'a>
    requires { HasOptions (rows_of (found_of matches.now)) }
    ensures value { solve_call result ≡ plain_search_in (rows_of (found_of matches.now)) }
    ensures limits { most_entries result.options ≤ MAX_ENTRIES → IsLawful result.options }
    ensures once { result.options.retries ≡ 0 }
    ensures unfrozen { result.start.freeze ≡ 0 }
{
    let start = Start {
        file: optional_text_of(matches, "start"),
        fill: flag_of(matches, "fill"),
        freeze: 0,
    };
    search_in(matches, 0, start)
}

// The entries of a search, so many times taken, are at most so many as a journal may have.
fn have_few_entries(options: &Options, times: u32) -> bool
    requires once { options.now.retries ≡ 0 }
    requires some { 1 ≤ times }
    requires limits { most_entries options.now ≤ MAX_ENTRIES → IsLawful options.now }
    ensures value { result ≡ nat_le (most_entries options.now * times) MAX_ENTRIES }
    ensures lawful { result ≡ true → IsLawful options.now }
{
    options.lawful()
        && u64::from(options.workers) * u64::from(options.moves) * u64::from(times) <= MAX_ENTRIES
}

// The file names differ, and the entries of the search, so many times taken, are few enough.
fn is_lawful_plain(search: &Solve, times: u32) -> bool
    requires some { 1 ≤ times }
    requires limits { most_entries search.now.options ≤ MAX_ENTRIES → IsLawful search.now.options }
    requires once { search.now.options.retries ≡ 0 }
    requires unfrozen { search.now.start.freeze ≡ 0 }
    ensures value { result ≡ is_lawful_plain (solve_call search.now) times }
    ensures lawful { result ≡ true → IsPlain search.now }
    ensures few { result ≡ true → most_entries search.now.options * times ≤ MAX_ENTRIES }
{
    names_differ(
        search.instance,
        search.out,
        search.journal,
        search.start.file,
    ) && have_few_entries(&search.options, times)
}

// The search and the number, where the file names differ and the entries are few enough.
fn lawful_plain<'a>(matches: &ArgMatches<'a>, id: &str) -> Option<Plain<'a>>
    requires search { HasOptions (rows_of (found_of matches.now)) }
    requires number { HasNumber 1 4294967295 id.now (rows_of (found_of matches.now)) }
    ensures value { option_map plain_call result ≡ lawful_plain id.now (rows_of (found_of matches.now)) }
    ensures number { IfSome result (λ p. p.number ≡ number_at id.now (rows_of (found_of matches.now))) }
    ensures lawful { IfSome result (λ p. IsPlain p.search) }
    ensures few { IfSome result (λ p. most_entries p.search.options * p.number ≤ MAX_ENTRIES) }
{
    let search = plain_search_in(matches);
    let number = u32_of(matches, id);
    if is_lawful_plain(&search, number) {
        Some(Plain { search, number })
    } else {
        None
    }
}

// Reads the words of the command with the name, whose number is `--id N` from 1 to `high`: the search and the number.
pub(crate) fn read_plain<'a>(
    alloc: Global,
    name: &'a str,
    id: &'a str,
    high: u32,
    words: &'a [String],
) -> Result<Plain<'a>, WordsError>
    requires simple { is_simple_and_free (plain_app name.now id.now high) ≡ true }
    requires independent { has_independent_rules (plain_app name.now id.now high) ≡ true }
    ensures read { IsAnswer plain_call
        (call_by (plain_app name.entry.now id.entry.now high) (lawful_plain_to high id.entry.now)
        (map string_bytes words.entry.now)) result }
    ensures lawful { IfOk result (IsPlainTo high) }
{
    let number = argument!(id, Kind::Number(1, high));
    let description = described!(
        name,
        [
            INSTANCE, OUT, JOURNAL, SEED, WORKERS, MOVES, HEAT, HARD, number, START, FILL
        ]
    );
    let matches = matches_in(alloc, &description, words)?;
    lawful_plain(&matches, id).ok_or(WordsError::Unlawful)
}
