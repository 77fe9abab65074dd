//! The command `solve`: its description for `clap`, its values and when they are lawful.
ghost use Rattle.std.specs.Prelude.{◌≡◌, ◌≤◌, IfSome, IfOk, true, codes, map, option_map, string_bytes};
ghost use Rattle.clap.specs.Words.{found_of, rows_of};
ghost use Rattle.ih_arguments.specs.{Matches.IsNumberIfGiven, Matches.call_by, Start.start_call};
ghost use Rattle.ih_words.specs.SearchOptions.{HasOptions, IsAnswer};
ghost use Rattle.ih_words.specs.Solve.{is_lawful_solve, lawful_solve, search_in, solve_app, solve_call, solve_in};
ghost use Rattle.ih_journal.specs.Settings.{IsLawful, most_entries};
ghost use Rattle.ih_plan.specs.declared.limits.TheConstants.{MAX_FREEZE};

use crate::WordsError;
use crate::search_options::{
    HARD, HEAT, INSTANCE, JOURNAL, MOVES, OUT, SEED, WORKERS, matches_in, options_in,
};
use clap::ArgMatches;
use ih_arguments::arguments::{Argument, Description, Kind};
use ih_arguments::file_names::names_differ;
use ih_arguments::matches::{optional_u32_of, text_of};
use ih_arguments::start::{FILL, FREEZE, START, Start, freezes_a_file, start_in};
use ih_arguments::{argument, described};
use ih_journal::{MAX_ENTRIES, MAX_RETRIES, Options};
use std::alloc::Global;

/// `solve INSTANCE OUT JOURNAL` with its options.
#[derive(Clone, Copy, Debug)]
pub struct Solve<'a> {
    /// The name of the instance's file.
    pub instance: &'a str,
    /// The name of the file that the solution goes to.
    pub out: &'a str,
    /// The name of the file that the journal goes to.
    pub journal: &'a str,
    /// The options of the search.
    pub options: Options,
    /// What the search starts from.
    pub start: Start<'a>,
}

const RETRIES: Argument<'static> = argument!("retries", Kind::OptionalNumber(0, MAX_RETRIES));

// `solve INSTANCE OUT JOURNAL` and the options of a search, of which only the last four may be left out.
const SOLVE: Description<'static, 'static> = described!(
    "solve",
    [
        INSTANCE, OUT, JOURNAL, SEED, WORKERS, MOVES, HEAT, HARD, RETRIES, START, FREEZE, FILL
    ]
);

// A search with so many retries and from this start. Its options are lawful where they come to no more entries than a
// journal may have.
pub(crate) fn search_in<'a>(matches: &ArgMatches<'a>, retries: u32, start: Start<'a>) -> Solve<'a>
    requires options { HasOptions (rows_of (found_of matches.now)) }
    requires retries { retries ≤ MAX_RETRIES }
    ensures value { solve_call result ≡ search_in (rows_of (found_of matches.now)) retries (start_call start.entry) }
    ensures limits { most_entries result.options ≤ MAX_ENTRIES → IsLawful result.options }
    ensures once { result.options.retries ≡ retries }
    ensures start { result.start ≡ start.entry }
{
    Solve {
        instance: text_of(matches, "INSTANCE"),
        out: text_of(matches, "OUT"),
        journal: text_of(matches, "JOURNAL"),
        options: options_in(matches, retries),
        start,
    }
}

// The values of `solve`.
fn solve_in<'a>(matches: &ArgMatches<'a>) -> Solve<'a>
    requires options { HasOptions (rows_of (found_of matches.now)) }
    requires retries { IsNumberIfGiven 0 MAX_RETRIES (codes "retries") (rows_of (found_of matches.now)) }
    requires freeze { IsNumberIfGiven 0 MAX_FREEZE (codes "freeze") (rows_of (found_of matches.now)) }
    ensures value { solve_call result ≡ solve_in (rows_of (found_of matches.now)) }
    ensures limits { most_entries result.options ≤ MAX_ENTRIES → IsLawful result.options }
{
    let retries = optional_u32_of(matches, "retries");
    search_in(matches, retries, start_in(matches))
}

// The file names differ, and the options are lawful.
fn is_lawful_solve(solve: &Solve) -> bool
    requires { most_entries solve.now.options ≤ MAX_ENTRIES → IsLawful solve.now.options }
    ensures value { result ≡ is_lawful_solve (solve_call solve.now) }
    ensures lawful { result ≡ true → IsLawful solve.now.options }
{
    names_differ(solve.instance, solve.out, solve.journal, solve.start.file)
        && solve.options.lawful()
}

// The values of `solve`, where they are lawful, and so is the freeze day.
fn lawful_solve<'a>(matches: &ArgMatches<'a>) -> Option<Solve<'a>>
    requires options { HasOptions (rows_of (found_of matches.now)) }
    requires retries { IsNumberIfGiven 0 MAX_RETRIES (codes "retries") (rows_of (found_of matches.now)) }
    requires freeze { IsNumberIfGiven 0 MAX_FREEZE (codes "freeze") (rows_of (found_of matches.now)) }
    ensures value { option_map solve_call result ≡ lawful_solve (rows_of (found_of matches.now)) }
    ensures lawful { IfSome result (λ s. IsLawful s.options) }
{
    let solve = solve_in(matches);
    if freezes_a_file(matches) && is_lawful_solve(&solve) {
        Some(solve)
    } else {
        None
    }
}

// Reads the words of `solve`.
pub(crate) fn read_solve<'a>(alloc: Global, words: &'a [String]) -> Result<Solve<'a>, WordsError>
    ensures read { IsAnswer solve_call (call_by solve_app lawful_solve (map string_bytes words.entry.now)) result }
    ensures lawful { IfOk result (λ s. IsLawful s.options) }
{
    let matches = matches_in(alloc, &SOLVE, words)?;
    lawful_solve(&matches).ok_or(WordsError::Unlawful)
}
