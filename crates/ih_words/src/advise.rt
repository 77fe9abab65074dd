//! The command `advise`: its description for `clap`, its values and when they are lawful.
ghost use Rattle.std.specs.Prelude.{◌≡◌, IfOk, IfSome, map, option_map, string_bytes};
ghost use Rattle.clap.specs.Words.{found_of, rows_of};
ghost use Rattle.ih_words.specs.Advise.{HasAdvise, IsLawfulAdvise, advise_app, advise_call, advise_in, lawful_advise};
ghost use Rattle.ih_arguments.specs.Matches.{call_by};
ghost use Rattle.ih_words.specs.SearchOptions.{IsAnswer};

use crate::WordsError;
use crate::search_options::{HARD, INSTANCE, SOLUTION, WORKERS, matches_in};
use clap::ArgMatches;
use ih_arguments::arguments::Description;
use ih_arguments::described;
use ih_arguments::file_names::all_differ;
use ih_arguments::matches::{text_of, u32_of};
use std::alloc::Global;

/// `advise INSTANCE SOLUTION` with its options.
#[derive(Clone, Copy, Debug)]
pub struct Advise<'a> {
    /// The name of the instance's file.
    pub instance: &'a str,
    /// The name of the solution's file.
    pub solution: &'a str,
    /// The weight of a broken rule in a score.
    pub hard: u32,
    /// How many look for advice side by side.
    pub workers: u32,
}

const ADVISE: Description<'static, 'static> = described!(
    "advise",
    [INSTANCE, SOLUTION, HARD, WORKERS]
);

// The values of `advise`.
fn advise_in<'a>(matches: &ArgMatches<'a>) -> Advise<'a>
    requires { HasAdvise (rows_of (found_of matches.now)) }
    ensures value { advise_call result ≡ advise_in (rows_of (found_of matches.now)) }
    ensures lawful { IsLawfulAdvise result }
{
    Advise {
        instance: text_of(matches, "INSTANCE"),
        solution: text_of(matches, "SOLUTION"),
        hard: u32_of(matches, "hard"),
        workers: u32_of(matches, "workers"),
    }
}

// The values of `advise`, where the file names differ.
fn lawful_advise<'a>(matches: &ArgMatches<'a>) -> Option<Advise<'a>>
    requires { HasAdvise (rows_of (found_of matches.now)) }
    ensures value { option_map advise_call result ≡ lawful_advise (rows_of (found_of matches.now)) }
    ensures lawful { IfSome result IsLawfulAdvise }
{
    let advise = advise_in(matches);
    let files = [advise.instance, advise.solution];
    if all_differ(files.as_slice()) {
        Some(advise)
    } else {
        None
    }
}

// Reads the words of `advise`.
pub(crate) fn read_advise<'a>(alloc: Global, words: &'a [String]) -> Result<Advise<'a>, WordsError>
    ensures read { IsAnswer advise_call (call_by advise_app lawful_advise (map string_bytes words.entry.now)) result }
    ensures lawful { IfOk result IsLawfulAdvise }
{
    let matches = matches_in(alloc, &ADVISE, words)?;
    lawful_advise(&matches).ok_or(WordsError::Unlawful)
}
