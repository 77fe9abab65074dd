//! The command `check`: its description for `clap`, its values and when they are lawful.
ghost use Rattle.std.specs.Prelude.{◌≡◌, map, option_map, string_bytes};
ghost use Rattle.clap.specs.Words.{found_of, rows_of};
ghost use Rattle.ih_words.specs.Check.{check_app, check_call, lawful_check};
ghost use Rattle.ih_arguments.specs.Matches.{call_by};
ghost use Rattle.ih_words.specs.SearchOptions.{IsAnswer};

use crate::WordsError;
use crate::search_options::{INSTANCE, SOLUTION, matches_in};
use clap::ArgMatches;
use ih_arguments::arguments::Description;
use ih_arguments::described;
use ih_arguments::file_names::all_differ;
use ih_arguments::matches::text_of;
use std::alloc::Global;

/// `check INSTANCE SOLUTION`.
#[derive(Clone, Copy, Debug)]
pub struct Check<'a> {
    /// The name of the instance's file.
    pub instance: &'a str,
    /// The name of the solution's file.
    pub solution: &'a str,
}

// `check INSTANCE SOLUTION`.
const CHECK: Description<'static, 'static> = described!("check", [INSTANCE, SOLUTION]);

// The values of `check`, where the file names differ.
fn lawful_check<'a>(matches: &ArgMatches<'a>) -> Option<Check<'a>>
    ensures { option_map check_call result ≡ lawful_check (rows_of (found_of matches.now)) }
{
    let check = Check {
        instance: text_of(matches, "INSTANCE"),
        solution: text_of(matches, "SOLUTION"),
    };
    let files = [check.instance, check.solution];
    if all_differ(files.as_slice()) {
        Some(check)
    } else {
        None
    }
}

// Reads the words of `check`.
pub(crate) fn read_check<'a>(alloc: Global, words: &'a [String]) -> Result<Check<'a>, WordsError>
    ensures { IsAnswer check_call (call_by check_app lawful_check (map string_bytes words.entry.now)) result }
{
    let matches = matches_in(alloc, &CHECK, words)?;
    lawful_check(&matches).ok_or(WordsError::Unlawful)
}
