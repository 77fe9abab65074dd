//! The day that `--from` names.

ghost use Rattle.std.specs.Prelude.{◌≡◌, is_some, codes, not, option_and_then, option_map};
ghost use Rattle.ih_commands.specs.Below.Arguments.{IsNoHelp, date_parts, first_of, found_of, rows_of};
ghost use Rattle.ih_commands.specs.Calls.Days.{date_in, names_a_day};

use clap::ArgMatches;
use ih_arguments::argument;
use ih_arguments::arguments::{Argument, Kind};
use ih_arguments::explaining::{NoCall, refused};
use ih_arguments::matches::optional_text_of;
use jiff::civil::Date;
use std::alloc::Global;

/// The date of the first day.
pub const FROM: Argument<'static> = argument!(
    "from",
    Kind::Optional,
    "The date of day 0, as 2026-01-05, so that days have dates"
);

// The day that a word names, as 2026-01-05. The calendar's reader takes longer and shorter words too.
fn date_in(word: &str) -> Option<Date>
    ensures { option_map date_parts result ≡ date_in word.now }
{
    if word.len() != 10 {
        return None;
    }
    word.parse().ok()
}

/// The day that the word of `--from` names, where there is such a word and such a day.
pub fn first_day(matches: &ArgMatches) -> Option<Date>
    ensures { option_map date_parts result
        ≡ option_and_then date_in (first_of (codes "from") (rows_of (found_of matches.now))) }
{
    date_in(optional_text_of(matches, "from")?)
}

/// The word of `--from` that names no day, where there is one.
pub fn no_day<'a>(matches: &ArgMatches<'a>, from: &Option<Date>) -> Option<&'a str>
    requires { option_map date_parts from.now
        ≡ option_and_then date_in (first_of (codes "from") (rows_of (found_of matches.now))) }
    ensures { not (is_some result) ≡ names_a_day (rows_of (found_of matches.now)) }
{
    match from {
        Some(_) => None,
        None => optional_text_of(matches, "from"),
    }
}

/// What is said of a word that names no day.
pub fn refused_day(alloc: Global, word: &str) -> NoCall
    ensures { IsNoHelp result }
{
    match format!(in alloc; "'{word}' for '--from' is no date, as 2026-01-05 is one") {
        Ok(fault) => refused(alloc, fault.as_str()),
        Err(_) => NoCall::OutOfMemory,
    }
}
