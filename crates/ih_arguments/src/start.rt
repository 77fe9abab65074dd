//! What a search starts from, and the first day whose choices it may change: `--start F`, `--freeze DAY` and `--fill`.
ghost use Rattle.std.specs.Prelude.{◌≡◌, codes};
ghost use Rattle.clap.specs.Words.{found_of, rows_of};
ghost use Rattle.ih_arguments.specs.Start.{freezes_a_file, start_call, start_in, takes_a_file};
ghost use Rattle.ih_arguments.specs.Matches.{IsNumberIfGiven};

use crate::argument;
use crate::arguments::{Argument, Kind};
use crate::matches::{flag_of, is_given, optional_text_of, optional_u32_of};
use clap::ArgMatches;
use ih_plan::MAX_FREEZE;

/// What a search starts from.
#[derive(Clone, Copy, Debug)]
pub struct Start<'a> {
    /// The name of the file with the timetable, where one is given; else it is the empty timetable.
    pub file: Option<&'a str>,
    /// Whether the timetable is filled before the search.
    pub fill: bool,
    /// The first day whose choices may change; 0 where none is given.
    pub freeze: u32,
}

/// `--start F`.
pub const START: Argument<'static> = argument!(
    "start",
    Kind::Optional,
    "The file of a solution to start from [default: a fill from nobody]"
);

/// `--freeze DAY`.
pub const FREEZE: Argument<'static> = argument!(
    "freeze",
    Kind::OptionalNumber(0, MAX_FREEZE),
    "The first day whose choices may change; it needs '--start' [default: 0]"
);

/// `--fill`.
pub const FILL: Argument<'static> = argument!(
    "fill",
    Kind::Flag,
    "Fills the start before the search; not with '--freeze'"
);

/// What the search starts from.
pub fn start_in<'a>(matches: &ArgMatches<'a>) -> Start<'a>
    requires { IsNumberIfGiven 0 MAX_FREEZE (codes "freeze") (rows_of (found_of matches.now)) }
    ensures { start_call result ≡ start_in (rows_of (found_of matches.now)) }
{
    Start {
        file: optional_text_of(matches, "start"),
        fill: flag_of(matches, "fill"),
        freeze: optional_u32_of(matches, "freeze"),
    }
}

/// The timetable of a file is taken as it is.
pub fn takes_a_file(matches: &ArgMatches) -> bool
    ensures { result ≡ takes_a_file (rows_of (found_of matches.now)) }
{
    is_given(matches, "start") && !flag_of(matches, "fill")
}

/// A freeze day is given only there.
pub fn freezes_a_file(matches: &ArgMatches) -> bool
    ensures { result ≡ freezes_a_file (rows_of (found_of matches.now)) }
{
    !is_given(matches, "freeze") || takes_a_file(matches)
}
