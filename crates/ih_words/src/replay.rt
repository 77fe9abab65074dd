//! The commands `replay` and `salvage`: their description for `clap`, their values and when these are lawful.
ghost use Rattle.std.specs.Prelude.{◌≡◌, codes, map, option_map, string_bytes};
ghost use Rattle.clap.specs.Words.{found_of, rows_of};
ghost use Rattle.ih_arguments.specs.Matches.{IsNumberIfGiven, call_by};
ghost use Rattle.ih_words.specs.SearchOptions.{IsAnswer};
ghost use Rattle.ih_words.specs.Replay.{lawful_replay, replay_app, replay_call, replay_in};
ghost use Rattle.ih_plan.specs.declared.limits.TheConstants.{MAX_FREEZE};

use crate::WordsError;
use crate::search_options::{INSTANCE, JOURNAL, OUT, matches_in};
use clap::ArgMatches;
use ih_arguments::arguments::Description;
use ih_arguments::described;
use ih_arguments::file_names::names_differ;
use ih_arguments::matches::text_of;
use ih_arguments::start::{FILL, FREEZE, START, Start, freezes_a_file, start_in};
use std::alloc::Global;

/// `replay INSTANCE JOURNAL OUT` or `salvage INSTANCE JOURNAL OUT`, with its options.
#[derive(Clone, Copy, Debug)]
pub struct Replay<'a> {
    /// The name of the instance's file.
    pub instance: &'a str,
    /// The name of the journal's file.
    pub journal: &'a str,
    /// The name of the file that the solution goes to.
    pub out: &'a str,
    /// What the journal's search started from.
    pub start: Start<'a>,
}

// The values of `replay` or `salvage`.
fn replay_in<'a>(matches: &ArgMatches<'a>) -> Replay<'a>
    requires { IsNumberIfGiven 0 MAX_FREEZE (codes "freeze") (rows_of (found_of matches.now)) }
    ensures { replay_call result ≡ replay_in (rows_of (found_of matches.now)) }
{
    Replay {
        instance: text_of(matches, "INSTANCE"),
        journal: text_of(matches, "JOURNAL"),
        out: text_of(matches, "OUT"),
        start: start_in(matches),
    }
}

// The values of `replay` or `salvage`, where the file names differ and the freeze day is lawful.
fn lawful_replay<'a>(matches: &ArgMatches<'a>) -> Option<Replay<'a>>
    requires { IsNumberIfGiven 0 MAX_FREEZE (codes "freeze") (rows_of (found_of matches.now)) }
    ensures { option_map replay_call result ≡ lawful_replay (rows_of (found_of matches.now)) }
{
    let replay = replay_in(matches);
    let Replay {
        instance,
        journal,
        out,
        start,
    } = replay;
    if freezes_a_file(matches) && names_differ(instance, journal, out, start.file) {
        Some(replay)
    } else {
        None
    }
}

// Reads the words of `replay` or of `salvage`, whichever has the name.
pub(crate) fn read_replay<'a>(
    alloc: Global,
    name: &'a str,
    words: &'a [String],
) -> Result<Replay<'a>, WordsError>
    ensures { IsAnswer replay_call
        (call_by (replay_app name.entry.now) lawful_replay (map string_bytes words.entry.now)) result }
{
    let description = described!(name, [INSTANCE, JOURNAL, OUT, START, FREEZE, FILL]);
    let matches = matches_in(alloc, &description, words)?;
    lawful_replay(&matches).ok_or(WordsError::Unlawful)
}
