//! The command `demo`: its description for `clap` and its value.
ghost use Rattle.std.specs.Prelude.{◌≡◌, map, string_bytes};
ghost use Rattle.ih_arguments.specs.{Matches.call_by};
ghost use Rattle.ih_words.specs.{Demo.demo_app, Demo.lawful_demo, SearchOptions.IsAnswer};

use crate::WordsError;
use crate::search_options::{NUMBER, matches_in};
use ih_arguments::arguments::Description;
use ih_arguments::described;
use ih_arguments::matches::u64_of;
use std::alloc::Global;

const DEMO: Description<'static, 'static> = described!("demo", [NUMBER]);

// Reads the words of `demo`: its number.
pub(crate) fn read_demo(alloc: Global, words: &[String]) -> Result<u64, WordsError>
    ensures { IsAnswer (λ number. number) (call_by demo_app lawful_demo (map string_bytes words.now)) result }
{
    let matches = matches_in(alloc, &DEMO, words)?;
    Ok(u64_of(&matches, "NUMBER"))
}
