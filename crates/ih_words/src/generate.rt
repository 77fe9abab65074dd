//! The command `gen`: its description for `clap` and its values.
ghost use Rattle.std.specs.Prelude.{◌≡◌, codes, map, string_bytes};
ghost use Rattle.clap.specs.Words.{found_of, rows_of};
ghost use Rattle.ih_words.specs.Generate.{gen_app, gen_call, gen_in, lawful_gen};
ghost use Rattle.ih_arguments.specs.Matches.{HasNumber, call_by};
ghost use Rattle.ih_words.specs.SearchOptions.{IsAnswer};

use crate::WordsError;
use crate::search_options::{NUMBER, OUT, matches_in};
use clap::ArgMatches;
use ih_arguments::arguments::Description;
use ih_arguments::described;
use ih_arguments::matches::{text_of, u64_of};
use std::alloc::Global;

/// `gen NUMBER OUT`.
#[derive(Clone, Copy, Debug)]
pub struct Gen<'a> {
    /// The number that the instance is made from.
    pub number: u64,
    /// The name of the file that the instance goes to.
    pub out: &'a str,
}

const GEN: Description<'static, 'static> = described!("gen", [NUMBER, OUT]);

// The values of `gen`.
fn gen_in<'a>(matches: &ArgMatches<'a>) -> Gen<'a>
    requires { HasNumber 0 18446744073709551615 (codes "NUMBER") (rows_of (found_of matches.now)) }
    ensures { gen_call result ≡ gen_in (rows_of (found_of matches.now)) }
{
    Gen {
        number: u64_of(matches, "NUMBER"),
        out: text_of(matches, "OUT"),
    }
}

// Reads the words of `gen`.
pub(crate) fn read_gen<'a>(alloc: Global, words: &'a [String]) -> Result<Gen<'a>, WordsError>
    ensures { IsAnswer gen_call (call_by gen_app lawful_gen (map string_bytes words.entry.now)) result }
{
    let matches = matches_in(alloc, &GEN, words)?;
    Ok(gen_in(&matches))
}
