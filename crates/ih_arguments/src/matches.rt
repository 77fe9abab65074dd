//! What `clap` reads of the words of a command, and the values that it gives to the arguments.
ghost use Rattle.std.specs.Prelude.{◌≡◌, IfErr, IfOk, true, map, option_map, string_bytes};
ghost use Rattle.clap.specs.Words.{HasKind, fault_of, first_of, found_of, is_simple_and_free, rows_of};
ghost use Rattle.ih_arguments.specs.Arguments.{app_by};
ghost use Rattle.ih_arguments.specs.Matches.{HasNumber, IsNumberIfGiven, flag_at};
ghost use Rattle.ih_arguments.specs.Matches.{is_given, number_at, number_if_given, text_at, texts_at};
ghost use Rattle.ih_arguments.specs.Rules.{AreMatches, has_independent_rules};

use crate::arguments::{Description, command};
use clap::ArgMatches;
use std::alloc::{AllocError, Global};

/// What `clap` reads of the words of a command with this description, or its error, which has a text for the user.
pub fn matched<'a>(
    alloc: Global,
    description: &Description<'_, 'a>,
    words: &'a [String],
) -> Result<ArgMatches<'a>, clap::Error>
    requires simple { is_simple_and_free (app_by description.now) ≡ true }
    requires independent { has_independent_rules (app_by description.now) ≡ true }
    ensures matched { IfOk result (AreMatches (app_by description.entry.now) (map string_bytes words.entry.now)) }
    ensures faults { IfErr result (HasKind (fault_of (app_by description.entry.now) (map string_bytes words.entry.now))) }
{
    let command = command(alloc, description)?;
    match command.try_get_matches_from(words) {
        Ok(matches) => Ok(matches),
        Err(error) => Err(error),
    }
}

/// The text of an argument that may be left out.
pub fn optional_text_of<'a>(matches: &ArgMatches<'a>, id: &str) -> Option<&'a str>
    ensures { option_map (λ t. t.now) result ≡ first_of id.now (rows_of (found_of matches.now)) }
{
    matches.get_str(id)
}

/// The texts of an argument, once for each time that it was given.
pub fn texts_of<'a>(
    alloc: Global,
    matches: &ArgMatches<'a>,
    id: &str,
) -> Result<Vec<&'a str>, AllocError>
    ensures { IfOk result (λ texts. map (λ t. t.now) texts.items ≡ texts_at id.now (rows_of (found_of matches.now))) }
{
    match matches.get_strs(id) {
        None => Ok(Vec::new(alloc)),
        Some(texts) => Vec::from_slice(alloc, texts),
    }
}

/// The text of an argument; where it was left out, an empty one.
pub fn text_of<'a>(matches: &ArgMatches<'a>, id: &str) -> &'a str
    ensures { result.now ≡ text_at id.now (rows_of (found_of matches.now)) }
{
    optional_text_of(matches, id).unwrap_or("")
}

/// The argument was given.
pub fn is_given(matches: &ArgMatches, id: &str) -> bool
    ensures { result ≡ is_given id.now (rows_of (found_of matches.now)) }
{
    optional_text_of(matches, id).is_some()
}

/// Whether the flag was given.
pub fn flag_of(matches: &ArgMatches, id: &str) -> bool
    ensures { result ≡ flag_at id.now (rows_of (found_of matches.now)) }
{
    matches.get_one::<bool>(id).unwrap_or(false)
}

/// The number of an argument that has one.
pub fn u64_of(matches: &ArgMatches, id: &str) -> u64
    requires { HasNumber 0 18446744073709551615 id.now (rows_of (found_of matches.now)) }
    ensures { result ≡ number_at id.now (rows_of (found_of matches.now)) }
{
    matches.get_one::<u64>(id).unwrap()
}

/// The number of an argument that has one of at most 32 bits.
pub fn u32_of(matches: &ArgMatches, id: &str) -> u32
    requires { HasNumber 0 4294967295 id.now (rows_of (found_of matches.now)) }
    ensures { result ≡ number_at id.now (rows_of (found_of matches.now)) }
{
    matches.get_one::<u32>(id).unwrap()
}

/// The number of an argument that may be left out, and 0 then.
pub fn optional_u32_of(matches: &ArgMatches, id: &str) -> u32
    requires { IsNumberIfGiven 0 4294967295 id.now (rows_of (found_of matches.now)) }
    ensures { result ≡ number_at id.now (rows_of (found_of matches.now)) }
{
    matches.get_one::<u32>(id).unwrap_or(0)
}

/// The number of an argument that may be left out.
pub fn number_if_given(matches: &ArgMatches, id: &str) -> Option<u32>
    requires { IsNumberIfGiven 0 4294967295 id.now (rows_of (found_of matches.now)) }
    ensures { result ≡ number_if_given id.now (rows_of (found_of matches.now)) }
{
    matches.get_one::<u32>(id)
}

/// The number, of at most 64 bits, of an argument that may be left out; none where it is left out.
pub fn any_number_if_given(matches: &ArgMatches, id: &str) -> Option<u64>
    requires { IsNumberIfGiven 0 18446744073709551615 id.now (rows_of (found_of matches.now)) }
    ensures { result ≡ number_if_given id.now (rows_of (found_of matches.now)) }
{
    matches.get_one::<u64>(id)
}
