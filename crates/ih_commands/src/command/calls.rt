//! Commands whose words are read by one function.

ghost use Rattle.std.specs.Prelude.{IfOk, map, string_bytes};
ghost use Rattle.ih_commands.specs.Below.Arguments.{IsRead, call_by};
ghost use Rattle.ih_commands.specs.Calls.Worded.{IsDescribed};

use clap::ArgMatches;
use ih_arguments::arguments::Description;
use ih_arguments::explaining::{NoCall, explained};
use ih_arguments::matches::matched;
use std::alloc::Global;

/// The values of a command's lawful call: how `clap` reads its words, and which call its matches stand for.
pub trait Worded<'a>: Sized {
    ghost use Rattle.std.specs.Prelude.{◌≡◌, IfErr, IfOk, Some};
    ghost use Rattle.ih_commands.specs.Below.Arguments.{found_of, rows_of};
    ghost use Rattle.ih_commands.specs.Calls.Worded.{IsMatched, IsRefusal, Wording};

    /// What a call asks for.
    ghost Call: { Type 0 };

    /// How its words are read.
    ghost wording: { Wording Self Call };

    /// What else holds of values that are read.
    ghost holds: { Self → Type 0 } = { λ _. Unit {0} };

    /// The values that `clap`'s matches give, or what is said of them where they aren't lawful.
    fn of_matches(alloc: Global, matches: &ArgMatches<'a>) -> Result<Self, NoCall>
        requires { IsMatched wording.app matches.now }
        ensures call { IfOk result (λ x. wording.lawful (rows_of (found_of matches.now)) ≡ Some (wording.call x)) }
        ensures holds { IfOk result holds }
        ensures refused { IfErr result (IsRefusal (wording.lawful (rows_of (found_of matches.now)))) };
}

/// Reads the words of a command that is described so for `clap`.
pub fn read_call<'a, C: Worded<'a>>(
    alloc: Global,
    description: &Description<'_, 'a>,
    words: &'a [String],
) -> Result<C, NoCall>
    requires { IsDescribed C.wording.app description.now }
    ensures read { IsRead C.wording.call (call_by C.wording.app C.wording.lawful (map string_bytes words.entry.now))
        C.wording.app (map string_bytes words.entry.now) result }
    ensures holds { IfOk result C.holds }
{
    match matched(alloc, description, words) {
        Ok(matches) => C::of_matches(alloc, &matches),
        Err(error) => Err(explained(alloc, error)),
    }
}
