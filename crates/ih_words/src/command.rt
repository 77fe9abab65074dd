//! The commands, as callers see them, and how they are read.
ghost use Rattle.std.specs.Prelude.{◌≡◌, IfErr, IfOk, None, Some, map, string_bytes};
ghost use Rattle.ih_words.specs.SearchOptions.{IsAnswer};
ghost use Rattle.ih_words.specs.Words.{HasLawfulOptions, call_named, call_of, command_call};

use crate::advise::read_advise;
use crate::check::read_check;
use crate::demo::read_demo;
use crate::generate::read_gen;
use crate::plain::{MAX_LENGTH, MAX_ROUNDS, read_plain};
use crate::replay::read_replay;
use crate::solve::read_solve;
use crate::{Advise, Check, Gen, Plain, Replay, Solve, WordsError};
use std::alloc::Global;

/// A lawful command with its values.
#[derive(Clone, Copy, Debug)]
pub enum Command<'a> {
    /// Searches, and writes the journal and the best solution.
    Solve(Solve<'a>),
    /// Checks a journal, and writes the best solution.
    Replay(Replay<'a>),
    /// Takes what a damaged journal still tells, and writes the best solution of that.
    Salvage(Replay<'a>),
    /// Tells the costs of a solution.
    Check(Check<'a>),
    /// Searches by chains of moves, and writes the journal and the best solution.
    Chain(Plain<'a>),
    /// Searches several times, each time from the best of the search before, and writes the journals and the best
    /// solution.
    Rounds(Plain<'a>),
    /// Tells the best single change of each choice of a solution.
    Advise(Advise<'a>),
    /// Writes the instance that is made from a number.
    Gen(Gen<'a>),
    /// Searches on the instance that is made from this number, without files.
    Demo(u64),
}

// Reads the words of the command that has the name.
fn read_named<'a>(alloc: Global, name: &str, words: &'a [String]) -> Result<Command<'a>, WordsError>
    ensures read { IsAnswer command_call (call_named name.now (map string_bytes words.entry.now)) result }
    ensures lawful { IfOk result HasLawfulOptions }
{
    match name {
        "solve" => Ok(Command::Solve(read_solve(alloc, words)?)),
        "replay" => Ok(Command::Replay(read_replay(alloc, "replay", words)?)),
        "salvage" => Ok(Command::Salvage(read_replay(alloc, "salvage", words)?)),
        "check" => Ok(Command::Check(read_check(alloc, words)?)),
        "chain" => {
            let plain = read_plain(alloc, "chain", "length", MAX_LENGTH, words)?;
            Ok(Command::Chain(plain))
        }
        "rounds" => {
            let plain = read_plain(alloc, "rounds", "rounds", MAX_ROUNDS, words)?;
            Ok(Command::Rounds(plain))
        }
        "advise" => Ok(Command::Advise(read_advise(alloc, words)?)),
        "gen" => Ok(Command::Gen(read_gen(alloc, words)?)),
        "demo" => Ok(Command::Demo(read_demo(alloc, words)?)),
        _ => Err(WordsError::Unlawful),
    }
}

/// The command that the words give, with its values. The words are those after the program's name.
/// The first is the command's name, and `clap` reads them all. A number is written in digits, with
/// or without leading zeros and a plus sign.
///
/// # Errors
///
/// - `Unlawful` where no command has these words: the first word is no command's name, `clap` finds
///   a fault (a call for help is one), two file names are equal, a freeze day comes without the
///   file of a start or with `--fill`, or the journals could come to more than `MAX_ENTRIES` entries,
///   or chains to more moves than that.
/// - `OutOfMemory` where memory ran out.
pub fn read_words<'a>(alloc: Global, words: &'a [String]) -> Result<Command<'a>, WordsError>
    ensures ok { IfOk result (λ c. call_of (map string_bytes words.entry.now) ≡ Some (command_call c)) }
    ensures lawful { IfOk result HasLawfulOptions }
    ensures unlawful { IfErr result (λ e. e ≡ WordsError.Unlawful → call_of (map string_bytes words.entry.now) ≡ None) }
{
    let Some(name) = words.first() else {
        return Err(WordsError::Unlawful);
    };
    read_named(alloc, name.as_str(), words)
}
