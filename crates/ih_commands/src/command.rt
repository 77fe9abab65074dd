//! The commands, as callers see them, how they are read and how they are done.

ghost use Rattle.std.specs.Prelude.{◌≡◌, ◌≢◌, IfErr, IfOk, None, Some, map, string_bytes, true};
ghost use Rattle.ih_commands.specs.Below.Arguments.{IsExplained, IsRead, app_of, is_simple_and_free};
ghost use Rattle.ih_commands.specs.Below.Endings.{EndsOver, HasCauseOver};
ghost use Rattle.ih_commands.specs.Calls.{HasLawfulSettings, app_for, app_named, call_named, call_of, command_call};
ghost use Rattle.ih_commands.specs.Calls.{program_app};
ghost use Rattle.ih_commands.specs.Ends.{CallEnds, HasFewPuts};

pub mod bound;
mod calls;
pub mod carry;
pub mod check;
mod common;
mod days;
pub mod improve_words;
pub mod table;
pub mod view;
pub mod why;

use crate::command::bound::{BOUND, Bound};
use crate::command::calls::read_call;
use crate::command::carry::{CARRY, Carry};
use crate::command::check::{CHECK, Check};
use crate::command::improve_words::IMPROVE;
use crate::command::table::{TABLE, Table};
use crate::command::view::{VIEW, View};
use crate::command::why::{WHY, Why};
use ih_arguments::arguments::{Description, with_commands};
use ih_arguments::explaining::{NoCall, explained, refused};
use ih_endings::Status;
use ih_optimizer::{Improve, Watch, improve};
use ih_shelf::{Finds, Sink};
use std::alloc::{AllocError, Global};
use std::rt::Files;
use std::sync::Wait;
use std::thread::Threads;

/// A lawful command with its values.
#[derive(Debug, Drop)]
pub enum Command<'a> {
    /// Searches for a better plan.
    Improve(Improve<'a>),
    /// Writes the page of a solution's timetable.
    View(View<'a>),
    /// Says what no feasible timetable costs less than.
    Bound(Bound<'a>),
    /// Says which hard rules a solution breaks and what it costs.
    Check(Check<'a>),
    /// Carries a plan over to a ward that has changed.
    Carry(Carry<'a>),
    /// Writes a solution's timetable as a table or a calendar.
    Table(Table<'a>),
    /// Says why an instance has no feasible timetable.
    Why(Why<'a>),
}

const COMMANDS: [Description<'static, 'static>; 7] = [
    IMPROVE, VIEW, BOUND, CHECK, CARRY, TABLE, WHY,
];

// All commands, for the help on the program.
fn program_description<'a>(alloc: Global) -> Result<clap::Command<'a>, AllocError>
    ensures app { IfOk result (λ c. app_of c ≡ program_app) }
    ensures simple { is_simple_and_free program_app ≡ true }
{
    let empty = clap::Command::new(alloc, "ih_planner")
        .about("Makes timetables better, shows, checks and bounds them")
        .no_binary_name(true)
        .subcommand_required(true)
        .arg_required_else_help(true);
    with_commands(alloc, empty, &COMMANDS)
}

// What is said of words of which the first is no command's name.
fn explained_commands<'a>(alloc: Global, words: &'a [String]) -> NoCall
    ensures { IsExplained program_app (map string_bytes words.entry.now) result }
{
    let Ok(program) = program_description(alloc) else {
        return NoCall::OutOfMemory;
    };
    match program.try_get_matches_from(words) {
        Ok(_) => refused(alloc, "no command has this name"),
        Err(error) => explained(alloc, error),
    }
}

// Reads the words of the command that has the name.
fn read_named<'a>(alloc: Global, name: &str, words: &'a [String]) -> Result<Command<'a>, NoCall>
    ensures read { IsRead command_call (call_named name.now (map string_bytes words.entry.now)) (app_named name.now)
        (map string_bytes words.entry.now) result }
    ensures lawful { IfOk result HasLawfulSettings }
{
    match name {
        "improve" => Ok(Command::Improve(read_call(alloc, &IMPROVE, words)?)),
        "view" => Ok(Command::View(read_call(alloc, &VIEW, words)?)),
        "bound" => Ok(Command::Bound(read_call(alloc, &BOUND, words)?)),
        "check" => Ok(Command::Check(read_call(alloc, &CHECK, words)?)),
        "carry" => Ok(Command::Carry(read_call(alloc, &CARRY, words)?)),
        "table" => Ok(Command::Table(read_call(alloc, &TABLE, words)?)),
        "why" => Ok(Command::Why(read_call(alloc, &WHY, words)?)),
        _ => Err(explained_commands(alloc, words)),
    }
}

/// The command that the words give, with its values. The words are those after the program's name. The first is the
/// command's name, and `clap` reads them all. A number is written in digits, with or without leading zeros and a plus
/// sign.
///
/// # Errors
///
/// - `Help` where the words ask for help, and `Refused` where no command has them: the first word is no command's name,
///   `clap` finds a fault, two file names are equal, a freeze day comes without the file of a start or with `--fill`,
///   seconds come with attempts, or `--empty` with `--start` or `--fill`, `--keep`, `--pin` or `--pin-nurses` as a freeze
///   day does, the temperature would rise, the workers together would make more than `MAX_CALL_ATTEMPTS` attempts, `--from` names
///   no day, `--of` no subject, or a calendar comes without `--from`.
/// - `OutOfMemory` where memory ran out.
pub fn read_words<'a>(alloc: Global, words: &'a [String]) -> Result<Command<'a>, NoCall>
    ensures ok { IfOk result (λ c. call_of (map string_bytes words.entry.now) ≡ Some (command_call c)) }
    ensures lawful { IfOk result HasLawfulSettings }
    ensures none { IfErr result (λ e. e ≢ NoCall.OutOfMemory → call_of (map string_bytes words.entry.now) ≡ None) }
    ensures explained { IfErr result
        (IsExplained (app_for (map string_bytes words.entry.now)) (map string_bytes words.entry.now)) }
{
    let Some(name) = words.first() else {
        return Err(explained_commands(alloc, words));
    };
    read_named(alloc, name.as_str(), words)
}

/// Does what the command asks for, and says how that ended.
pub(crate) fn perform<R: Files + Print + Threads + Wait + Sync, S: Finds, O: Sink, W: Watch>(
    rt: &R,
    alloc: Global,
    command: &Command<'_>,
    shelf: &mut S,
    out: &mut O,
    watch: W,
) -> Status
    requires { HasLawfulSettings command.now }
    ensures ends { EndsOver S.Shelf O.Sink shelf.old shelf.new out.old out.new
        (CallEnds (command_call command.now)) result }
    ensures once { HasFewPuts (Some (command_call command.now)) (O.puts out.old) (O.puts out.new) }
    ensures cause { HasCauseOver S.Shelf O.Sink shelf.old shelf.new out.old out.new result }
{
    match command {
        Command::Improve(call) => improve(rt, alloc, call, shelf, out, watch),
        Command::View(call) => ih_frame::perform(rt, alloc, call, shelf, out),
        Command::Bound(call) => ih_frame::perform(rt, alloc, call, shelf, out),
        Command::Check(call) => ih_frame::perform(rt, alloc, call, shelf, out),
        Command::Carry(call) => ih_frame::perform(rt, alloc, call, shelf, out),
        Command::Table(call) => ih_frame::perform(rt, alloc, call, shelf, out),
        Command::Why(call) => ih_frame::perform(rt, alloc, call, shelf, out),
    }
}
