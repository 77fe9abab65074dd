//! A call of a command, from its files to its status.

ghost use Rattle.std.specs.Prelude.{◌≡◌, ◌≤◌, IfOk};
ghost use Rattle.ih_shelf.specs.Outside.{IfTold, IsOnePutAtMost};
ghost use Rattle.ih_endings.specs.Answers.{Answers, HasShelfCause};
ghost use Rattle.ih_endings.specs.Ends.{EndsOver, HasCauseOver};
ghost use Rattle.ih_frame.specs.{Ends.CommandEnds, Ends.MadeEnds, Outcomes.IsLeft, Outcomes.IsOwnStatus};
ghost use Rattle.ih_frame.specs.Outcomes.{outcome_of};

use crate::command::Command;
use crate::outcome::{Made, Outcome};
use crate::writing::write_all;
use ih_endings::{Answer, Status, conclude, out_of_memory, read_or_answer};
use ih_shelf::{Shelf, Sink};
use std::alloc::Global;
use std::rt::Files;
use std::sync::Wait;
use std::thread::Threads;

// Writes the files of an outcome. The answer says the rest of it, or which file couldn't be written.
fn carry_out_whole<R: Files, S: Shelf>(
    rt: &R,
    alloc: Global,
    outcome: Outcome<'_>,
    shelf: &mut S,
) -> Answer
    requires { IsOwnStatus outcome.status }
    ensures ends { Answers (IsLeft (outcome_of outcome.entry) (S.names shelf.old) (S.names shelf.new)) result }
    ensures cause { HasShelfCause S.Shelf shelf.old shelf.new result.status }
    ensures count { S.write_faults shelf.old ≤ S.write_faults shelf.new }
    ensures other_count { S.read_faults shelf.new ≡ S.read_faults shelf.old }
{
    let Outcome {
        writes,
        text,
        status,
    } = outcome;
    match write_all(rt, alloc, writes.as_slice(), shelf) {
        Ok(()) => Answer { status, text },
        Err(answer) => answer,
    }
}

/// Writes the files of an outcome, where it was made and memory didn't run out before. The answer says the rest of it, or
/// which file couldn't be written. For commands that rest on a type of their caller's, as a gate is, in threads: a trait
/// can't hand that on.
pub fn carry_out<R: Files, S: Shelf>(rt: &R, alloc: Global, made: Made<'_>, shelf: &mut S) -> Answer
    requires { IfOk made (λ o. IsOwnStatus o.status) }
    ensures ends { Answers (MadeEnds made.entry (S.names shelf.old) (S.names shelf.new)) result }
    ensures cause { HasShelfCause S.Shelf shelf.old shelf.new result.status }
    ensures count { S.write_faults shelf.old ≤ S.write_faults shelf.new }
    ensures other_count { S.read_faults shelf.new ≡ S.read_faults shelf.old }
{
    match made {
        Ok(outcome) => carry_out_whole(rt, alloc, outcome, shelf),
        Err(_) => out_of_memory(alloc),
    }
}

// Reads the files of a command, and writes what it comes to.
fn answer_of<R: Files + Threads + Wait + Sync, C: Command, S: Shelf>(
    rt: &R,
    alloc: Global,
    command: &C,
    shelf: &mut S,
) -> Answer
    requires { C.is_lawful command.now }
    ensures ends { Answers
        (CommandEnds (C.comes_to command.now) (C.files command.now) (S.names shelf.old) (S.names shelf.new)) result }
    ensures cause { HasShelfCause S.Shelf shelf.old shelf.new result.status }
{
    match read_or_answer(rt, alloc, &command.names(), shelf) {
        Ok(inputs) => {
            let made = command.outcome(rt, alloc, inputs);
            carry_out(rt, alloc, made, shelf)
        }
        Err(answer) => answer,
    }
}

/// Does a command: reads its files, writes what it comes to, puts its text in one put, and ends with its status.
pub fn perform<R: Files + Print + Threads + Wait + Sync, C: Command, S: Shelf, O: Sink>(
    rt: &R,
    alloc: Global,
    command: &C,
    shelf: &mut S,
    out: &mut O,
) -> Status
    requires { C.is_lawful command.now }
    ensures ends { EndsOver S.Shelf O.Sink shelf.old shelf.new out.old out.new
        (CommandEnds (C.comes_to command.now) (C.files command.now)) result }
    ensures once { IfTold IsOnePutAtMost (O.puts out.old) (O.puts out.new) }
    ensures cause { HasCauseOver S.Shelf O.Sink shelf.old shelf.new out.old out.new result }
{
    let answer = answer_of(rt, alloc, command, shelf);
    conclude(rt, out, &answer)
}

/// Ends a command that reads no file: writes the file that was made, puts the text in one put, and gives the status.
/// Where memory ran out as that was made, it says so.
pub fn finish<R: Files + Print, S: Shelf, O: Sink>(
    rt: &R,
    alloc: Global,
    made: Made<'_>,
    shelf: &mut S,
    out: &mut O,
) -> Status
    requires { IfOk made (λ o. IsOwnStatus o.status) }
    ensures ends { EndsOver S.Shelf O.Sink shelf.old shelf.new out.old out.new (MadeEnds made.entry) result }
    ensures once { IfTold IsOnePutAtMost (O.puts out.old) (O.puts out.new) }
    ensures cause { HasCauseOver S.Shelf O.Sink shelf.old shelf.new out.old out.new result }
    ensures shelf_count { S.write_faults shelf.old ≤ S.write_faults shelf.new }
    ensures reads { S.read_faults shelf.new ≡ S.read_faults shelf.old }
    ensures count { O.faults out.old ≤ O.faults out.new }
    ensures lack_count { O.lacks out.old ≤ O.lacks out.new }
{
    let answer = carry_out(rt, alloc, made, shelf);
    conclude(rt, out, &answer)
}
