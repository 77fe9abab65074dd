//! The commands, each by the module that says what it comes to.

ghost use Rattle.std.specs.Prelude.{Some};
ghost use Rattle.ih_top.specs.Below.Arguments.{HasLawfulOptions, OutDiffers, command_call};
ghost use Rattle.ih_top.specs.Below.Endings.{EndsOver, HasCauseOver, IfTold, IsOnePutAtMost};
ghost use Rattle.ih_top.specs.{Ends.CallEnds, Ends.IsUntouched};

use crate::check::Checking;
use crate::demo::demo;
use crate::gated::{Gated, perform_gated};
use crate::generate::generated_outcome;
use crate::journals::{JournalUse, Taking};
use crate::searching::Method;
use ih_endings::{Status, conclude};
use ih_frame::finish;
use ih_shelf::{Gate, Shelf, Sink};
use ih_words::Command;
use std::alloc::Global;
use std::rt::Files;
use std::sync::Wait;
use std::thread::Threads;

/// Does what the command asks for, and says how that ended. A demo is handed no file.
pub fn perform<R: Files + Print + Threads + Wait + Sync, S: Shelf, O: Sink, G: Gate>(
    rt: &R,
    alloc: Global,
    command: &Command<'_>,
    shelf: &mut S,
    out: &mut O,
    gate: &G,
) -> Status
    requires differ { OutDiffers (command_call command.now) }
    requires lawful { HasLawfulOptions command.now }
    ensures ends { EndsOver S.Shelf O.Sink shelf.old shelf.new out.old out.new
        (CallEnds (command_call command.now)) result }
    ensures once { IfTold IsOnePutAtMost (O.puts out.old) (O.puts out.new) }
    ensures cause { HasCauseOver S.Shelf O.Sink shelf.old shelf.new out.old out.new result }
    ensures untouched { IsUntouched (Some (command_call command.now)) shelf.old shelf.new }
{
    match command {
        Command::Solve(call) => {
            let gated = Gated::Search(Method::Moves, call);
            perform_gated(rt, alloc, gated, shelf, out, gate)
        }
        Command::Chain(chain) => {
            let gated = Gated::Search(Method::Chains(chain.number), &chain.search);
            perform_gated(rt, alloc, gated, shelf, out, gate)
        }
        Command::Rounds(rounds) => {
            let gated = Gated::Search(Method::Rounds(rounds.number), &rounds.search);
            perform_gated(rt, alloc, gated, shelf, out, gate)
        }
        Command::Replay(call) => {
            let journal_use = JournalUse::Replay;
            ih_frame::perform(rt, alloc, &Taking { journal_use, call }, shelf, out)
        }
        Command::Salvage(call) => {
            let journal_use = JournalUse::Salvage;
            ih_frame::perform(rt, alloc, &Taking { journal_use, call }, shelf, out)
        }
        Command::Check(call) => ih_frame::perform(rt, alloc, &Checking { call }, shelf, out),
        Command::Advise(call) => perform_gated(rt, alloc, Gated::Advise(call), shelf, out, gate),
        Command::Gen(call) => {
            let made = generated_outcome(alloc, call);
            finish(rt, alloc, made, shelf, out)
        }
        Command::Demo(number) => {
            let answer = demo(rt, alloc, *number, gate);
            conclude(rt, out, &answer)
        }
    }
}
