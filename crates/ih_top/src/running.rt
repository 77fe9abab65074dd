//! The one call that does all that the program does.

ghost use Rattle.std.specs.Prelude.{map, string_bytes};
ghost use Rattle.ih_top.specs.Below.Arguments.{call_of};
ghost use Rattle.ih_top.specs.Below.Endings.{HasCauseOver, HasReceived, HasReceivedPart, HasShelfCause, IfTold};
ghost use Rattle.ih_top.specs.Below.Endings.{IsOnePutAtMost, Rose};
ghost use Rattle.ih_top.specs.Ends.{IsComplete, IsUntouched, Leaves};

use crate::commands::perform;
use crate::texts::usage;
use ih_endings::{Status, conclude, conclude_memory};
use ih_shelf::{Gate, Shelf, Sink};
use ih_words::{WordsError, read_words};
use std::alloc::Global;
use std::rt::Files;
use std::sync::Wait;
use std::thread::Threads;

/// Does all that the program does, by the words after its name.
///
/// The words are read first, then the files, then the command does its work: a search writes its journal, then the
/// solution of its best. At last one text is put out. Where one of these fails, nothing later is done but to say so.
pub fn run<R: Files + Print + Threads + Wait + Sync, S: Shelf, O: Sink, G: Gate>(
    rt: &R,
    alloc: Global,
    words: &[String],
    shelf: &mut S,
    out: &mut O,
    gate: &G,
) -> Status
    // What the files then hold, and the text that was put out, by the call that the words name and the status. Where
    // the shelf or the sink does not tell what it holds, nothing is claimed of that.
    ensures leaves { Leaves (call_of (map string_bytes words.now)) (S.names shelf.old) (S.names shelf.new)
        (HasShelfCause S.Shelf shelf.old shelf.new) (HasReceived O.Sink out.old out.new result)
        (HasReceivedPart O.Sink out.old out.new) result }

    // At most one text is put out, in one put.
    ensures once { IfTold IsOnePutAtMost (O.puts out.old) (O.puts out.new) }

    // Where the words name no call, and in a demo, no file is so much as read.
    ensures untouched { IsUntouched (call_of (map string_bytes words.now)) shelf.old shelf.new }

    // A fault is answered only where its count rose in this call, or stands at the last number of 64 bits.
    ensures cause { HasCauseOver S.Shelf O.Sink shelf.old shelf.new out.old out.new result }

    // Where the shelf tells what it holds, the words are lawful, the files are as `HasFiles` says and no count rose: a
    // search, a demo, a replay or a salvage ends with its best or with none, a check with its report, an advise with
    // its advice, a gen with its file; or memory runs out.
    ensures complete { IsComplete (call_of (map string_bytes words.now)) (S.names shelf.old)
        (Rose (S.read_faults shelf.old) (S.read_faults shelf.new))
        (Rose (S.write_faults shelf.old) (S.write_faults shelf.new))
        (Rose (O.faults out.old) (O.faults out.new)) result }
{
    match read_words(alloc, words) {
        Ok(command) => perform(rt, alloc, &command, shelf, out, gate),
        Err(WordsError::Unlawful) => conclude(rt, out, &usage(alloc)),
        Err(WordsError::OutOfMemory) => conclude_memory(rt, out),
    }
}
