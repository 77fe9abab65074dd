//! The one call that does all that the program does.

ghost use Rattle.std.specs.Prelude.{map, string_bytes};
ghost use Rattle.ih_commands.specs.Below.Endings.{HasCauseOver, HasReceived, HasReceivedPart, HasShelfCause, Rose};
ghost use Rattle.ih_commands.specs.Calls.{call_of};
ghost use Rattle.ih_commands.specs.Ends.{HasFewPuts, IsComplete, IsUntouched, Leaves};

use crate::command::{perform, read_words};
use ih_arguments::explaining::NoCall;
use ih_endings::{Answer, Status, conclude, conclude_memory};
use ih_optimizer::Watch;
use ih_shelf::{Finds, Sink};
use std::alloc::Global;
use std::rt::Files;
use std::sync::Wait;
use std::thread::Threads;

/// Does all that the program does, by the words after its name. A search puts out a line after each round, and asks the
/// watch between rounds. At last one text is put out; where a page was written, there is none.
pub fn run_planner<R: Files + Print + Threads + Wait + Sync, S: Finds, O: Sink, W: Watch>(
    rt: &R,
    alloc: Global,
    words: &[String],
    shelf: &mut S,
    out: &mut O,
    watch: W,
) -> Status
    // What the files then hold, and the text that was put out, by the call that the words name and the status. Where
    // the shelf or the sink does not tell what it holds, nothing is claimed of that.
    ensures leaves { Leaves (map string_bytes words.now) (call_of (map string_bytes words.now)) (S.names shelf.old)
        (S.names shelf.new) (HasShelfCause S.Shelf shelf.old shelf.new) (HasReceived O.Sink out.old out.new result)
        (HasReceivedPart O.Sink out.old out.new) result }

    // At most one text is put out, in one put; in a search one more after each round.
    ensures once { HasFewPuts (call_of (map string_bytes words.now)) (O.puts out.old) (O.puts out.new) }

    // Where the words name no call, no file is so much as read.
    ensures untouched { IsUntouched (call_of (map string_bytes words.now)) shelf.old shelf.new }

    // A fault is answered only where its count rose in this call, or stands at the last number of 64 bits.
    ensures cause { HasCauseOver S.Shelf O.Sink shelf.old shelf.new out.old out.new result }

    // Where the shelf tells what it holds, the words are lawful, the files are as `HasFiles` says and no count rose:
    // improve ends with its best or with none, or pins nobody; view with its page, bound with what it says; or memory
    // runs out.
    ensures complete { IsComplete (call_of (map string_bytes words.now)) (S.names shelf.old)
        (Rose (S.read_faults shelf.old) (S.read_faults shelf.new))
        (Rose (S.write_faults shelf.old) (S.write_faults shelf.new))
        (Rose (O.faults out.old) (O.faults out.new)) result }
{
    match read_words(alloc, words) {
        Ok(command) => perform(rt, alloc, &command, shelf, out, watch),
        Err(NoCall::Help(text)) => conclude(
            rt,
            out,
            &Answer {
                status: Status::Done,
                text: text.into_bytes(),
            },
        ),
        Err(NoCall::Refused(text)) => conclude(
            rt,
            out,
            &Answer {
                status: Status::Usage,
                text: text.into_bytes(),
            },
        ),
        Err(NoCall::OutOfMemory) => conclude_memory(rt, out),
    }
}
