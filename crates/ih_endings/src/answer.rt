//! A command's answer, and how it is said.

ghost use Rattle.std.specs.Prelude.{◌≡◌, ◌≤◌, ◌⊎◌};
ghost use Rattle.ih_endings.specs.Answers.{unsaid, IsConcluded, HasSinkCause};
ghost use Rattle.ih_endings.specs.Texts.{memory_text};
ghost use Rattle.ih_endings.specs.Ends.{HasReceived, HasReceivedPart};
ghost use Rattle.ih_shelf.specs.Outside.{IfTold, IsOnePutAtMost};

use crate::status::Status;
use ih_shelf::{Sink, WriteError};

/// How a command ended, and the text that says so. Where memory ran out, the text doesn't count.
#[derive(Drop)]
pub struct Answer {
    pub status: Status,
    pub text: Vec<u8>,
}

// The status of an answer whose text couldn't be put out: where that was all that was left to do, it is the fault.
fn unsaid(status: Status) -> Status
    ensures { result ≡ unsaid status }
{
    match status {
        Status::Done | Status::Infeasible => Status::WriteFault(None),
        status => status,
    }
}

/// Says that memory ran out, as far as that goes.
#[tactic(auto, using(crate::proofs::Puts::one_put, crate::proofs::Puts::none_put))]
pub fn conclude_memory<R: Print, O: Sink>(rt: &R, out: &mut O) -> Status
    ensures status { result ≡ Status.OutOfMemory }
    ensures said { HasReceived O.Sink out.old out.new result memory_text
        ⊎ HasReceivedPart O.Sink out.old out.new memory_text }
    ensures once { IfTold IsOnePutAtMost (O.puts out.old) (O.puts out.new) }
    ensures count { O.faults out.old ≤ O.faults out.new }
    ensures lack_count { O.lacks out.old ≤ O.lacks out.new }
{
    match out.put(rt, b"out of memory\n") {
        Ok(()) => Status::OutOfMemory,
        Err(_) => Status::OutOfMemory,
    }
}

/// Puts the answer's text, in one put, and gives the status of the call. An empty text isn't put.
#[tactic(auto, using(crate::proofs::Puts::one_put, crate::proofs::Puts::none_put))]
pub fn conclude<R: Print, O: Sink>(rt: &R, out: &mut O, answer: &Answer) -> Status
    ensures said { IsConcluded answer.now.status answer.now.text.items
        (HasReceived O.Sink out.old out.new result) (HasReceivedPart O.Sink out.old out.new) result }
    ensures once { IfTold IsOnePutAtMost (O.puts out.old) (O.puts out.new) }
    ensures cause { HasSinkCause O.Sink out.old out.new answer.now.status result }
    ensures count { O.faults out.old ≤ O.faults out.new }
    ensures lack_count { O.lacks out.old ≤ O.lacks out.new }
{
    if let Status::OutOfMemory = answer.status {
        return conclude_memory(rt, out);
    }
    if answer.text.is_empty() {
        return answer.status;
    }
    match out.put(rt, answer.text.as_slice()) {
        Ok(()) => answer.status,
        Err(WriteError::Fault) => unsaid(answer.status),
        Err(WriteError::OutOfMemory) => Status::OutOfMemory,
    }
}
