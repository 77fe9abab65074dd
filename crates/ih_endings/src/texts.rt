//! The answers that say one line, and the one that memory ran out, which carries no text.

ghost use Rattle.std.specs.Prelude.{◌≡◌, Some, string_bytes};
ghost use Rattle.ih_endings.specs.Texts.{none_found_text, refused_text, too_long_text, unread_text, unwritten_text};
ghost use Rattle.ih_endings.specs.Answers.{IsSaid, IsSaidOf, IsUnwritten};

use crate::answer::Answer;
use crate::status::{Role, Status};
use ih_shelf::WriteError;
use ih_tables::Refusal;
use std::alloc::{AllocError, Global};

/// Memory ran out.
pub fn out_of_memory(alloc: Global) -> Answer
    ensures { result.status ≡ Status.OutOfMemory }
{
    Answer {
        status: Status::OutOfMemory,
        text: Vec::new(alloc),
    }
}

/// A status with its text, where there was memory to make that.
pub fn said(alloc: Global, status: Status, text: Result<String, AllocError>) -> Answer
    ensures { IsSaidOf string_bytes status text result }
{
    match text {
        Ok(text) => Answer {
            status,
            text: text.into_bytes(),
        },
        Err(_) => out_of_memory(alloc),
    }
}

/// A file couldn't be read.
#[tactic(auto, using(crate::proofs::Saying::said_by))]
pub fn unread(alloc: Global, role: Role, name: &str) -> Answer
    ensures { IsSaid (Status.ReadFault role) (unread_text name.now) result }
{
    let text = format!(in alloc; "cannot read {name}\n");
    said(alloc, Status::ReadFault(role), text)
}

/// A file is longer than its limit.
#[tactic(auto, using(crate::proofs::Saying::said_by))]
pub fn too_long(alloc: Global, role: Role, name: &str) -> Answer
    ensures { IsSaid (Status.TooLong role) (too_long_text name.now) result }
{
    let text = format!(in alloc; "too long: {name}\n");
    said(alloc, Status::TooLong(role), text)
}

/// The file that `what` names is refused.
#[tactic(auto, using(crate::proofs::Saying::said_by))]
pub fn refused(alloc: Global, status: Status, what: &str, refusal: Refusal) -> Answer
    ensures { IsSaid status (refused_text what.now refusal) result }
{
    let text = format!(in alloc; "{what} refused: {refusal}\n");
    said(alloc, status, text)
}

/// No timetable was found that breaks no hard rule.
#[tactic(auto, using(crate::proofs::Saying::said_by))]
pub fn none_found(alloc: Global) -> Answer
    ensures { IsSaid Status.NoneFound none_found_text result }
{
    let text = String::from_str(alloc, "none found\n");
    said(alloc, Status::NoneFound, text)
}

/// A file couldn't be written, or memory ran out at it.
#[tactic(auto, using(crate::proofs::Saying::said_by))]
pub fn unwritten(alloc: Global, role: Role, name: &str, error: WriteError) -> Answer
    ensures { IsUnwritten (Status.WriteFault (Some role)) (unwritten_text name.now) error result }
{
    match error {
        WriteError::Fault => {
            let text = format!(in alloc; "cannot write {name}\n");
            said(alloc, Status::WriteFault(Some(role)), text)
        }
        WriteError::OutOfMemory => out_of_memory(alloc),
    }
}
