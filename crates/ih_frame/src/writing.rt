//! The writing of what a command comes to.

ghost use Rattle.std.specs.Prelude.{◌≡◌, ◌≤◌, IfErr, OnOk, map};
ghost use Rattle.ih_shelf.specs.Outside.{IfTold};
ghost use Rattle.ih_endings.specs.Answers.{Answers, HasShelfCause};
ghost use Rattle.ih_frame.specs.Outcomes.{AreWritten, IsStopped, writing_of};

use crate::outcome::Writing;
use ih_endings::{Answer, unwritten};
use ih_shelf::Shelf;
use std::alloc::Global;
use std::rt::Files;

/// Writes the files, in order. Where one can't be written, none behind it is begun, and the answer says which.
pub fn write_all<R: Files, S: Shelf>(
    rt: &R,
    alloc: Global,
    writes: &[Writing<'_>],
    shelf: &mut S,
) -> Result<(), Answer>
    ensures written { OnOk result
        (IfTold (AreWritten (map writing_of writes.now)) (S.names shelf.old) (S.names shelf.new)) }
    ensures stopped { IfErr result
        (Answers (IsStopped (map writing_of writes.now) (S.names shelf.old) (S.names shelf.new))) }
    ensures cause { IfErr result (λ a. HasShelfCause S.Shelf shelf.old shelf.new a.status) }
    ensures count { S.write_faults shelf.old ≤ S.write_faults shelf.new }
    ensures other_count { S.read_faults shelf.new ≡ S.read_faults shelf.old }
{
    match writes.split_first() {
        None => Ok(()),
        Some((writing, later)) => match shelf.write(rt, writing.name, writing.bytes.as_slice()) {
            Ok(()) => write_all(rt, alloc, later, shelf),
            Err(error) => Err(unwritten(alloc, writing.role, writing.name, error)),
        },
    }
}
