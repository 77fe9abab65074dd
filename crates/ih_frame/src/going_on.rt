//! A call that goes on in steps, from the first to its status.

ghost use Rattle.std.specs.Prelude.{◌≤◌, ◌+◌};
ghost use Rattle.ih_shelf.specs.Outside.{IfTold};
ghost use Rattle.ih_endings.specs.Ends.{EndsOver, HasCauseOver};
ghost use Rattle.ih_frame.specs.Steps.{ArePutsAtMost, StepsEnds};

use crate::performing::finish;
use crate::steps::Steps;
use ih_endings::Status;
use ih_shelf::{Shelf, Sink};
use std::alloc::Global;
use std::rt::Files;
use std::sync::Wait;
use std::thread::Threads;

/// Takes steps until none is left, at most so many, and ends. Each writes its files and then puts its text, before the
/// next one is taken. Where one can't be done or said, the call ends there.
pub fn go_on<'a, R: Files + Print + Threads + Wait + Sync, P: Steps<'a>, S: Shelf, O: Sink>(
    rt: &R,
    alloc: Global,
    steps: &mut P,
    count: u32,
    shelf: &mut S,
    out: &mut O,
) -> Status
    requires lawful { P.is_lawful steps.old }
    requires count { P.left steps.old ≤ count }
    ensures ends { EndsOver S.Shelf O.Sink shelf.old shelf.new out.old out.new
        (StepsEnds (P.steps_to (P.task steps.old)) (P.ends_as (P.task steps.old)) count (P.state steps.old)) result }
    ensures few { IfTold (ArePutsAtMost (count + 1)) (O.puts out.old) (O.puts out.new) }
    ensures cause { HasCauseOver S.Shelf O.Sink shelf.old shelf.new out.old out.new result }
{
    for _ in 0..count {
        if steps.is_over() {
            break;
        }
        let made = steps.step(rt, alloc);
        match finish(rt, alloc, made, shelf, out) {
            Status::Done => {}
            status => return status,
        }
    }
    let made = steps.end(alloc);
    finish(rt, alloc, made, shelf, out)
}
