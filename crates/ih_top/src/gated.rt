//! The calls whose work passes their caller's gate in threads, which a trait can't hand on: the searches and `advise`. So
//! they stand beside the commands that are values.

ghost use Rattle.std.specs.Prelude.{◌≡◌, IfOk};
ghost use Rattle.ih_top.specs.Below.Endings.{Answers, ArePlans, CommandEnds, EndsOver, HasCauseOver, HasShelfCause};
ghost use Rattle.ih_top.specs.Below.Endings.{IfTold, IsOnePutAtMost, IsOwnStatus, files_of, given_of, outcome_of};
ghost use Rattle.ih_top.specs.Methods.{IsLawfulGated, comes_to, gated_inputs};

use crate::advise::advised;
use crate::searching::{Method, searched};
use ih_endings::{Answer, Status, conclude, read_or_answer};
use ih_frame::{Made, carry_out, two_names};
use ih_inputs::{InputNames, Inputs};
use ih_shelf::{Gate, Shelf, Sink};
use ih_words::{Advise, Solve};
use std::alloc::Global;
use std::rt::Files;
use std::sync::Wait;
use std::thread::Threads;

/// A call whose work passes a gate.
#[derive(Clone, Copy)]
pub enum Gated<'c, 'w> {
    Search(Method, &'c Solve<'w>),
    Advise(&'c Advise<'w>),
}

// The files that the call reads.
fn names_of<'w>(call: Gated<'_, 'w>) -> InputNames<'w>
    ensures { files_of result ≡ gated_inputs call.entry }
{
    match call {
        Gated::Search(_, solve) => two_names(solve.instance, solve.start.file, false),
        Gated::Advise(advise) => two_names(advise.instance, Some(advise.solution), false),
    }
}

// What the call comes to, by what its files give.
fn outcome_by<'c, R: Threads + Wait + Sync, G: Gate>(
    rt: &R,
    alloc: Global,
    call: Gated<'c, '_>,
    inputs: Inputs,
    gate: &G,
) -> Made<'c>
    requires lawful { IsLawfulGated call }
    requires plans { ArePlans inputs }
    ensures comes { IfOk result (λ o. comes_to call.entry (given_of inputs) (outcome_of o)) }
    ensures own { IfOk result (λ o. IsOwnStatus o.status) }
{
    match call {
        Gated::Search(method, solve) => searched(rt, alloc, method, solve, inputs, gate),
        Gated::Advise(advise) => advised(rt, alloc, advise, inputs, gate),
    }
}

// The call, but for the putting out of its text.
fn answer_of<R: Files + Threads + Wait + Sync, S: Shelf, G: Gate>(
    rt: &R,
    alloc: Global,
    call: Gated<'_, '_>,
    shelf: &mut S,
    gate: &G,
) -> Answer
    requires { IsLawfulGated call }
    ensures ends { Answers
        (CommandEnds (comes_to call.entry) (gated_inputs call.entry) (S.names shelf.old) (S.names shelf.new)) result }
    ensures cause { HasShelfCause S.Shelf shelf.old shelf.new result.status }
{
    match read_or_answer(rt, alloc, &names_of(call), shelf) {
        Ok(inputs) => {
            let made = outcome_by(rt, alloc, call, inputs, gate);
            carry_out(rt, alloc, made, shelf)
        }
        Err(answer) => answer,
    }
}

/// Reads the files of the call, does its work, and writes and says what that comes to.
pub fn perform_gated<R: Files + Print + Threads + Wait + Sync, S: Shelf, O: Sink, G: Gate>(
    rt: &R,
    alloc: Global,
    call: Gated<'_, '_>,
    shelf: &mut S,
    out: &mut O,
    gate: &G,
) -> Status
    requires { IsLawfulGated call }
    ensures ends { EndsOver S.Shelf O.Sink shelf.old shelf.new out.old out.new
        (CommandEnds (comes_to call.entry) (gated_inputs call.entry)) result }
    ensures once { IfTold IsOnePutAtMost (O.puts out.old) (O.puts out.new) }
    ensures cause { HasCauseOver S.Shelf O.Sink shelf.old shelf.new out.old out.new result }
{
    let answer = answer_of(rt, alloc, call, shelf, gate);
    conclude(rt, out, &answer)
}
