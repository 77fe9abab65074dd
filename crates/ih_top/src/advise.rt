//! What the command `advise` comes to.

ghost use Rattle.std.specs.Prelude.{IfOk};
ghost use Rattle.ih_top.specs.Below.Arguments.{IsLawfulAdvise, advise_call};
ghost use Rattle.ih_top.specs.Below.Endings.{ArePlans, IsOwnStatus, given_of, outcome_of};
ghost use Rattle.ih_top.specs.Commands.{IsAdvised};

use ih_advise::advice_text;
use ih_endings::Status;
use ih_frame::{Made, Outcome};
use ih_inputs::Inputs;
use ih_shelf::Gate;
use ih_words::Advise;
use std::alloc::Global;
use std::sync::Wait;
use std::thread::Threads;

/// The advice on the timetable that its files give.
pub fn advised<'a, R: Threads + Wait + Sync, G: Gate>(
    rt: &R,
    alloc: Global,
    call: &'a Advise<'_>,
    inputs: Inputs,
    gate: &G,
) -> Made<'a>
    requires lawful { IsLawfulAdvise call.now }
    requires plans { ArePlans inputs }
    ensures comes { IfOk result (λ o. IsAdvised (advise_call call.entry.now) (given_of inputs) (outcome_of o)) }
    ensures own { IfOk result (λ o. IsOwnStatus o.status) }
{
    let (inst, plan) = (&*inputs.inst, &inputs.plan);
    let list = ih_advise::advise(rt, alloc, inst, plan, call.hard, call.workers, gate)?;
    let text = advice_text(alloc, list.as_slice())?;
    Ok(Outcome::said(alloc, Status::Done, text))
}
