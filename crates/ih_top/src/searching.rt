//! The commands that search: what they come to. Of rounds that are all their journals, and the best of all.

ghost use Rattle.std.specs.Prelude.{IfOk};
ghost use Rattle.ih_top.specs.Below.Wards.{IsPlanOf};
ghost use Rattle.ih_top.specs.Below.Arguments.{solve_call};
ghost use Rattle.ih_top.specs.Below.Endings.{ArePlans, IsOwnStatus, given_of, outcome_of};
ghost use Rattle.ih_top.specs.Below.Searches.{IsBase, IsLawful, base_given};
ghost use Rattle.ih_top.specs.{Outputs.base_from};
ghost use Rattle.ih_top.specs.Methods.{IsLawfulFor, IsMade, IsSearched};

use crate::chain::output_of_run;
use crate::output::{Output, seed_of};
use crate::rounds_output::make_rounds_output;
use crate::solve::make_output;
use crate::writer::search_outcome;
use ih_chain::run_chains;
use ih_desk::Given;
use ih_frame::Made;
use ih_inputs::Inputs;
use ih_journal::Options;
use ih_parfill::search_start;
use ih_shelf::Gate;
use ih_words::Solve;
use std::alloc::{AllocError, Global};
use std::sync::Wait;
use std::thread::Threads;

/// By what steps a call searches.
#[derive(Clone, Copy)]
pub enum Method {
    /// One search of single moves.
    Moves,
    /// One search of chains, each of so many moves.
    Chains(u32),
    /// So many searches of single moves, each from the best of the one before.
    Rounds(u32),
}

// All that the search makes.
fn make_by<R: Threads + Wait + Sync, G: Gate>(
    rt: &R,
    alloc: Global,
    method: Method,
    given: &Given<'_>,
    gate: &G,
) -> Result<Output, AllocError>
    requires base { IsBase (base_given given.now) }
    requires method { IsLawfulFor method given.now.options given.now.freeze }
    ensures { IfOk result (IsMade method (base_given given.now)) }
{
    match method {
        Method::Moves => make_output(rt, alloc, given, gate),
        Method::Chains(each) => {
            // For the proof alone: the seed has 64 bits.
            let _seed = seed_of(&given.options);
            let (inst, start) = (given.inst, given.start);
            let run = run_chains(rt, alloc, inst, start, &given.options, each, gate)?;
            output_of_run(alloc, inst, &run)
        }
        Method::Rounds(count) => make_rounds_output(rt, alloc, given, count, gate),
    }
}

// All that a search from what was read makes.
fn search_from<R: Threads + Wait + Sync, G: Gate>(
    rt: &R,
    alloc: Global,
    method: Method,
    call: &Solve<'_>,
    inputs: Inputs,
    gate: &G,
) -> Result<Output, AllocError>
    requires plan { IsPlanOf inputs.inst.value.draft inputs.plan }
    requires lawful { IsLawful call.now.options }
    requires method { IsLawfulFor method call.now.options call.now.start.freeze }
    ensures { IfOk result (IsMade method (base_from (solve_call call.now) (given_of inputs))) }
{
    let Options { hard, workers, .. } = call.options;
    let begun = search_start(rt, alloc, inputs, call.start.fill, hard, workers)?;
    let given = Given {
        inst: &*begun.inst,
        start: &begun.start,
        options: call.options,
        freeze: call.start.freeze,
    };
    make_by(rt, alloc, method, &given, gate)
}

/// What the call comes to, by what its files give.
pub fn searched<'a, R: Threads + Wait + Sync, G: Gate>(
    rt: &R,
    alloc: Global,
    method: Method,
    call: &'a Solve<'_>,
    inputs: Inputs,
    gate: &G,
) -> Made<'a>
    requires lawful { IsLawful call.now.options }
    requires method { IsLawfulFor method call.now.options call.now.start.freeze }
    requires plans { ArePlans inputs }
    ensures comes { IfOk result
        (λ o. IsSearched method (solve_call call.entry.now) (given_of inputs) (outcome_of o)) }
    ensures own { IfOk result (λ o. IsOwnStatus o.status) }
{
    let output = search_from(rt, alloc, method, call, inputs, gate)?;
    search_outcome(alloc, call, output)
}
