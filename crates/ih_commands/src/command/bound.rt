//! The command `bound`: its description for `clap`, its values and what it comes to.

ghost use Rattle.std.specs.Prelude.{◌≡◌, ◌++◌, IfOk};
ghost use Rattle.ih_commands.specs.Below.Wards.{IsPlanOf};
ghost use Rattle.ih_commands.specs.Below.Arguments.{found_of, rows_of};
ghost use Rattle.ih_commands.specs.Below.Endings.{IsOwnStatus};
ghost use Rattle.ih_commands.specs.Below.Searches.{HasPrices, bound_text};
ghost use Rattle.ih_commands.specs.Calls.Bound.{BoundCall, HasBound, HasFewWorkers, IsBounded, IsToldOf, bound_app};
ghost use Rattle.ih_commands.specs.Calls.Bound.{bound_call, bound_in, bound_inputs, judged_of, judged_status};
ghost use Rattle.ih_commands.specs.Calls.Bound.{lawful_bound};

use crate::command::calls::Worded;
use crate::command::common::{DEFAULT_WORKERS, INSTANCE, WORKERS, arguments};
use clap::ArgMatches;
use ih_arguments::arguments::{Argument, Description, Kind};
use ih_arguments::explaining::NoCall;
use ih_arguments::matches::{flag_of, number_if_given, optional_text_of, text_of};
use ih_bound::{
    Judged, Priced, bound_text, bound_with_prices, hints_text, judge, no_infeasibility,
};
use ih_endings::Status;
use ih_frame::{Made, Outcome, two_names};
use ih_inputs::{InputNames, Inputs};
use ih_optimizer::DEFAULT_BOUND_ROUNDS;
use ih_tables::Instance;
use std::alloc::{AllocError, Global};
use std::sync::Wait;
use std::thread::Threads;

/// No more often.
pub const MAX_BOUND_ROUNDS: u32 = 1_000_000;

/// `bound INSTANCE` with the solution and the options that it may have.
#[derive(Clone, Copy, Debug)]
pub struct Bound<'a> {
    /// The name of the instance's file.
    pub instance: &'a str,
    /// The name of the solution's file.
    pub solution: Option<&'a str>,
    /// How often prices are tried at most.
    pub rounds: u32,
    /// How many workers look at patients side by side.
    pub workers: u32,
    /// Whether it is told where more beds, or more time, would help.
    pub prices: bool,
}

/// `bound INSTANCE [SOLUTION] [--rounds N] [--workers N] [--prices]`.
pub const BOUND: Description<'static, 'static> = Description {
    name: "bound",
    about: "Says what no feasible timetable costs less than",
    called: "ih_planner bound",
    arguments: &arguments![
        INSTANCE;
        "SOLUTION" => Kind::OptionalNamed, "The file of a solution, which is compared with the best";
        "rounds" => Kind::OptionalNumber(1, MAX_BOUND_ROUNDS), "How often prices are tried at most [default: 1500]";
        WORKERS;
        "prices" => Kind::Flag, "Say where one more bed, or more time of a surgeon or a theatre, would help";
    ],
};

// The values of `bound`.
fn bound_in<'a>(matches: &ArgMatches<'a>) -> Bound<'a>
    requires { HasBound (rows_of (found_of matches.now)) }
    ensures value { bound_call result ≡ bound_in (rows_of (found_of matches.now)) }
    ensures few { HasFewWorkers result }
{
    Bound {
        instance: text_of(matches, "INSTANCE"),
        solution: optional_text_of(matches, "SOLUTION"),
        rounds: number_if_given(matches, "rounds").unwrap_or(DEFAULT_BOUND_ROUNDS),
        workers: number_if_given(matches, "workers").unwrap_or(DEFAULT_WORKERS),
        prices: flag_of(matches, "prices"),
    }
}

impl<'a> Worded<'a> for Bound<'a> {
    ghost Call = { BoundCall };

    ghost wording = { record { app = bound_app; call = bound_call; lawful = lawful_bound } };

    ghost holds = { HasFewWorkers };

    fn of_matches(_alloc: Global, matches: &ArgMatches<'a>) -> Result<Bound<'a>, NoCall> {
        Ok(bound_in(matches))
    }
}

// The timetable beside the bound, where a file is named for it.
fn judged_of(call: &Bound<'_>, inputs: &Inputs) -> Option<Judged>
    requires { IsPlanOf inputs.now.inst.value.draft inputs.now.plan }
    ensures { result ≡ judged_of (bound_call call.now).solution inputs.now.inst.value.draft inputs.now.plan }
{
    match call.solution {
        Some(_) => Some(judge(&*inputs.inst, &inputs.plan)),
        None => None,
    }
}

// What is told of the prices, if the call asks for it.
fn hints_of(
    alloc: Global,
    call: &Bound<'_>,
    inst: &Instance,
    found: &Priced,
) -> Result<Vec<u8>, AllocError>
    requires { HasPrices inst.now.draft found.now found.now.outcome }
    ensures { IfOk result (λ v. IsToldOf (bound_call call.now) inst.now.draft found.now.outcome v.items) }
{
    if call.prices {
        hints_text(alloc, inst, found)
    } else {
        Ok(Vec::new(alloc))
    }
}

// What is said of the bound and of the timetable, and behind it of the prices.
fn whole_text(
    alloc: Global,
    found: &Priced,
    judged: &Option<Judged>,
    hints: Vec<u8>,
) -> Result<Vec<u8>, AllocError>
    ensures { IfOk result (λ text. text.items ≡ bound_text judged.now found.now.outcome ++ hints.items) }
{
    let mut text = bound_text(alloc, &found.outcome, judged)?;
    text.extend_from_slice(hints.as_slice())?;
    Ok(text)
}

/// The status by whether nothing infeasible was found.
pub(crate) fn judged_status(none: bool) -> Status
    ensures value { result ≡ judged_status none }
    ensures own { IsOwnStatus result }
{
    if none {
        Status::Done
    } else {
        Status::Infeasible
    }
}

impl<'b> ih_frame::Command for Bound<'b> {
    ghost files = { λ b. bound_inputs (bound_call b) };

    ghost is_lawful = { HasFewWorkers };

    ghost comes_to = { λ b. IsBounded (bound_call b) };

    fn names(&self) -> InputNames<'_> {
        two_names(self.instance, self.solution, true)
    }

    fn outcome<R: Threads + Wait + Sync>(&self, rt: &R, alloc: Global, inputs: Inputs) -> Made<'_> {
        let judged = judged_of(self, &inputs);
        let found = bound_with_prices(rt, alloc, &*inputs.inst, self.rounds, self.workers)?;
        let hints = hints_of(alloc, self, &*inputs.inst, &found)?;
        let text = whole_text(alloc, &found, &judged, hints)?;
        let status = judged_status(no_infeasibility(&judged, &found.outcome));
        Ok(Outcome::said(alloc, status, text))
    }
}
