//! The command `why`: its description for `clap`, its values and what it comes to.

ghost use Rattle.std.specs.Prelude.{◌≡◌, ◌≤◌, IfOk, codes};
ghost use Rattle.ih_commands.specs.Below.Wards.{IsPlanOf, MAX_WORKERS};
ghost use Rattle.ih_commands.specs.Below.Arguments.{IsNumberIfGiven, found_of, rows_of};
ghost use Rattle.ih_commands.specs.Calls.Why.{AreCauses, HasFewToAsk, IsExplained, WhyCall, explanation, lawful_why};
ghost use Rattle.ih_commands.specs.Calls.Why.{nothing_text, plan_text, says_nothing, why_app, why_call, why_in};
ghost use Rattle.ih_commands.specs.Calls.Why.{why_inputs, why_text};

use crate::command::bound::judged_status;
use crate::command::calls::Worded;
use crate::command::common::{DEFAULT_WORKERS, INSTANCE, WORKERS, arguments};
use clap::ArgMatches;
use ih_arguments::arguments::{Argument, Description, Kind};
use ih_arguments::explaining::NoCall;
use ih_arguments::matches::{number_if_given, optional_text_of, text_of};
use ih_frame::{Made, Outcome, two_names};
use ih_inputs::{InputNames, Inputs};
use ih_mends::mends;
use ih_plan::Plan;
use ih_tables::Instance;
use ih_waiting::who_waits;
use ih_warnings::warnings;
use ih_why::{account, reasons_are_true, together};
use std::alloc::{AllocError, Global};
use std::sync::Wait;
use std::thread::Threads;

/// `why INSTANCE` with the solution and the option that it may have.
#[derive(Clone, Copy, Debug)]
pub struct Why<'a> {
    /// The name of the instance's file.
    pub instance: &'a str,
    /// The name of the solution's file, of which it says who waits and what mends broken rules.
    pub solution: Option<&'a str>,
    /// How many workers look at patients side by side.
    pub workers: u32,
}

/// `why INSTANCE [SOLUTION] [--workers N]`.
pub const WHY: Description<'static, 'static> = Description {
    name: "why",
    about: "Says why no plan can keep all rules, and who could still be admitted",
    called: "ih_planner why",
    arguments: &arguments![
        INSTANCE;
        "SOLUTION" => Kind::OptionalNamed, "The file of a solution: who waits, and what mends broken rules";
        WORKERS;
    ],
};

// The values of `why`.
fn why_in<'a>(matches: &ArgMatches<'a>) -> Why<'a>
    requires { IsNumberIfGiven 1 MAX_WORKERS (codes "workers") (rows_of (found_of matches.now)) }
    ensures value { why_call result ≡ why_in (rows_of (found_of matches.now)) }
    ensures few { HasFewToAsk result }
{
    Why {
        instance: text_of(matches, "INSTANCE"),
        solution: optional_text_of(matches, "SOLUTION"),
        workers: number_if_given(matches, "workers").unwrap_or(DEFAULT_WORKERS),
    }
}

impl<'a> Worded<'a> for Why<'a> {
    ghost Call = { WhyCall };

    ghost wording = { record { app = why_app; call = why_call; lawful = lawful_why } };

    ghost holds = { HasFewToAsk };

    fn of_matches(_alloc: Global, matches: &ArgMatches<'a>) -> Result<Why<'a>, NoCall> {
        Ok(why_in(matches))
    }
}

// An account says nothing.
fn says_nothing(reasons: &[u8]) -> bool
    ensures { result ≡ says_nothing reasons.now }
{
    reasons.is_empty()
}

// That nothing was found.
fn nothing_text(alloc: Global) -> Result<Vec<u8>, AllocError>
    ensures { IfOk result (λ text. text.items ≡ nothing_text) }
{
    let text = String::from_str(alloc, "nothing found that no plan can keep\n")?;
    Ok(text.into_bytes())
}

// Why no plan can keep all rules: for one patient, room or shift alone, or else for all together.
fn causes<R: Threads + Sync>(
    rt: &R,
    alloc: Global,
    inst: &Instance,
    workers: u32,
) -> Result<Vec<u8>, AllocError>
    requires { workers ≤ 64 }
    ensures { IfOk result (λ text. AreCauses inst.now.draft text.items) }
{
    // For the proof alone.
    reasons_are_true(inst);
    let reasons = account(alloc, inst)?;
    if !says_nothing(reasons.as_slice()) {
        return Ok(reasons);
    }
    match together(rt, alloc, inst, workers)? {
        Some(text) => Ok(text),
        None => Ok(reasons),
    }
}

// What is said by the causes.
fn why_text(alloc: Global, causes: Vec<u8>) -> Result<Vec<u8>, AllocError>
    ensures { IfOk result (λ text. text.items ≡ why_text causes.items) }
{
    if causes.is_empty() {
        nothing_text(alloc)
    } else {
        Ok(causes)
    }
}

// What is said of a plan: who waits, and what mends each rule that is broken.
fn plan_text(alloc: Global, inst: &Instance, plan: &Plan) -> Result<Vec<u8>, AllocError>
    requires { IsPlanOf inst.now.draft plan.now }
    ensures { IfOk result (λ text. text.items ≡ plan_text inst.now.draft plan.now) }
{
    let mut text = who_waits(alloc, inst, plan)?;
    let lines = mends(alloc, inst, plan)?;
    text.extend_from_slice(lines.as_slice())?;
    Ok(text)
}

// All that is said: the causes, what is said of the plan where a solution is named, and the warnings.
fn explanation(
    alloc: Global,
    call: &Why<'_>,
    inputs: &Inputs,
    causes: Vec<u8>,
) -> Result<Vec<u8>, AllocError>
    requires { IsPlanOf inputs.now.inst.value.draft inputs.now.plan }
    ensures { IfOk result (λ text. text.items
        ≡ explanation (why_call call.now).solution inputs.now.inst.value.draft inputs.now.plan causes.items) }
{
    let mut text = why_text(alloc, causes)?;
    if call.solution.is_some() {
        let lines = plan_text(alloc, &*inputs.inst, &inputs.plan)?;
        text.extend_from_slice(lines.as_slice())?;
    }
    let lines = warnings(alloc, &*inputs.inst)?;
    text.extend_from_slice(lines.as_slice())?;
    Ok(text)
}

impl<'w> ih_frame::Command for Why<'w> {
    ghost files = { λ w. why_inputs (why_call w) };

    ghost is_lawful = { HasFewToAsk };

    ghost comes_to = { λ w. IsExplained (why_call w) };

    fn names(&self) -> InputNames<'_> {
        two_names(self.instance, self.solution, true)
    }

    fn outcome<R: Threads + Wait + Sync>(&self, rt: &R, alloc: Global, inputs: Inputs) -> Made<'_> {
        let causes = causes(rt, alloc, &*inputs.inst, self.workers)?;
        let status = judged_status(says_nothing(causes.as_slice()));
        let text = explanation(alloc, self, &inputs, causes)?;
        Ok(Outcome::said(alloc, status, text))
    }
}
