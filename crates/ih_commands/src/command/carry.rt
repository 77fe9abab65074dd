//! The command `carry`: its description for `clap`, its values and what it comes to.

ghost use Rattle.std.specs.Prelude.{◌≡◌, codes};
ghost use Rattle.ih_commands.specs.Below.Wards.{MAX_FREEZE};
ghost use Rattle.ih_commands.specs.Below.Arguments.{IsNumberIfGiven, all_differ, found_of, rows_of};
ghost use Rattle.ih_commands.specs.Below.Endings.{given_of};
ghost use Rattle.ih_commands.specs.Calls.Carry.{CarryCall, IsCarriedOver, carry_app, carry_call, carry_files, carry_in};
ghost use Rattle.ih_commands.specs.Calls.Carry.{carry_inputs, lawful_carry, next_ward};

use crate::command::calls::Worded;
use crate::command::common::{arguments, equal_names};
use clap::ArgMatches;
use ih_arguments::arguments::{Argument, Description, Kind};
use ih_arguments::explaining::NoCall;
use ih_arguments::file_names::names_differ;
use ih_arguments::matches::{optional_u32_of, text_of};
use ih_carry::{Handover, account, carry};
use ih_endings::Role;
use ih_frame::{Made, Outcome, two_names};
use ih_inputs::{InputNames, Inputs};
use ih_plan::MAX_FREEZE;
use ih_solution::write_solution;
use ih_tables::Instance;
use std::alloc::Global;
use std::sync::Wait;
use std::thread::Threads;

/// `carry OLD_WARD OLD_PLAN NEW_WARD NEW_PLAN [--days K]`.
#[derive(Clone, Copy, Debug)]
pub struct Carry<'a> {
    /// The name of the ward's file.
    pub ward: &'a str,
    /// The name of the file of its plan.
    pub plan: &'a str,
    /// The name of the next ward's file.
    pub next: &'a str,
    /// The name of the file that the next ward's plan goes to.
    pub out: &'a str,
    /// The day of the ward that is day 0 of the next one.
    pub days: u32,
}

/// `carry OLD_WARD OLD_PLAN NEW_WARD NEW_PLAN [--days K]`.
pub const CARRY: Description<'static, 'static> = Description {
    name: "carry",
    about: "Carries a plan over to a ward that has changed",
    called: "ih_planner carry",
    arguments: &arguments![
        "OLD_WARD" => Kind::Named, "The file of the ward's instance";
        "OLD_PLAN" => Kind::Named, "The file of its solution";
        "NEW_WARD" => Kind::Named, "The file of the instance of the ward as it is now";
        "NEW_PLAN" => Kind::Named, "The file that the new ward's solution is written to";
        "days" => Kind::OptionalNumber(0, MAX_FREEZE),
            "The day of the old ward that is day 0 of the new one [default: 0]";
    ],
};

// The values of `carry`.
fn carry_in<'a>(matches: &ArgMatches<'a>) -> Carry<'a>
    requires { IsNumberIfGiven 0 MAX_FREEZE (codes "days") (rows_of (found_of matches.now)) }
    ensures { carry_call result ≡ carry_in (rows_of (found_of matches.now)) }
{
    Carry {
        ward: text_of(matches, "OLD_WARD"),
        plan: text_of(matches, "OLD_PLAN"),
        next: text_of(matches, "NEW_WARD"),
        out: text_of(matches, "NEW_PLAN"),
        days: optional_u32_of(matches, "days"),
    }
}

// The names of the files differ.
fn files_differ(carry: &Carry) -> bool
    ensures { result ≡ all_differ (carry_files (carry_call carry.now)) }
{
    names_differ(carry.ward, carry.plan, carry.next, Some(carry.out))
}

impl<'a> Worded<'a> for Carry<'a> {
    ghost Call = { CarryCall };

    ghost wording = { record { app = carry_app; call = carry_call; lawful = lawful_carry } };

    fn of_matches(alloc: Global, matches: &ArgMatches<'a>) -> Result<Carry<'a>, NoCall> {
        let carry = carry_in(matches);
        if files_differ(&carry) {
            Ok(carry)
        } else {
            Err(equal_names(alloc))
        }
    }
}

// The ward that the plan is carried over to.
fn next_ward(inputs: &Inputs) -> &Instance
    ensures { result.now.draft ≡ next_ward (given_of inputs.now) }
{
    match &inputs.next {
        Some(next) => &**next,
        None => &*inputs.inst,
    }
}

impl<'c> ih_frame::Command for Carry<'c> {
    ghost files = { λ c. carry_inputs (carry_call c) };

    ghost comes_to = { λ c. IsCarriedOver (carry_call c) };

    fn names(&self) -> InputNames<'_> {
        InputNames {
            next: Some(self.next),
            ..two_names(self.ward, Some(self.plan), true)
        }
    }

    fn outcome<R: Threads + Wait + Sync>(&self, _: &R, alloc: Global, inputs: Inputs) -> Made<'_> {
        let handover = Handover {
            ward: &*inputs.inst,
            plan: &inputs.plan,
            next: next_ward(&inputs),
            days: self.days,
        };
        let plan = carry(alloc, &handover)?;
        let bytes = write_solution(alloc, handover.next, &plan)?;
        let text = account(alloc, &handover)?;
        Outcome::written(alloc, Role::Out, self.out, bytes, text)
    }
}
