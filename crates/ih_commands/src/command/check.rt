//! The command `check`: its description for `clap`, its values and what it comes to.

ghost use Rattle.ih_commands.specs.Calls.Check.{CheckCall, IsChecked, check_app, check_call, check_inputs};
ghost use Rattle.ih_commands.specs.Calls.Check.{lawful_check};

use crate::command::bound::judged_status;
use crate::command::calls::Worded;
use crate::command::common::{INSTANCE, SOLUTION};
use clap::ArgMatches;
use ih_arguments::arguments::Description;
use ih_arguments::explaining::NoCall;
use ih_arguments::matches::text_of;
use ih_frame::{Made, Outcome, two_names};
use ih_inputs::{InputNames, Inputs};
use ih_validate::{bill, report};
use std::alloc::Global;
use std::sync::Wait;
use std::thread::Threads;

/// `check INSTANCE SOLUTION`.
#[derive(Clone, Copy, Debug)]
pub struct Check<'a> {
    /// The name of the instance's file.
    pub instance: &'a str,
    /// The name of the solution's file.
    pub solution: &'a str,
}

/// `check INSTANCE SOLUTION`.
pub const CHECK: Description<'static, 'static> = Description {
    name: "check",
    about: "Says which hard rules a solution breaks and what it costs",
    called: "ih_planner check",
    arguments: &[INSTANCE, SOLUTION],
};

impl<'a> Worded<'a> for Check<'a> {
    ghost Call = { CheckCall };

    ghost wording = { record { app = check_app; call = check_call; lawful = lawful_check } };

    fn of_matches(_alloc: Global, matches: &ArgMatches<'a>) -> Result<Check<'a>, NoCall> {
        Ok(Check {
            instance: text_of(matches, "INSTANCE"),
            solution: text_of(matches, "SOLUTION"),
        })
    }
}

impl<'c> ih_frame::Command for Check<'c> {
    ghost files = { λ c. check_inputs (check_call c) };

    ghost comes_to = { λ c. IsChecked };

    fn names(&self) -> InputNames<'_> {
        two_names(self.instance, Some(self.solution), true)
    }

    fn outcome<R: Threads + Wait + Sync>(&self, _: &R, alloc: Global, inputs: Inputs) -> Made<'_> {
        let costs = bill(&*inputs.inst, &inputs.plan);
        let text = report(alloc, &*inputs.inst, &costs)?;
        let status = judged_status(costs.feasible());
        Ok(Outcome::said(alloc, status, text))
    }
}
