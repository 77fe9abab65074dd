//! The command `check`: what it comes to.

ghost use Rattle.std.specs.Prelude.{◌≡◌};
ghost use Rattle.ih_top.specs.Below.Arguments.{check_call};
ghost use Rattle.ih_top.specs.Below.Endings.{IsOwnStatus};
ghost use Rattle.ih_top.specs.{Commands.IsChecked, Commands.checked_status, Commands.check_inputs};

use ih_endings::Status;
use ih_frame::{Command, Made, Outcome, two_names};
use ih_inputs::{InputNames, Inputs};
use ih_validate::{bill, report};
use ih_words::Check;
use std::alloc::Global;
use std::sync::Wait;
use std::thread::Threads;

/// A call of `check`.
#[derive(Drop)]
pub struct Checking<'c, 'w> {
    pub call: &'c Check<'w>,
}

// The status by whether no hard rule is broken.
fn checked_status(is_feasible: bool) -> Status
    ensures value { result ≡ checked_status is_feasible }
    ensures own { IsOwnStatus result }
{
    if is_feasible {
        Status::Done
    } else {
        Status::Infeasible
    }
}

impl<'c, 'w> Command for Checking<'c, 'w> {
    ghost files = { λ c. check_inputs (check_call c.call.now) };

    ghost comes_to = { λ c. IsChecked };

    fn names(&self) -> InputNames<'_> {
        two_names(self.call.instance, Some(self.call.solution), false)
    }

    fn outcome<R: Threads + Wait + Sync>(&self, _: &R, alloc: Global, inputs: Inputs) -> Made<'_> {
        let costs = bill(&*inputs.inst, &inputs.plan);
        let text = report(alloc, &*inputs.inst, &costs)?;
        let status = checked_status(costs.feasible());
        Ok(Outcome::said(alloc, status, text))
    }
}
