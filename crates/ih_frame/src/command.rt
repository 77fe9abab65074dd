//! A command: which files it reads, and what it comes to by what they give.

ghost use Rattle.std.specs.Prelude.{◌≡◌, IfOk};
ghost use Rattle.std.specs.Thread.{IsSync};
ghost use Rattle.ih_inputs.specs.Reading.{ArePlans, Given, InputFiles, files_of, given_of};
ghost use Rattle.ih_frame.specs.Outcomes.{IsOwnStatus, OutcomeState, outcome_of};

use crate::outcome::Made;
use ih_inputs::{InputNames, Inputs};
use std::alloc::Global;
use std::sync::Wait;
use std::thread::Threads;

/// A command with its values. What it comes to is a relation of what its files give: its definition. It is handed
/// neither files nor an output, so all that it does to them is in its outcome.
pub trait Command {
    ghost files: { Self → InputFiles };

    ghost is_lawful: { Self → Type 0 } = { λ _. Unit {0} };

    ghost comes_to: { Self → Given → OutcomeState → Type 0 };

    /// The names of the files that it reads.
    fn names(&self) -> InputNames<'_>
        ensures { files_of result ≡ files self.now };

    /// What it comes to, by what these files give.
    fn outcome<'a, R: Threads + Wait + Sync>(
        &'a self,
        rt: &R,
        alloc: Global,
        inputs: Inputs,
    ) -> Made<'a>
        requires sync { IsSync R.row }
        requires lawful { is_lawful self.now }
        requires plans { ArePlans inputs }
        ensures comes { IfOk result (λ o. comes_to self.entry.now (given_of inputs) (outcome_of o)) }
        ensures own { IfOk result (λ o. IsOwnStatus o.status) };
}
