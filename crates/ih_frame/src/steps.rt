//! What goes on in steps: what each comes to, and what is left at the end.

ghost use Rattle.std.specs.Prelude.{◌≡◌, ◌↔◌, ◌<◌, ℕ, IfOk, IsTrue};
ghost use Rattle.std.specs.Thread.{IsSync};
ghost use Rattle.ih_endings.specs.declared.status.Status.TheVariants.{Done};
ghost use Rattle.ih_frame.specs.Outcomes.{IsOwnStatus, OutcomeState, outcome_of};

use crate::outcome::Made;
use std::alloc::Global;
use std::sync::Wait;
use std::thread::Threads;

/// What goes on in steps, from state to state. Each step comes to an outcome, as a command does, and so does the end.
/// It is handed neither files nor an output, so all that it does to them is in its outcomes.
pub trait Steps<'a> {
    ghost State: { Type 0 };

    ghost state: { Self → State };

    ghost Task: { Type 0 };

    /// What it goes by in each step.
    ghost task: { Self → Task };

    ghost is_lawful: { Self → Type 0 };

    /// How many steps are left at most. None is left where all are over, and a step may find that before they are made.
    ghost left: { Self → ℕ };

    /// From which state a step leads to which, and what it comes to.
    ghost steps_to: { Task → State → OutcomeState → State → Type 0 };

    /// What it comes to at last.
    ghost ends_as: { Task → State → OutcomeState → Type 0 };

    /// Whether no step is left.
    fn is_over(&self) -> bool
        requires lawful { is_lawful self.now }
        ensures { IsTrue result ↔ (left self.now ≡ 0) };

    /// The next step.
    fn step<R: Threads + Wait + Sync>(&mut self, rt: &R, alloc: Global) -> Made<'a>
        requires sync { IsSync R.row }
        requires lawful { is_lawful self.old }
        requires left { 0 < left self.old }
        ensures lawful { is_lawful self.new }
        ensures left { left self.new < left self.old }
        ensures steps { IfOk result
            (λ o. steps_to (task self.old) (state self.old) (outcome_of o) (state self.new)) }
        ensures done { IfOk result (λ o. o.status ≡ Done) }
        ensures same { task self.new ≡ task self.old };

    /// The end, where no step is left.
    fn end(&self, alloc: Global) -> Made<'a>
        requires lawful { is_lawful self.now }
        requires left { left self.now ≡ 0 }
        ensures ends { IfOk result (λ o. ends_as (task self.now) (state self.now) (outcome_of o)) }
        ensures own { IfOk result (λ o. IsOwnStatus o.status) };
}
