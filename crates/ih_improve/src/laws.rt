//! Laws of searches, each on a function that does nothing.

ghost use Rattle.ih_improve.specs.Laws.{DefaultsAreDetermined, RoundsAreDetermined, RoundsOnAreDetermined};

use crate::rounds::Walks;

/// Where what each worker leaves follows from what the round begins with and from its number, rounds with the same spans
/// from the same beginning lead to the same timetables, however many workers there are and whatever the threads do.
pub fn determined_workers_make_determined_rounds<W: Walks>()
    ensures { RoundsAreDetermined W.leaves }
{}

/// A worker of a kind that goes on from where its rounds so far left it.
pub trait GoesOn {
    ghost use Rattle.std.specs.Prelude.{ℕ, List};
    ghost use Rattle.ih_plan.specs.Timetable.{Timetable};
    ghost use Rattle.ih_improve.specs.Legs.{LegState};

    /// What it may leave behind a round: by what its rounds so far began with, this one first, and its number.
    ghost leaves: { List LegState → ℕ → Timetable → Type 0 };
}

/// Where what each worker leaves follows from what all its rounds so far began with and from its number, rounds with
/// the same spans from the same beginning lead to the same timetables.
pub fn workers_that_go_on_make_determined_rounds<W: GoesOn>()
    ensures { RoundsOnAreDetermined W.leaves }
{}

/// An instance has one set of defaults.
pub fn defaults_are_determined()
    ensures { DefaultsAreDetermined }
{}
