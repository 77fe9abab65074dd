//! The law of handovers, on a function that does nothing.

ghost use Rattle.ih_carry.specs.Handovers.{handover_of};
ghost use Rattle.ih_carry.specs.Laws.{NothingIsLostUnsaid};

use crate::handovers::Handover;

/// What isn't kept is said, with its reason.
pub fn nothing_is_lost_unsaid(_handover: &Handover<'_>)
    ensures { NothingIsLostUnsaid (handover_of _handover.now) }
{}
