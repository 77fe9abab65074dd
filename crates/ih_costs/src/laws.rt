//! The laws that prices and footprints are told by, each on a function that does nothing.

ghost use Rattle.ih_costs.specs.{AtOnce.MovesTouchAtOnce, ChoiceDelta.ChoicesHaveDeltas, StayDelta.StaysHaveDeltas};

use ih_tables::Instance;

/// Another stay of a patient changes the bill by the delta of the new stay less that of the old one.
pub fn stays_have_deltas(_inst: &Instance)
    ensures { StaysHaveDeltas _inst.now.draft }
{}

/// Another nurse for a room's shift, or none, changes the bill by what is told of the cells that the choice touches.
pub fn choices_have_deltas(_inst: &Instance)
    ensures { ChoicesHaveDeltas _inst.now.draft }
{}

/// The writes of a move touch at the timetable before it what they touch one behind the other: none of them changes
/// what a later one looks at.
pub fn moves_touch_at_once(_inst: &Instance)
    ensures { MovesTouchAtOnce _inst.now.draft }
{}
