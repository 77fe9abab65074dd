//! The ledger of nurses: what nurses cost in a room's shift, in a nurse's shift and over a person's stay, without
//! looking through the timetable.
#![tactic(auto)]

mod bills;
mod changes;
mod choice_deltas;
mod choices;
mod counts;
mod loads;
mod nurses;
mod own;
mod presence;
mod room_sums;
mod rooms;
mod seen;
mod shift_deltas;
mod shift_spans;
mod start;
mod stays;
mod visits;

pub use choice_deltas::ChoiceDelta;
pub use nurses::Nurses;
pub use shift_deltas::ShiftDelta;
pub use visits::Visit;
