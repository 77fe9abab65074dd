//! The plain bill of a timetable, number by number, the law of its parts, and the report on it.
#![tactic(auto)]

mod bills;
mod days;
mod laws;
mod loads;
mod marks;
mod number_lists;
mod nurses;
mod overtime;
mod patients;
mod presence;
mod reports;
mod rooms;
mod shifts;
mod summing;
mod surgeons;
mod surgery;
mod theatres;

pub use bills::bill;
pub use laws::bills_have_parts;
pub use patients::{delay, in_bad_room, is_incompatible, outside_window};
pub use reports::report;
pub use summing::bit;
pub use surgery::{Resource, ResourceKind, count_of, has_surgery, limit_of, one_of};
