//! A timetable as a page to look at: one JSON value, which is proved, in a template of HTML that draws it.
#![tactic(auto)]

mod changes;
mod findings;
mod laws;
mod pages;
mod timetables;
mod waits;

pub use laws::{changes_are_listed, data_is_inert, findings_sum};
pub use pages::{Heading, page};
