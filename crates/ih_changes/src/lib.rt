//! What differs between two timetables of an instance, and how many such changes there are.
#![tactic(auto)]

mod counts;
mod differences;

pub use counts::{Changes, count_changes};
pub use differences::{has_another, is_changed, is_occupied};
