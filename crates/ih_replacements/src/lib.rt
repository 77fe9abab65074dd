//! The best single replacement of one choice of a timetable.
#![tactic(auto)]

mod replacing;

pub use replacing::best_replacement;
