//! The program for planners: one call that searches for better timetables and shows them.
#![tactic(auto)]

mod command;
mod laws;
mod limits;
mod running;

pub use ih_optimizer::{ClockWatch, TestWatch, Watch};
pub use laws::explained_calls_have_no_plan;
pub use limits::limits_are_these;
pub use running::run_planner;
