//! Lists of numbered nodes, each headed by a number: a node stands in at most one list, and leaves it in a fixed number
//! of steps.
#![tactic(auto)]

mod days;
mod links;
mod widths;

pub use days::empty_days;
pub use links::{CompactLinks, Links};
pub use widths::Width;
