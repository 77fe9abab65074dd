//! The rules that a plan breaks, and the cheapest single change that mends each: what is changed, what else that
//! breaks, and what it costs.
#![tactic(auto)]

mod changes;
mod laws;
mod lines;
mod mending;
mod sentences;

pub use laws::{mends_are_true, no_rule_is_passed_over};
pub use lines::mends;
