//! Whom a plan leaves out, and the cheapest admission of each: on which day, to which room and theatre, what it breaks
//! and what it costs.
#![tactic(auto)]

mod admissions;
mod changes;
mod laws;
mod lines;
mod sentences;
mod stays;

pub use admissions::cheapest_admission;
pub use changes::{broken_more, change_by};
pub use laws::{admissions_are_true, nobody_is_passed_over};
pub use lines::who_waits;
pub use sentences::{Text, change_text};
