//! Advice on a timetable: the best single replacement of each of its choices.
#![tactic(auto)]

mod advising;
mod choosing;
mod findings;
mod laws;
mod texts;

pub use advising::advise;
pub use choosing::Advice;
pub use laws::{advice_is_best, locally_best, locally_best_is_said};
pub use texts::advice_text;
