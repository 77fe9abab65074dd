//! The greedy first timetable: patients, then nurses, each by the least change of the bill. The choices of a timetable,
//! and what finds the cheapest candidate of one, serve others too.
#![tactic(auto)]

mod candidates;
mod choices;
mod filling;
mod laws;
mod making;
mod nurses;
mod patients;
mod scoring;

pub use candidates::{Candidate, cheaper};
pub use choices::{Choice, all_choices, fill_choices};
pub use filling::fill;
pub use laws::choices_are_first_least;
pub use making::{is_open, make_choice};
pub use nurses::cheapest_nurse;
pub use patients::cheapest_stay;
pub use scoring::Scorer;
