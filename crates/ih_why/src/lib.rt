//! Why an instance has no feasible timetable, as far as that shows of one patient, one room or one shift alone: for
//! each patient who must be admitted and can't be, the reason; rooms whose occupants break a rule; and occupied rooms
//! in shifts that nobody works. Each sentence is a theorem: where one is said, no timetable is feasible. And that all
//! together need more than there is, where prices show it; what is scarce then is a hint.
#![tactic(auto)]

mod accounts;
mod admissions;
mod beds;
mod laws;
mod reasons;
mod sentences;
mod shortages;

pub use accounts::account;
pub use laws::{nobody_is_passed_over, reasons_are_true};
pub use reasons::Reason;
pub use shortages::together;
