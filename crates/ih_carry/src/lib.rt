//! What a ward keeps of another one's timetable, by ids: the plan that is carried over, and what is said of it.
#![tactic(auto)]

mod accounts;
mod carrying;
mod handovers;
mod ids;
mod laws;
mod losses;
mod parts;
mod texts;

pub use accounts::account;
pub use carrying::carry;
pub use handovers::Handover;
pub use laws::nothing_is_lost_unsaid;
pub use losses::Loss;
