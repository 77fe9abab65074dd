//! The search in rounds: from the files of a call to the best timetable, which is written and told of as rounds are over.
#![tactic(auto)]

mod call;
mod improving;
mod laws;
mod pacing;
mod rounds;
mod times;
mod watches;

pub use call::Improve;
pub use improving::{DEFAULT_BOUND_ROUNDS, improve};
pub use laws::{
    determined_workers_leave_the_same, done_calls_have_improved, rounds_leave_their_best,
    searches_are_determined,
};
pub use pacing::{Length, MAX_CALL_ATTEMPTS, MAX_CALL_ROUNDS, MAX_SECONDS, Pace};
pub use watches::{ClockWatch, TestWatch, Watch};
