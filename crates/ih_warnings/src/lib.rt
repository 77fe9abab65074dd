//! What in an instance is lawful but likely a slip of the person who wrote its file: a line for each thing.
#![tactic(auto)]

mod findings;
mod laws;
mod listing;
mod slips;
mod spellings;
mod things;

pub use laws::nothing_is_passed_over;
pub use listing::warnings;
pub use slips::Slip;
