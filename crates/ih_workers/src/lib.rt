//! Searches by single moves: workers who each price their draws on a replica of their own and offer them at one desk.
#![tactic(auto)]

mod searching;

pub use searching::{Worker, run_workers, search_by_moves};
