//! A check of journals: each line is taken where it is the legal next one, and else the first reason is given.
#![tactic(auto)]

mod laws;
mod replays;
mod taking;
mod workers;

pub use laws::{
    legal_journals_are_taken, legal_journals_differ, taken_lines_are_of_legal_histories,
};
pub use replays::Replay;
