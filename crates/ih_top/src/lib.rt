//! The program: one call that reads, searches, writes and says what it did.
#![tactic(auto)]

mod advise;
mod chain;
mod check;
mod commands;
mod demo;
mod gated;
mod generate;
mod journal_heading;
mod journal_lines;
mod journals;
mod laws;
mod outcome;
mod output;
mod replay;
mod rounds_output;
mod running;
mod salvage;
mod searching;
mod solve;
mod texts;
mod writer;

pub use ih_endings::{Role, Status};
pub use ih_inputs::MAX_JOURNAL;
pub use laws::{
    chains_are_refused, journals_tell_calls_apart, limits_are_these, lone_searches_are_alike,
    refused_lines_are_not_full, rounds_are_refused, solves_replay_the_same,
    whole_lines_are_salvaged,
};
pub use rounds_output::history_at_desk;
pub use running::run;
