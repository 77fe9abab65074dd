//! The tests, by what they are of.

mod instance;
mod journal;
mod limits;
mod mends;
mod remedies;
mod replacing;
mod rows;
mod said;
mod shelf;
mod tables;
mod waiting;
mod warnings;
mod why;
