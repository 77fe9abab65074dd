//! The tests, by what they are of.

mod replay;
mod turn;
