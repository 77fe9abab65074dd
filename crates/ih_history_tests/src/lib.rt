//! Tests of histories: turns in which they are made, and replays that take them line by line.
#![tactic(auto)]

#[cfg(test)]
mod tests;
