//! Tests of the tables of an instance, and of what reads and writes files, lines, reports and words.
#![tactic(auto)]

#[cfg(test)]
mod tests;
