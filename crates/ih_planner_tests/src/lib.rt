//! Whole calls of the program for planners, over files in memory.
#![tactic(auto)]

#[cfg(test)]
mod tests;
