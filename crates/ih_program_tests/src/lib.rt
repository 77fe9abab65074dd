//! Whole calls of the program, over files in memory.
#![tactic(auto)]

#[cfg(test)]
mod tests;
