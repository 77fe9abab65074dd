//! Tests of what workers share and keep for themselves: the book, the desk and replicas.
#![tactic(auto)]

#[cfg(test)]
mod tests;
