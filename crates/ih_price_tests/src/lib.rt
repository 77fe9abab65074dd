//! Tests of timetables, moves, footprints, the ledgers and what is priced by them.
#![tactic(auto)]

#[cfg(test)]
mod tests;
