//! Entries of a history and their verdicts.

use ih_plan::Move;
use ih_tables::{Bill, Cell};

/// What became of an offered move.
#[derive(Clone, Copy, Debug, PartialEq, Eq)]
pub enum Verdict {
    /// The move was made.
    Accepted,
    /// Its price's score is above what its number may cost.
    Declined,
    /// A move that was accepted after the entries that it was priced on touched a cell that its price rests on.
    Stale {
        /// The first such cell, by number.
        cell: Cell,
        /// The cell's version in what the maker had seen.
        at_seen: u32,
        /// The cell's version at the entry's place.
        at_place: u32,
    },
    /// It writes a choice before the freeze day, though it be the one that is there.
    Frozen,
}

/// One attempted move of one worker.
#[derive(Clone, Copy, Debug)]
pub struct Entry {
    /// The worker that made it.
    pub worker: u32,
    /// The number of the move among the worker's draws, from 0.
    pub number: u32,
    /// The number of earlier tries of this move.
    pub again: u32,
    /// How many entries the worker had seen when it priced the move.
    pub seen: u32,
    /// The move.
    pub mv: Move,
    /// The bill after the move less the bill before it, at what the worker had seen.
    pub price: Bill,
    /// What became of it.
    pub verdict: Verdict,
}
