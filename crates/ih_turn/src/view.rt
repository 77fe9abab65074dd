//! What a seat knows.
use std::collections::LinkedList;

/// What a seat knows, for proofs alone: no value of it is ever made.
pub struct View<E, D> {
    /// The seat was taken in by another, as the turn was closed.
    pub spent: bool,
    /// The seat's number.
    pub number: u64,
    /// The list of entries as the seat saw it last.
    pub seen: LinkedList<E>,
    /// What no turn changes of the value; none once the seat is spent.
    pub base: Option<D>,
    /// How long the list was when the turn was made.
    pub start: u64,
    /// How many turns the seat has left.
    pub left: u64,
    /// The seat holds a ticket that isn't done with.
    pub waits: bool,
    /// That ticket.
    pub ticket: u64,
    /// The seat has the value in its hands.
    pub has_turn: bool,
    /// How many turns each seat that is split off this one gets.
    pub each: u64,
    /// The number of the next seat that is split off this one; 0 where none is.
    pub given: u64,
    /// Each seat that this one has taken in, by its number, with the list that it had seen.
    pub joined: LinkedList<(u64, LinkedList<E>)>,
}
