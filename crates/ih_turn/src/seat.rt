//! A seat, as its owner sees it.
ghost use Rattle.std.specs.Prelude.{◌≡◌, [], length};
ghost use Rattle.ih_turn.specs.Rule.{Rests, made_by};

use crate::kept::Kept;
use crate::view::View;
use atomic_table::Seat as Token;

/// A right to take turns, with the list that it has seen.
#[derive(Drop)]
pub struct Seat<B: Kept> {
    // The seat's right to step on the table, which carries what the seat knows.
    pub(crate) token: Token<Option<B>, View<B::Entry, B::Base>>,
    // What the seat knows, in numbers: its own number, how many entries it has seen, how many of those it made since
    // the turn was made, and how many turns it has left.
    pub(crate) number: u32,
    pub(crate) seen: u64,
    pub(crate) made: u64,
    pub(crate) left: u64,
    // It has nothing of a slot in its hands, waits for no turn, and its numbers are those of what it knows.
    ghost empty: { token.me.1 ≡ [] },
    ghost rests: { Rests token.me.0 },
    ghost number_is: { number ≡ token.me.0.number },
    ghost seen_is: { seen ≡ length token.me.0.seen },
    ghost made_is: { made ≡ made_by B.maker token.me.0 },
    ghost left_is: { left ≡ token.me.0.left },
}

impl<B: Kept> Seat<B> {
    ghost use Rattle.ih_turn.specs.Seats.{history, number_of, made_count, turns_left};

    /// The seat's number, from 0.
    pub fn number(&self) -> u32
        ensures { result ≡ number_of self.now }
    {
        self.number
    }

    /// How many entries the seat has seen.
    pub fn seen(&self) -> u64
        ensures { result ≡ length (history self.now) }
    {
        self.seen
    }

    /// How many entries the seat has made since the turn was made.
    pub fn made(&self) -> u64
        ensures { result ≡ made_count self.now }
    {
        self.made
    }

    /// How many turns the seat has left.
    pub fn left(&self) -> u64
        ensures { result ≡ turns_left self.now }
    {
        self.left
    }
}
