//! The rule of the two words `ticket` and `serving`, of the slot and of all views, and what each step tells.
ghost use Rattle.ih_turn.specs.Rule.{IsTurn, first_view, remaining_view, split_off_view, both_views, spent_view};
ghost use Rattle.ih_turn.specs.Rule.{TakesTicket, ReadsServing, PassesTurn};

use crate::kept::Kept;
use crate::view::View;
use atomic_table::{Join, Play, Split, TableRule};
use std::marker::PhantomData;
use std::snapshot::Snapshot;

/// What is fixed when a turn is made.
pub struct Setup<B> {
    pub opening: Snapshot<B>,
    pub seats: u64,
    pub turns: u64,
}

impl<B> Drop for Setup<B> {
    fn drop(self) {
        let Self {
            opening: _,
            seats: _,
            turns: _,
        } = self;
    }
}

/// The rule of a turn: each ticket that isn't done with is held by one seat, and each list that a seat has seen begins
/// the kept one.
#[derive(Drop)]
pub struct TurnRule<B> {
    marker: PhantomData<B>,
}

impl<B: Kept> TableRule<Option<B>, View<B::Entry, B::Base>, Setup<B>> for TurnRule<B> {
    ghost holds = { λ setup. IsTurn B.entries B.base B.maker setup.opening.value setup.seats setup.turns };

    ghost first = { λ setup. first_view B.entries B.base setup.opening.value setup.seats setup.turns };
}

/// A seat takes a ticket.
pub struct TakeTicket<B> {
    marker: PhantomData<B>,
}

impl<B: Kept> Play<Option<B>, View<B::Entry, B::Base>> for TakeTicket<B> {
    ghost then = { TakesTicket };
}

/// A seat looks whether its ticket is served, and takes the slot if it is.
pub struct ReadServing<B> {
    marker: PhantomData<B>,
}

impl<B: Kept> Play<Option<B>, View<B::Entry, B::Base>> for ReadServing<B> {
    ghost then = { ReadsServing B.entries B.base B.maker };
}

/// A seat puts the slot back and passes the turn on.
pub struct PassTurn<B> {
    marker: PhantomData<B>,
}

impl<B: Kept> Play<Option<B>, View<B::Entry, B::Base>> for PassTurn<B> {
    ghost then = { λ st m n w. PassesTurn B.entries m w };
}

/// Another seat is split off the first one.
pub struct SplitSeat<B> {
    marker: PhantomData<B>,
}

impl<B: Kept> Split<View<B::Entry, B::Base>> for SplitSeat<B> {
    ghost left = { remaining_view };

    ghost right = { split_off_view };
}

/// A seat is taken in by another.
pub struct JoinSeat<B> {
    marker: PhantomData<B>,
}

impl<B: Kept> Join<View<B::Entry, B::Base>> for JoinSeat<B> {
    ghost both = { both_views };

    ghost spent = { spent_view };
}
