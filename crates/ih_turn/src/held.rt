//! The value in the hands of a seat: how the seat takes it, and how it passes the turn on.
// Word 0 of the table is `ticket`, word 1 is `serving`, and slot 0 is the value's.
ghost use Rattle.std.specs.Prelude.{◌≡◌, ◌+◌, ◌<◌, ◌≤◌, true, false, [], ◌∷◌, None, Some, length};
ghost use Rattle.ih_turn.specs.Rule.{GoesOn, Serves, IsViewOf, AddsAtMostOne, made_by, served};

use crate::kept::Kept;
use crate::rule::{PassTurn, ReadServing, Setup, TakeTicket, TurnRule};
use crate::seat::Seat;
use crate::turn::{RuledTurn, Turn};
use crate::view::View;
use atomic_table::{Seat as Token, TableRule};
use std::hint::spin_loop;
use std::sync::Wait;
use std::sync::atomic::Ordering;
use std::thread::yield_now;
use std::time::Duration;

// How often a waiting seat looks in vain and spins, and then yields, before it sleeps.
const SPINS: u32 = 100;

const YIELDS: u32 = 400;

// How many turns of others a seat without a ticket lets pass before it sleeps.
const PASSES: u64 = 32;

// How often such a seat sleeps before it draws a ticket all the same.
const NAPS: u32 = 8;

// The microseconds of a sleep, for each seat that sleeps or stands before this one. Long sleeps are wanted: who wakes
// has much to take over at once, and few seats share a core's cache meanwhile.
const NAP: u64 = 500;

// How many seats a sleep is lengthened for at most.
const MOST_SEATS: u64 = 64;

/// The value, in the hands of a seat.
pub type Held<'a, B> = Guard<Holder<'a, B, TurnRule<B>>, B>;

/// The seat that has the turn.
pub struct Holder<'a, B: Kept, P: TableRule<Option<B>, View<B::Entry, B::Base>, Setup<B>>> {
    turn: &'a RuledTurn<B, P>,
    // The seat, in its parts.
    token: Token<Option<B>, View<B::Entry, B::Base>>,
    number: u32,
    seen: u64,
    made: u64,
    left: u64,
    // The seat is one of the turn's; it took the value out of the slot and has the turn; its numbers are those of what
    // it knows.
    ghost own: { token.table_id ≡ turn.now.table.shared.table_id },
    ghost out: { token.me.1 ≡ (0, None) ∷ [] },
    ghost serves: { Serves token.me.0 },
    ghost is_of: { IsViewOf B.entries B.base turn.now.table.shared.key.opening.value token.me.0 },
    ghost number_is: { number ≡ token.me.0.number },
    ghost seen_is: { seen ≡ length token.me.0.seen },
    ghost made_is: { made ≡ made_by B.maker token.me.0 },
    ghost left_is: { left ≡ token.me.0.left },
}

// The low half of a word, by which a sleep tells whether the word has changed.
fn low_half(word: u64) -> u32 {
    (word % 4_294_967_296) as u32
}

/// A value, and its holder. It has no ghost field and names no lifetime, so that the value can be lent.
pub struct Guard<H, B> {
    pub(crate) holder: H,
    pub(crate) value: B,
}

impl<B: Kept> Turn<B> {
    ghost use Rattle.ih_turn.specs.Seats.{opened_with, history, number_of, made_count, turns_left, value_of, turn_of};
    ghost use Rattle.ih_turn.specs.Seats.{holder_number, holder_made, holder_left, list_at_take, IsSeatOf};

    /// Waits until it is the seat's turn, and lends the value out. Its list begins with what the seat had seen, and
    /// past that has nothing of the seat's own. It uses one of the seat's turns.
    pub fn take<R: Wait>(&self, rt: &R, seat: Seat<B>) -> Held<'_, B>
        requires own { IsSeatOf self.now seat }
        requires left { 0 < turns_left seat }
        ensures begins { GoesOn B.maker (number_of seat) (history seat) (B.entries (value_of result)) }
        ensures base { B.base (value_of result) ≡ B.base (opened_with self.now) }
        ensures list { list_at_take result ≡ B.entries (value_of result) }
        ensures seat { (turn_of result ≡ self.now) × (holder_number result ≡ number_of seat)
            × (holder_made result ≡ made_count seat) × (holder_left result + 1 ≡ turns_left seat) }
    {
        let Seat {
            mut token,
            number,
            seen: _,
            made,
            left,
        } = seat;
        self.keep_away(rt);
        let ticket = self
            .table
            .shared
            .fetch_add::<TakeTicket<B>>(&mut token, 0, 1);
        let value = self.wait(rt, &mut token, ticket);
        let seen = value.len();
        let holder = Holder {
            turn: self,
            token,
            number,
            seen,
            made,
            left: left - 1,
        };
        Held { holder, value }
    }

    // Waits until the ticket is served, and takes the value out of the slot.
    fn wait<R: Wait>(
        &self,
        rt: &R,
        token: &mut Token<Option<B>, View<B::Entry, B::Base>>,
        ticket: u64,
    ) -> B
        requires own { token.old.table_id ≡ self.now.table.shared.table_id }
        requires waits { (token.old.me.0.spent ≡ false) × (token.old.me.0.waits ≡ true)
            × (token.old.me.0.has_turn ≡ false) × (token.old.me.0.ticket ≡ ticket) × (token.old.me.1 ≡ []) }
        ensures own { token.new.table_id ≡ token.old.table_id }
        ensures served { token.new.me ≡ (served token.old.me.0 (B.entries result), (0, None) ∷ []) }
        ensures begins { GoesOn B.maker token.old.me.0.number token.old.me.0.seen (B.entries result) }
        ensures base { token.old.me.0.base ≡ Some (B.base result) }
        ensures long { token.old.me.0.start ≤ length (B.entries result) }
    {
        let mut looks = 0;
        for _ in rt.forever() {
            let serving = self.table.shared.load::<ReadServing<B>>(token, 1);
            if serving == ticket {
                let Some(value) = self.table.shared.exchange(token, 0, None) else {
                    unreachable!()
                };
                return value;
            }
            self.pause(rt, looks, ticket.wrapping_sub(serving), serving);
            looks = u32::saturating_add(looks, 1);
        }
        unreachable!()
    }

    // Waits a little, after so many looks at `serving` in vain, where this seat is so many turns behind. A value is
    // held for a short time, so the next seat sees the turn pass while it spins. Any other gives its core to those
    // before it, and so does the next where the one that has the turn seems to have no core.
    fn pause<R: Wait>(&self, rt: &R, looks: u32, ahead: u64, serving: u64) {
        if ahead == 1 && looks < SPINS {
            spin_loop();
        } else if looks < SPINS + YIELDS {
            yield_now();
        } else {
            let nap = Duration::from_micros(NAP * ahead.min(MOST_SEATS));
            self.table
                .shared
                .park_timeout(rt, 1, low_half(serving), nap);
        }
    }

    // Waits without a ticket while another seat has the turn or waits for it with one. A queue of tickets is served
    // in its order alone, and where threads share cores each turn would wait for its thread to get one: so few seats
    // are to have tickets, and the others sleep.
    fn keep_away<R: Wait>(&self, rt: &R) {
        for _ in 0..NAPS {
            if self.comes_free() {
                return;
            }
            self.nap(rt);
        }
    }

    // True once no seat has a ticket; false once others had so many turns, or all looks are used up.
    fn comes_free(&self) -> bool {
        let shared = &self.table.shared;
        let first = shared.peek(1);
        for looks in 0..SPINS + YIELDS {
            let serving = shared.peek(1);
            if shared.peek(0) == serving {
                return true;
            }
            if serving.wrapping_sub(first) >= PASSES {
                return false;
            }
            if looks < SPINS {
                spin_loop();
            } else {
                yield_now();
            }
        }
        false
    }

    // Sleeps, the longer the more seats do, so that not many wake in any time. Nobody wakes it.
    fn nap<R: Wait>(&self, rt: &R) {
        let asleep = self.asleep.fetch_add(1, Ordering::SeqCst).wrapping_add(1);
        let nap = Duration::from_micros(NAP * asleep.min(MOST_SEATS));
        self.asleep.park_timeout(rt, low_half(asleep), nap);
        self.asleep.fetch_sub(1, Ordering::SeqCst);
    }
}

impl<H, B> Guard<H, B> {
    ghost use Rattle.ih_turn.specs.Seats.{value_of};

    /// The value, to look at.
    pub fn get(&self) -> &B
        ensures { result.now ≡ value_of self.now }
    {
        &self.value
    }
}

impl<'a, B: Kept> Held<'a, B> {
    ghost use Rattle.ih_turn.specs.Seats.{opened_with, history, number_of, made_count, turns_left, value_of, turn_of};
    ghost use Rattle.ih_turn.specs.Seats.{holder_number, holder_made, holder_left, list_at_take, IsSeatOf};

    /// Puts the value back and passes the turn on. One entry may have been added to the value's list, by the seat.
    pub fn give(self) -> Seat<B>
        requires list { AddsAtMostOne B.maker (holder_number self) (list_at_take self) (B.entries (value_of self)) }
        requires base { B.base (value_of self) ≡ B.base (opened_with (turn_of self)) }
        ensures own { IsSeatOf (turn_of self.entry) result }
        ensures list { history result ≡ B.entries (value_of self.entry) }
        ensures seat { (number_of result ≡ holder_number self.entry) × (turns_left result ≡ holder_left self.entry) }
        ensures made { made_count result + length (list_at_take self.entry)
            ≡ holder_made self.entry + length (B.entries (value_of self.entry)) }
    {
        let Guard { holder, value } = self;
        let Holder {
            turn,
            mut token,
            number,
            seen,
            made,
            left,
        } = holder;
        let shared = &turn.table.shared;
        let now = value.len();
        let gone = shared.exchange(&mut token, 0, Some(value));
        let None = gone else { unreachable!() };
        shared.fetch_add::<PassTurn<B>>(&mut token, 1, 1);
        Seat {
            token,
            number,
            seen: now,
            made: made + (now - seen),
            left,
        }
    }
}
