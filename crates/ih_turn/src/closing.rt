//! How a turn is closed: all seats are joined into the one with the number 0, which then takes the value out.
ghost use Rattle.std.specs.Prelude.{◌≡◌, ℕ, ◌<◌, false, [], ◌∷◌, ◌++◌, length, map, All, Contains};
ghost use Rattle.ih_turn.specs.Rule.{GoesOn, Rests, AddsBelow, Covers, Closes, seen_lists, added_by};

use crate::kept::Kept;
use crate::rule::JoinSeat;
use crate::seat::Seat;
use crate::turn::{RuledTurn, Turn};
use crate::view::View;
use atomic_table::Seat as Token;

impl<B: Kept> Turn<B> {
    ghost use Rattle.ih_turn.specs.Seats.{opened_with, seat_count, history, number_of, made_count, IsSeatOf};

    /// Gives the value back, once all seats have come back. Its list begins with each seat's history, and has nothing
    /// of that seat's past it; past the list that the turn was made with it has just the entries that the seats made.
    /// Its base is unchanged.
    pub fn close(self, mut seats: Vec<Seat<B>>) -> B
        requires own { All (IsSeatOf self) seats.items }
        requires all { (n : ℕ) → n < seat_count self → Contains (map number_of seats.items) n }
        ensures base { B.base result ≡ B.base (opened_with self) }
        ensures seen { All (λ s. GoesOn B.maker (number_of s) (history s) (B.entries result)) seats.items }
        ensures made { All (λ s. made_count s
            ≡ added_by B.maker (number_of s) (length (B.entries (opened_with self))) (B.entries result)) seats.items }
        ensures added { AddsBelow B.maker (seat_count self) (B.entries (opened_with self)) (B.entries result) }
    {
        let root = take_first(&mut seats);
        let Seat {
            mut token,
            number: _,
            seen: _,
            made: _,
            left: _,
        } = root;
        self.join_all(&mut token, seats);
        self.take_out(token)
    }

    // Joins all other seats into the one of the token.
    fn join_all(
        &self,
        token: &mut Token<Option<B>, View<B::Entry, B::Base>>,
        mut seats: Vec<Seat<B>>,
    )
        requires own { token.old.table_id ≡ self.now.table.shared.table_id }
        requires rests { Rests token.old.me.0 × (token.old.me.1 ≡ []) }
        requires others { All (λ s. s.token.table_id ≡ self.now.table.shared.table_id) seats.items }
        ensures own { (token.new.table_id ≡ token.old.table_id) × (token.new.me.1 ≡ []) }
        ensures rests { (token.new.me.0.spent ≡ false) × (token.new.me.0.waits ≡ false)
            × (token.new.me.0.has_turn ≡ false) }
        ensures seen_lists { seen_lists token.new.me.0
            ≡ map (λ s. (s.number, s.token.me.0.seen)) seats.items ++ seen_lists token.old.me.0 }
    {
        while let Some(other) = seats.pop() {
            let Seat {
                token: next,
                number: _,
                seen: _,
                made: _,
                left: _,
            } = other;
            self.table.shared.join_seat::<JoinSeat<B>>(token, next);
        }
        seats.destroy_empty();
    }

    // Takes the value out of the table.
    fn take_out(self, token: Token<Option<B>, View<B::Entry, B::Base>>) -> B
        requires own { token.table_id ≡ self.table.shared.table_id }
        requires rests { (token.me.0.spent ≡ false) × (token.me.0.has_turn ≡ false) }
        requires all { Covers self.table.shared.key.seats token.me.0 }
        ensures { Closes B.entries B.base B.maker
            self.table.shared.key.opening.value self.table.shared.key.seats token.me.0 result }
    {
        let RuledTurn { table, asleep: _ } = self;
        let mut closed = table.close_with(token);
        let slot = closed.take(0);
        closed.free();
        let Some(value) = slot else { unreachable!() };
        value
    }
}

// Takes the seat with the number 0 out of the others.
fn take_first<B: Kept>(seats: &mut Vec<Seat<B>>) -> Seat<B>
    requires { Contains (map (λ s. s.number) seats.old.items) 0 }
    ensures { (before : _) × (after : _) × (seats.old.items ≡ before ++ result ∷ after)
        × (seats.new.items ≡ before ++ after) }
{
    let count = seats.len();
    for i in 0..count {
        if seats[i].number == 0 {
            return seats.remove(i);
        }
    }
    unreachable!()
}
