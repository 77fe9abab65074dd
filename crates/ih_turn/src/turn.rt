//! A turn, and how it is made: the table with the value in its slot, and a seat for each number.
ghost use Rattle.std.specs.Prelude.{◌≡◌, ℕ, ◌+◌, ◌*◌, ◌^◌, ◌<◌, ◌≤◌, [], ◌∷◌, IfOk, IfErr, length, map, slice_index};
ghost use Rattle.std.specs.Prelude.{vec_len, vec_capacity, All};
ghost use Rattle.ih_turn.specs.Rule.{Rests, AreNumberedFromOne, first_view, splitting_view, seat_view, remaining_view};
ghost use Rattle.ih_turn.specs.Rule.{split_off_view};

use crate::kept::Kept;
use crate::rule::{Setup, SplitSeat, TurnRule};
use crate::seat::Seat;
use crate::view::View;
use atomic_table::{Refused, Seat as Token, Table, TableRule};
use std::alloc::{AllocFailed, Global};
use std::snapshot::Snapshot;
use std::sync::atomic::AtomicU64;

/// A value that seats take in turns.
pub type Turn<B> = RuledTurn<B, TurnRule<B>>;

/// A turn under the rule P. The rule is a parameter, since a ghost field of a struct with a field at `TurnRule<B>`
/// cannot cite the bound of B.
#[derive(Drop)]
pub struct RuledTurn<B: Kept, P: TableRule<Option<B>, View<B::Entry, B::Base>, Setup<B>>> {
    pub(crate) table: Table<Option<B>, View<B::Entry, B::Base>, Setup<B>, P, Global>,
    // How many seats sleep that have no ticket.
    pub(crate) asleep: AtomicU64,
    ghost shape: { (table.shared.table_id.words ≡ 2) × (table.shared.table_id.slots ≡ 1) },
    ghost some: { 0 < table.shared.key.seats },
}

impl<B: Kept> Turn<B> {
    ghost use Rattle.ih_turn.specs.Seats.{opened_with, seat_count, history, number_of, made_count, turns_left};
    ghost use Rattle.ih_turn.specs.Seats.{IsSeatOf};

    /// A turn that keeps the value, and its seats with the numbers from 0, each with `turns` turns.
    ///
    /// # Errors
    /// The value, where memory runs out.
    pub fn new(
        alloc: Global,
        value: B,
        seats: u32,
        turns: u64,
    ) -> Result<(Turn<B>, Vec<Seat<B>>), B>
        requires some { 1 ≤ seats }
        requires fits { seats * turns + 1 < 2 ^ 64 }
        ensures turn { IfOk result (λ t. (opened_with t.0 ≡ value) × (seat_count t.0 ≡ seats)) }
        ensures numbers { IfOk result
            (λ t. (length t.1.items ≡ seats) × ((k : ℕ) → k < seats → slice_index (map number_of t.1.items) k ≡ k)) }
        ensures fresh { IfOk result
            (λ t. All (λ s. IsSeatOf t.0 s × (history s ≡ B.entries value) × (made_count s ≡ 0)
            × (turns_left s ≡ turns)) t.1.items) }
        ensures refused { IfErr result (λ b. b ≡ value) }
    {
        let seen = value.len();
        let setup = Setup {
            opening: Snapshot::of(&value),
            seats: u64::from(seats),
            turns,
        };
        let Ok(mut row) = Vec::with_capacity(alloc, seats as usize) else {
            return Err(value);
        };
        match table_of(alloc, value, &setup) {
            Ok((table, mut token)) => {
                let turn = RuledTurn {
                    table,
                    asleep: AtomicU64::new(0),
                };
                turn.split_all(&mut token, seats, seen, turns, &mut row);
                let root = Seat {
                    token,
                    number: 0,
                    seen,
                    made: 0,
                    left: turns,
                };
                put_first(&mut row, root);
                Ok((turn, row))
            }
            Err(value) => {
                row.destroy_empty();
                Err(value)
            }
        }
    }

    // Splits the seats 1 to seats - 1 off the first one, into the row.
    fn split_all(
        &self,
        token: &mut Token<Option<B>, View<B::Entry, B::Base>>,
        seats: u32,
        seen: u64,
        turns: u64,
        row: &mut Vec<Seat<B>>,
    )
        requires own { (token.old.table_id ≡ self.now.table.shared.table_id) × (token.old.id ≡ 0)
            × (self.now.table.shared.key.seats ≡ seats) × (1 ≤ seats) }
        requires first { token.old.me
            ≡ (first_view B.entries B.base self.now.table.shared.key.opening.value seats turns, []) }
        requires seen { seen ≡ length (B.entries self.now.table.shared.key.opening.value) }
        requires room { (vec_len row.old ≡ 0) × (seats ≤ vec_capacity row.old) }
        ensures token { (token.new.table_id ≡ token.old.table_id)
            × (token.new.me
            ≡ (splitting_view B.entries B.base self.now.table.shared.key.opening.value 1 seats turns, [])) }
        ensures row { (vec_len row.new + 1 ≡ seats) × (vec_capacity row.new ≡ vec_capacity row.old)
            × AreNumberedFromOne (λ s. s.number)
            (λ s. (s.token.table_id ≡ self.now.table.shared.table_id)
            × (s.token.me.0 ≡ seat_view B.entries B.base self.now.table.shared.key.opening.value s.number turns)
            × (made_count s ≡ 0) × (s.left ≡ turns)) row.new.items }
    {
        for number in 1..seats {
            let next = self.split(token, number, seen, turns);
            row.push_reserved(next);
        }
    }

    // Splits the seat with the number off the first one.
    fn split(
        &self,
        token: &mut Token<Option<B>, View<B::Entry, B::Base>>,
        number: u32,
        seen: u64,
        left: u64,
    ) -> Seat<B>
        requires own { (token.old.table_id ≡ self.now.table.shared.table_id) × (token.old.id ≡ 0)
            × (number < self.now.table.shared.key.seats) × (0 < number) }
        requires rests { Rests token.old.me.0 × (token.old.me.1 ≡ []) }
        requires gives { (token.old.me.0.given ≡ number) × (token.old.me.0.each ≡ left) × (left ≤ token.old.me.0.left) }
        requires seen { (seen ≡ length token.old.me.0.seen) × (token.old.me.0.start ≡ seen) }
        ensures token { (token.new.table_id ≡ token.old.table_id) × (token.new.id ≡ token.old.id)
            × (token.new.me ≡ (remaining_view token.old.me.0, [])) }
        ensures seat { (result.token.table_id ≡ token.old.table_id)
            × (result.token.me.0 ≡ split_off_view token.old.me.0)
            × (result.number ≡ number) × (made_count result ≡ 0) × (result.left ≡ left) }
    {
        let other = self.table.shared.split_seat::<SplitSeat<B>>(token);
        Seat {
            token: other,
            number,
            seen,
            made: 0,
            left,
        }
    }
}

// The seat goes before the others, where there is room.
fn put_first<B: Kept>(row: &mut Vec<Seat<B>>, root: Seat<B>)
    requires { vec_len row.old < vec_capacity row.old }
    ensures { row.new.items ≡ root ∷ row.old.items }
{
    let done = row.insert(0, root);
    let Ok(()) = done else { unreachable!() };
}

// The table with the value in its slot.
fn table_of<B: Kept>(
    alloc: Global,
    value: B,
    setup: &Setup<B>,
) -> Result<
    (
        Table<Option<B>, View<B::Entry, B::Base>, Setup<B>, TurnRule<B>, Global>,
        Token<Option<B>, View<B::Entry, B::Base>>,
    ),
    B,
>
    requires { (setup.now.opening.value ≡ value) × (0 < setup.now.seats)
        × (setup.now.seats * setup.now.turns < 2 ^ 64) }
    ensures ok { IfOk result
        (λ t. (t.0.shared.table_id.words ≡ 2) × (t.0.shared.table_id.slots ≡ 1) × (t.1.table_id ≡ t.0.shared.table_id)
        × (t.1.id ≡ 0) × (t.1.me ≡ (first_view B.entries B.base value setup.now.seats setup.now.turns, []))
        × (t.0.shared.key ≡ setup.now)) }
    ensures err { IfErr result (λ b. b ≡ value) }
{
    let mut slots = Vec::new(alloc);
    if let Err(failed) = slots.push(Some(value)) {
        let AllocFailed { value: back } = failed;
        slots.destroy_empty();
        let Some(value) = back else { unreachable!() };
        return Err(value);
    }
    match Table::new(alloc, &[0, 0], slots, setup) {
        Ok(made) => Ok(made),
        Err(refused) => {
            let Refused { slots: mut row } = refused;
            let last = row.pop();
            row.destroy_empty();
            let Some(Some(value)) = last else {
                unreachable!()
            };
            Err(value)
        }
    }
}
