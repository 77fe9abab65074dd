//! Turns over lists of numbers, by seats one after the other and in threads.

ghost use Rattle.std.specs.Prelude.{◌≡◌, ℕ, ◌+◌, ◌-◌, ◌*◌, ◌^◌, ◌<◌, ◌≤◌, All, map, slice_index};
ghost use Rattle.ih_turn.specs.Seats.{IsSeatOf, seat_count, number_of, turns_left};

use ih_fixtures::{list_of, two_of};
use ih_turn::{Kept, Seat, Turn};
use std::alloc::{AllocError, Global};
use std::sync::Wait;
use std::test::Fail;
use std::thread::{Threads, join, map_vec};

// A list of numbers, each of which is 5 above that of its maker.
#[derive(Drop)]
struct Numbers {
    items: Vec<u64>,
}

impl Kept for Numbers {
    type Entry = u64;

    type Base = ();

    ghost entries = { λ s. s.items.items };

    ghost base = { λ _. tt };

    ghost maker = { λ e. e - 5 };

    fn len(&self) -> u64 {
        self.items.len() as u64
    }
}

fn is_send<T: Send>(_: &T) {}

fn is_sync<T: Sync>(_: &T) {}

// A turn is shared and its seats move between threads, where its value may move.
fn cross<B: Kept + Send>(turn: &Turn<B>, seat: &Seat<B>) {
    is_send(turn);
    is_sync(turn);
    is_send(seat);
}

// Adds the number that is 5 above the seat's, or nothing. Where there is no memory for it, the seat has made one entry
// fewer, and the tests count these.
fn step<R: Wait>(rt: &R, turn: &Turn<Numbers>, seat: Seat<Numbers>, adds: bool) -> Seat<Numbers>
    requires own { IsSeatOf turn.now seat }
    requires left { 0 < turns_left seat }
    ensures own { IsSeatOf turn.now result }
    ensures seat { (number_of result ≡ number_of seat) × (turns_left result + 1 ≡ turns_left seat) }
{
    let number = seat.number() as u64;
    let mut held = turn.take(rt, seat);
    if adds {
        let _counted = held.get_mut().items.push(number + 5);
    }
    held.give()
}

// Adds it in each of so many turns.
fn add_all<R: Wait>(rt: &R, turn: &Turn<Numbers>, seat: Seat<Numbers>, count: u64) -> Seat<Numbers>
    requires own { IsSeatOf turn.now seat }
    requires left { count ≤ turns_left seat }
    ensures own { IsSeatOf turn.now result }
    ensures number { number_of result ≡ number_of seat }
{
    let mut seat = seat;
    for i in 0..count {
        let _ = i;
        seat = step(rt, turn, seat, true);
    }
    seat
}

// Whether each of so many seats, in a thread of its own, adds its number in each of its turns.
fn all_add<R: Threads + Wait + Sync>(
    rt: &R,
    alloc: Global,
    seats: u32,
    turns: u64,
) -> Result<bool, AllocError>
    requires { (1 ≤ seats) × (seats * turns + 1 < 2 ^ 64) }
{
    let empty = Numbers {
        items: Vec::new(alloc),
    };
    let Ok((turn, row)) = Turn::new(alloc, empty, seats, turns) else {
        return Ok(false);
    };
    let turn = &turn;
    let made = map_vec(
        rt,
        row,
        &|seat: Seat<Numbers>| -> u64
            requires { IsSeatOf turn.now seat × (turns ≤ turns_left seat) }
        { add_all(rt, turn, seat, turns).made() },
    )?;
    for count in made.iter() {
        if *count != turns {
            return Ok(false);
        }
    }
    Ok(made.len() == seats as usize)
}

// How often a number is there.
fn count_of(list: &Numbers, number: u64) -> u64 {
    let mut count: u64 = 0;
    for item in &list.items {
        if *item == number {
            count = count.saturating_add(1);
        }
    }
    count
}

// Whether a list has so many of each of the two seats' numbers, and no other.
fn has_just(list: &Numbers, fives: u64, sixes: u64) -> bool {
    count_of(list, 5) == fives
        && count_of(list, 6) == sixes
        && list.len() == fives.saturating_add(sixes)
}

// Whether the turn's list is so once both its seats have come back.
fn closes_with(
    alloc: Global,
    turn: Turn<Numbers>,
    one: Seat<Numbers>,
    two: Seat<Numbers>,
    fives: u64,
    sixes: u64,
) -> bool
    requires own { (seat_count turn ≡ 2) × IsSeatOf turn one × IsSeatOf turn two }
    requires numbers { (number_of one ≡ 0) × (number_of two ≡ 1) }
{
    match list_of(alloc, one, two) {
        Some(seats) => has_just(&turn.close(seats), fives, sixes),
        None => false,
    }
}

// Whether two seats, each of which adds its number in each of so many turns in a thread of its own, leave just these.
fn both_add<R: Threads + Wait + Sync>(
    rt: &R,
    alloc: Global,
    turn: Turn<Numbers>,
    one: Seat<Numbers>,
    two: Seat<Numbers>,
    turns: u64,
) -> bool
    requires own { (seat_count turn ≡ 2) × IsSeatOf turn one × IsSeatOf turn two }
    requires numbers { (number_of one ≡ 0) × (number_of two ≡ 1) }
    requires left { (turns ≤ turns_left one) × (turns ≤ turns_left two) }
{
    let shared = &turn;
    let (one, two) = join(
        rt,
        || add_all(rt, shared, one, turns),
        || add_all(rt, shared, two, turns),
    );
    closes_with(alloc, turn, one, two, turns, turns)
}

// Whether the seat has seen, made and left so many.
fn has(seat: &Seat<Numbers>, seen: u64, made: u64, left: u64) -> bool {
    seat.seen() == seen && seat.made() == made && seat.left() == left
}

// Whether the list is that of 5 alone where the first of two seats adds its number, and the second nothing.
fn first_adds<R: Wait>(
    rt: &R,
    alloc: Global,
    turn: Turn<Numbers>,
    one: Seat<Numbers>,
    two: Seat<Numbers>,
) -> bool
    requires own { (seat_count turn ≡ 2) × IsSeatOf turn one × IsSeatOf turn two }
    requires numbers { (number_of one ≡ 0) × (number_of two ≡ 1) }
    requires left { (0 < turns_left one) × (0 < turns_left two) }
{
    cross(&turn, &one);
    let one = step(rt, &turn, one, true);
    let two = step(rt, &turn, two, false);
    if has(&one, 1, 1, 1) && has(&two, 1, 0, 1) {
        closes_with(alloc, turn, one, two, 1, 0)
    } else {
        false
    }
}

// Whether the two seats of a turn, in this list, leave what they are to, in threads of their own or one after the other.
fn two_leave_theirs<R: Threads + Wait + Sync>(
    rt: &R,
    alloc: Global,
    turn: Turn<Numbers>,
    seats: Vec<Seat<Numbers>>,
    turns: u64,
    in_threads: bool,
) -> bool
    requires two { (seat_count turn ≡ 2) × (0 < turns) }
    requires own { All (λ s. IsSeatOf turn s × (turns_left s ≡ turns)) seats.items }
    requires numbers { (k : ℕ) → k < 2 → slice_index (map number_of seats.items) k ≡ k }
{
    match two_of(seats) {
        Some((one, two)) => {
            if in_threads {
                both_add(rt, alloc, turn, one, two, turns)
            } else {
                first_adds(rt, alloc, turn, one, two)
            }
        }
        None => false,
    }
}

// Whether two new seats with so many turns leave what they are to, in threads of their own or one after the other.
fn new_two_leave_theirs<R: Threads + Wait + Sync>(
    rt: &R,
    alloc: Global,
    turns: u64,
    in_threads: bool,
) -> bool
    requires { (1 ≤ turns) × (turns ≤ 1000) }
{
    let empty = Numbers {
        items: Vec::new(alloc),
    };
    match Turn::new(alloc, empty, 2, turns) {
        Ok((turn, seats)) => two_leave_theirs(rt, alloc, turn, seats, turns, in_threads),
        Err(_) => false,
    }
}

#[test]
fn two_threads_leave_two_thousand(rt: HostRuntime) {
    assert!(rt; new_two_leave_theirs(&rt, rt.alloc(), 1000, true));
}

#[test]
fn a_list_of_five_alone(rt: HostRuntime) {
    assert!(rt; new_two_leave_theirs(&rt, rt.alloc(), 2, false));
}

// In one thread, in two, and in as many as a search may have.
#[test]
fn seats_in_threads_all_add(rt: HostRuntime) -> Result<(), Fail> {
    for (seats, turns) in [(1, 64), (2, 1000), (3, 64), (8, 16), (64, 8)] {
        assert!(rt; all_add(&rt, rt.alloc(), seats, turns)?);
    }
    Ok(())
}
