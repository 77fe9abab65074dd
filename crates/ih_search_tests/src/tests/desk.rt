//! What two workers do at a desk over a book, and what comes of it.
//!
//! The lines of a desk's scene stand in parts: what seat 1 does, then seat 0, then seat 1 again, each with a new replica.
//! An entry stands as its line in the journal.

ghost use Rattle.std.specs.Prelude.{◌≡◌, ℕ, ◌<◌, ◌≤◌, [], All, IsTrue, Some, drop, length, map, slice_index, take};
ghost use Rattle.ih_plan.specs.Expand.{IsMoveOf};
ghost use Rattle.ih_turn.specs.Seats.{history, number_of, turns_left};
ghost use Rattle.ih_cellbook.specs.{BufferState.most_copied, Keeping.base_with, Laws.HasNoneBy, Offers.next_number};
ghost use Rattle.ih_cellbook.specs.Replicas.{IsReplicaIn};
ghost use Rattle.ih_desk.specs.{Desks.IsSeatAt, Desks.base_of, Desks.worker_count, Turns.HasLooked, Turns.MayLook};
ghost use Rattle.ih_search_tests.specs.Followed.{IsFollowed, StaysFollowed};
ghost use Rattle.ih_search_tests.specs.Scenes.{IsGiven, IsOver};

use crate::tests::rounds::may_come;
use crate::tests::scenes::{Scene, is_at};
use crate::tests::words::pair;
use ih_cellbook::{Book, Buffer, Offer};
use ih_desk::{Desk, DeskSeat};
use ih_fixtures::{cut, list_of, two_of, word};
use ih_journal::{Entry, Options, parse_line};
use ih_snapshot::Replica;
use std::alloc::Global;
use std::sync::Wait;

// Whether a look has shown all entries, and the offer's worker, which has this number, may offer this after them.
fn may_offer(buffer: &Buffer, worker: u32, options: &Options, offer: &Offer) -> bool
    ensures { IsTrue result → (length buffer.now.entries ≡ buffer.now.front) × (offer.now.worker ≡ worker)
        × (offer.now.worker < options.now.workers)
        × (next_number options.now buffer.now.entries offer.now.worker ≡ Some offer.now.number)
        × HasNoneBy offer.now.worker (drop offer.now.seen buffer.now.entries) }
{
    let entries = buffer.entries();
    if entries.len() != buffer.front() as usize {
        return false;
    }
    if offer.worker != worker || offer.seen > buffer.front() {
        return false;
    }
    may_come(entries, options, offer)
}

// Looks at the entries from a place on, or at the first 256 of them.
fn look<'a, R: Wait>(
    rt: &R,
    desk: &Desk<'a>,
    seat: DeskSeat<'a, Entry>,
    replica: &Replica<'_>,
    buffer: &mut Buffer,
    from: u32,
) -> DeskSeat<'a, Entry>
    requires may { MayLook desk.now from seat }
    requires replica { IsReplicaIn (base_of desk.now) (history seat) replica.now }
    ensures looked { HasLooked desk.now seat.entry result }
    ensures copied { buffer.new
        ≡ record {
          from = from;
          entries = take most_copied
              (drop from (history result));
          front = length (history result);
        } }
    ensures replica { IsReplicaIn (base_of desk.now) (history result) replica.now }
{
    // For the proof alone: the replica follows the seat.
    let _ = replica;
    buffer.set_from(from);
    desk.look(rt, seat, buffer)
}

// Offers an entry's move, priced on the replica, once a look shows that it is the next of the seat's worker, and that
// the replica has seen the worker's latest entry. Answers whether that is so and the verdict is the entry's.
fn offer<'a, R: Wait>(
    rt: &R,
    desk: &Desk<'a>,
    seat: DeskSeat<'a, Entry>,
    replica: &mut Replica<'_>,
    options: &Options,
    buffer: &mut Buffer,
    entry: &Entry,
) -> (DeskSeat<'a, Entry>, bool)
    requires seat { IsFollowed desk.now seat replica.old }
    requires left { 2 ≤ turns_left seat }
    requires options { options.now ≡ (base_of desk.now).options }
    requires move_in { IsMoveOf (base_of desk.now).instance entry.now.mv }
    ensures { StaysFollowed desk.now seat.entry result.0 replica.new }
{
    let seat = look(rt, desk, seat, replica, buffer, 0);
    let worker = seat.number();
    let offer = replica.offer(&entry.mv, entry.number);
    if may_offer(buffer, worker, options, offer) {
        let (seat, verdict) = desk.offer(rt, seat, offer);
        (seat, verdict == entry.verdict)
    } else {
        (seat, false)
    }
}

// Looks at the entries that the replica doesn't stand for, or at the first 256 of them, which it takes over.
fn follow<'a, R: Wait>(
    rt: &R,
    desk: &Desk<'a>,
    seat: DeskSeat<'a, Entry>,
    replica: &mut Replica<'_>,
    buffer: &mut Buffer,
) -> DeskSeat<'a, Entry>
    requires seat { IsFollowed desk.now seat replica.old }
    requires left { 1 ≤ turns_left seat }
    ensures { StaysFollowed desk.now seat.entry result replica.new }
{
    let from = replica.seen();
    let seat = look(rt, desk, seat, replica, buffer, from);
    replica.advance(buffer.entries());
    seat
}

// Whether a look has shown so many entries of so many.
fn has_shown(buffer: &Buffer, text: &str) -> bool {
    let (count, front) = pair(text);
    buffer.entries().len() == count as usize && buffer.front() == front
}

// Whether a look has shown an entry at its place.
fn has_shown_entry(buffer: &Buffer, place: u32, entry: &Entry) -> bool {
    is_at(buffer.entries(), place, entry)
}

// Whether the seat has seen so many entries, and made so many.
fn has_counts(seat: &DeskSeat<'_, Entry>, text: &str) -> bool {
    let (seen, made) = pair(text);
    (seat.seen(), seat.made()) == (seen as u64, made as u64)
}

// What comes of a seat by an entry's line, and whether that is as the line says.
fn step_by_line<'a, R: Wait>(
    rt: &R,
    scene: &Scene<'_>,
    desk: &Desk<'a>,
    seat: DeskSeat<'a, Entry>,
    replica: &mut Replica<'_>,
    buffer: &mut Buffer,
    offers: bool,
    line: &str,
) -> (DeskSeat<'a, Entry>, bool)
    requires seat { IsFollowed desk.now seat replica.old }
    requires left { 2 ≤ turns_left seat }
    requires over { IsOver scene.now.inst.now.draft scene.now.options (base_of desk.now) }
    ensures { StaysFollowed desk.now seat.entry result.0 replica.new }
{
    match parse_line(scene.inst, &scene.options, line.as_bytes()) {
        Ok((_, entry)) if offers => {
            offer(rt, desk, seat, replica, &scene.options, buffer, &entry)
        }
        Ok((place, entry)) => (seat, has_shown_entry(buffer, place, &entry)),
        Err(_) => (seat, false),
    }
}

// What comes of a seat by a line, and whether that is as the line says. A seat with fewer than two turns left does
// nothing.
fn step<'a, R: Wait>(
    rt: &R,
    scene: &Scene<'_>,
    desk: &Desk<'a>,
    seat: DeskSeat<'a, Entry>,
    replica: &mut Replica<'_>,
    buffer: &mut Buffer,
    line: &str,
) -> (DeskSeat<'a, Entry>, bool)
    requires seat { IsFollowed desk.now seat replica.old }
    requires over { IsOver scene.now.inst.now.draft scene.now.options (base_of desk.now) }
    ensures { StaysFollowed desk.now seat.entry result.0 replica.new }
{
    if seat.left() < 2 {
        return (seat, false);
    }
    let (verb, text) = word(line);
    match verb {
        "follows" => (follow(rt, desk, seat, replica, buffer), true),
        "looks" => {
            let seat = look(rt, desk, seat, replica, buffer, 0);
            (seat, has_shown(buffer, text))
        }
        "counts" => {
            let counts = has_counts(&seat, text);
            (seat, counts)
        }
        _ => step_by_line(
            rt,
            scene,
            desk,
            seat,
            replica,
            buffer,
            verb == "offers",
            text,
        ),
    }
}

// Plays some lines, and says whether each comes out so. It ends at the first that doesn't.
fn step_all<'a, R: Wait>(
    rt: &R,
    scene: &Scene<'_>,
    desk: &Desk<'a>,
    seat: DeskSeat<'a, Entry>,
    replica: &mut Replica<'_>,
    buffer: &mut Buffer,
    lines: &str,
) -> (DeskSeat<'a, Entry>, bool)
    requires seat { IsFollowed desk.now seat replica.old }
    requires over { IsOver scene.now.inst.now.draft scene.now.options (base_of desk.now) }
    ensures { StaysFollowed desk.now seat.entry result.0 replica.new }
{
    let mut seat = seat;
    for line in lines.split('\n') {
        let (after, is_so) = step(rt, scene, desk, seat, replica, buffer, line);
        if !is_so {
            return (after, false);
        }
        seat = after;
    }
    (seat, true)
}

// Whether the book of a desk whose two seats come back has three entries.
fn closes_with_three<'a>(
    alloc: Global,
    desk: Desk<'a>,
    zero: DeskSeat<'a, Entry>,
    one: DeskSeat<'a, Entry>,
) -> bool
    requires own { (worker_count desk ≡ 2) × IsSeatAt desk zero × IsSeatAt desk one }
    requires numbers { (number_of zero ≡ 0) × (number_of one ≡ 1) }
{
    match list_of(alloc, zero, one) {
        Some(seats) => desk.close(seats).entries().len() == 3,
        None => false,
    }
}

// What comes of a seat by the lines of a part, and whether each comes out so.
fn act<'a, R: Wait>(
    rt: &R,
    alloc: Global,
    scene: &Scene<'_>,
    desk: &Desk<'a>,
    seat: DeskSeat<'a, Entry>,
    buffer: &mut Buffer,
    lines: &str,
) -> (DeskSeat<'a, Entry>, bool)
    requires given { IsGiven scene.now.inst.now.draft scene.now.start.now scene.now.options }
    requires base { base_of desk.now ≡ base_with scene.now.inst.now.draft scene.now.start.now scene.now.options 0 }
    requires own { IsSeatAt desk.now seat }
    ensures own { IsSeatAt desk.now result.0 }
    ensures number { number_of result.0 ≡ number_of seat.entry }
{
    match Replica::new(
        alloc,
        scene.inst,
        scene.start,
        &scene.options,
        0,
        seat.number(),
    ) {
        Ok(mut replica) => step_all(rt, scene, desk, seat, &mut replica, buffer, lines),
        Err(_) => (seat, false),
    }
}

// Whether seat 1, seat 0 and seat 1 again do what the parts say, and leave three entries.
fn take_turns<'a, R: Wait>(
    rt: &R,
    alloc: Global,
    scene: &Scene<'_>,
    desk: Desk<'a>,
    left: DeskSeat<'a, Entry>,
    right: DeskSeat<'a, Entry>,
    buffer: &mut Buffer,
    parts: &str,
) -> bool
    requires given { IsGiven scene.now.inst.now.draft scene.now.start.now scene.now.options }
    requires base { base_of desk ≡ base_with scene.now.inst.now.draft scene.now.start.now scene.now.options 0 }
    requires own { (worker_count desk ≡ 2) × IsSeatAt desk left × IsSeatAt desk right }
    requires numbers { (number_of left ≡ 0) × (number_of right ≡ 1) }
{
    let (first, parts) = cut(parts, "\n\n");
    let (second, third) = cut(parts, "\n\n");
    let (right, is_first) = act(rt, alloc, scene, &desk, right, buffer, first);
    let (left, is_second) = act(rt, alloc, scene, &desk, left, buffer, second);
    let (right, is_third) = act(rt, alloc, scene, &desk, right, buffer, third);
    closes_with_three(alloc, desk, left, right) && is_first && is_second && is_third
}

// Whether the parts come out so at a desk with two seats.
fn act_in_seats<'a, R: Wait>(
    rt: &R,
    alloc: Global,
    scene: &Scene<'_>,
    desk: Desk<'a>,
    seats: Vec<DeskSeat<'a, Entry>>,
    buffer: &mut Buffer,
    parts: &str,
) -> bool
    requires given { IsGiven scene.now.inst.now.draft scene.now.start.now scene.now.options }
    requires base { base_of desk ≡ base_with scene.now.inst.now.draft scene.now.start.now scene.now.options 0 }
    requires two { worker_count desk ≡ 2 }
    requires own { All (IsSeatAt desk) seats.items }
    requires numbers { (k : ℕ) → k < 2 → slice_index (map number_of seats.items) k ≡ k }
{
    match two_of(seats) {
        Some((left, right)) => take_turns(rt, alloc, scene, desk, left, right, buffer, parts),
        None => false,
    }
}

/// Whether the parts come out so at a desk over a new book of two workers, where no day is frozen.
pub(crate) fn act_at_desk<'a, R: Wait>(
    rt: &R,
    alloc: Global,
    scene: &Scene<'_>,
    book: Book<'a>,
    buffer: &mut Buffer,
    parts: &str,
) -> bool
    requires given { IsGiven scene.now.inst.now.draft scene.now.start.now scene.now.options }
    requires base { book.base ≡ base_with scene.now.inst.now.draft scene.now.start.now scene.now.options 0 }
    requires empty { book.entries ≡ [] }
{
    if scene.options.workers != 2 {
        return false;
    }
    match Desk::open(alloc, book, 2, 32) {
        Ok((desk, seats)) => act_in_seats(rt, alloc, scene, desk, seats, buffer, parts),
        Err(_) => false,
    }
}
