//! The search: workers side by side at one desk, each in a call of its own.

ghost use Rattle.std.specs.Prelude.{◌≡◌, ◌≤◌, ◌+◌, ◌*◌, IfOk, length, vec_capacity};
ghost use Rattle.std.specs.List.{AllZip};
ghost use Rattle.ih_journal.specs.{Legal.IsFull, Settings.IsLawful};
ghost use Rattle.ih_cellbook.specs.Keeping.{IsBase};
ghost use Rattle.ih_desk.specs.Searching.{base_given, IsOpened, HaveLeft};
ghost use Rattle.ih_desk.specs.Workers.{IsNewWorker, enough_turns};

use crate::desk::{DeskOf, DeskOver, DeskSeat};
use crate::given::Given;
use crate::laws::finished_searches_are_full;
use crate::seated_workers::{Seated, WorkerOn};
use crate::side_by_side::run_all;
use crate::worker_loop::WorkerLoop;
use ih_cellbook::{Book, Logged, Opens, Replicates};
use ih_journal::Options;
use ih_shelf::Gate;
use ih_validate::bill;
use std::alloc::{AllocError, Global};
use std::sync::Wait;
use std::thread::Threads;

// The turns of each seat, several times what it uses: each turn shows it an entry that it hadn't seen.
fn turns_of(options: &Options) -> u64
    requires { IsLawful options.now }
    ensures { result ≡ enough_turns options.now }
{
    let tries = options.retries as u64 + 1;
    4 * (options.workers as u64 * options.moves as u64 * tries) + 16
}

// A desk over a book without entries, and a seat for each worker.
fn open<'a, E: Logged>(
    alloc: Global,
    given: &Given<'a>,
) -> Result<(DeskOf<'a, E>, Vec<DeskSeat<'a, E>>), AllocError>
    requires given { IsBase (base_given given.now) }
    requires retries { given.now.options.retries ≤ E.most_retries }
    ensures { IfOk result (λ t. IsOpened (base_given given.entry.now) t.0 t.1.items) }
{
    let first = bill(given.inst, given.start);
    let options = &given.options;
    let book = Book::new(
        alloc,
        given.inst,
        given.start,
        &first,
        options,
        given.freeze,
    )?;
    match DeskOver::open(alloc, book, options.workers, turns_of(options)) {
        Ok(opened) => Ok(opened),
        Err(_) => Err(AllocError),
    }
}

// A worker for each seat, in their order.
fn seat_workers<'a, C: Opens<'a>>(
    alloc: Global,
    given: &Given<'a>,
    each: u32,
    seats: Vec<DeskSeat<'a, C::Entry>>,
) -> Result<Vec<WorkerOn<'a, C>>, AllocError>
    requires given { IsBase (base_given given.now) }
    requires freeze { given.now.freeze ≤ C.Entry.Attempt.most_freeze }
    requires some { 1 ≤ each }
    requires few { each ≤ C.Entry.Attempt.most_moves }
    ensures { IfOk result (λ ws. AllZip (IsNewWorker (base_given given.entry.now) each) ws.items seats.entry.items) }
{
    let mut workers = Vec::with_capacity(alloc, seats.len())?;
    for seat in seats {
        let opened = WorkerLoop::open(
            alloc,
            given.inst,
            given.start,
            &given.options,
            given.freeze,
            each,
            seat.number(),
        );
        let Ok(worker) = Seated::seated(opened, seat) else {
            return Err(AllocError);
        };
        workers.push(worker)?;
    }
    Ok(workers)
}

// The seats of the workers, in their order, behind the seats that are there. It takes no memory.
fn take_seats<'a, C: Replicates>(
    workers: &mut Vec<WorkerOn<'a, C>>,
    seats: &mut Vec<DeskSeat<'a, C::Entry>>,
)
    requires { length seats.old.items + length workers.old.items ≤ vec_capacity seats.old }
    ensures left { HaveLeft workers.old.items seats.old.items seats.new.items }
    ensures room { vec_capacity seats.new ≡ vec_capacity seats.old }
{
    if let Some(worker) = workers.pop() {
        take_seats(workers, seats);
        seats.push_reserved(worker.into_seat());
    }
}

/// The whole search by attempts of so many moves, as a book with a full history. Between its opening and its end no
/// call answers lack of memory.
pub fn search_at_desk<'a, C: Opens<'a> + Send, R: Threads + Wait + Sync, G: Gate>(
    rt: &R,
    alloc: Global,
    given: &Given<'a>,
    each: u32,
    gate: &G,
) -> Result<Book<'a, C::Entry>, AllocError>
where
    C::Entry: Send,
    <C::Entry as Logged>::Offer: Send,
    <C::Entry as Logged>::Attempt: Send,
    requires given { IsBase (base_given given.now) }
    requires retries { given.now.options.retries ≤ C.Entry.most_retries }
    requires freeze { given.now.freeze ≤ C.Entry.Attempt.most_freeze }
    requires some { 1 ≤ each }
    requires few { each ≤ C.Entry.Attempt.most_moves }
    ensures base { IfOk result (λ k. k.base ≡ base_given given.entry.now) }
    ensures full { IfOk result (λ k. IsFull (base_given given.entry.now) each k.entries) }
{
    let (desk, seats) = open::<C::Entry>(alloc, given)?;
    let mut back: Vec<DeskSeat<'a, C::Entry>> = Vec::with_capacity(alloc, seats.len())?;
    let mut workers: Vec<WorkerOn<'a, C>> = seat_workers(alloc, given, each, seats)?;
    run_all(rt, &desk, workers.as_mut_slice(), gate);
    take_seats(&mut workers, &mut back);
    // For the proof alone.
    finished_searches_are_full();
    Ok(desk.close(back))
}
