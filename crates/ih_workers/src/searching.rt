//! The workers of `ih_desk` on replicas that keep single moves.

ghost use Rattle.std.specs.Prelude.{◌≡◌, ℕ, ◌<◌, ◌≤◌, ◌^◌, All, IfOk, length, slice_index_or};
ghost use Rattle.ih_journal.specs.Legal.{IsFull};
ghost use Rattle.ih_cellbook.specs.Keeping.{IsBase};
ghost use Rattle.ih_desk.specs.{Searching.base_given, Workers.IsReady, Workers.Finishes};

use ih_cellbook::Book;
use ih_desk::{Desk, Given, WorkerOn, run_all};
use ih_shelf::Gate;
use ih_snapshot::Replica;
use std::alloc::{AllocError, Global};
use std::sync::Wait;
use std::thread::Threads;

/// One of the workers of a search by single moves, with its seat at the desk. `Worker::new` makes it, and `into_seat`
/// gives the seat back.
pub type Worker<'a> = WorkerOn<'a, Replica<'a>>;

/// Runs each worker in a call of its own: each makes its draws in order, each tried again exactly after a stale try,
/// as often as `retries` says. Where a thread can't be started the caller does that worker's search itself. It takes no
/// memory. For users of the crate: `search_by_moves` runs its workers by the same body.
pub fn run_workers<'a, R: Threads + Wait + Sync, G: Gate>(
    rt: &R,
    desk: &Desk<'a>,
    workers: &mut [Worker<'a>],
    gate: &G,
)
    requires { All (IsReady 1 desk.now) workers.old }
    ensures { (i : ℕ) (d : _) → i < length workers.old
        → Finishes 1 desk.now (slice_index_or workers.old i d) (slice_index_or workers.new i d) }
{
    run_all(rt, desk, workers, gate);
}

// The freeze day, which has 32 bits.
fn freeze_of(given: &Given<'_>) -> u32
    ensures { given.now.freeze ≤ 2 ^ 32 }
{
    given.freeze
}

/// The whole search by single moves, as a book with a full history. Between its opening and its end no call answers
/// lack of memory.
pub fn search_by_moves<'a, R: Threads + Wait + Sync, G: Gate>(
    rt: &R,
    alloc: Global,
    given: &Given<'a>,
    gate: &G,
) -> Result<Book<'a>, AllocError>
    requires { IsBase (base_given given.now) }
    ensures base { IfOk result (λ k. k.base ≡ base_given given.entry.now) }
    ensures full { IfOk result (λ k. IsFull (base_given given.entry.now) 1 k.entries) }
{
    // For the proof alone: the freeze day has 32 bits.
    let _freeze = freeze_of(given);
    ih_desk::search_at_desk::<Replica<'a>, R, G>(rt, alloc, given, 1, gate)
}
