//! The workers side by side.

ghost use Rattle.std.specs.Prelude.{ℕ, ◌<◌, All, length, slice_index_or};
ghost use Rattle.ih_desk.specs.Workers.{HasWorked, MayWork};

use crate::desk::DeskOf;
use crate::passing::{PassesGate, SharedGate};
use crate::seated_workers::WorkerOn;
use ih_cellbook::{Logged, Replicates};
use ih_journal::MAX_WORKERS;
use ih_shelf::Gate;
use std::sync::Wait;
use std::thread::{Threads, for_each_mut};

// Something that does its work beside others, at a shared D. It is a trait, since a closure over workers can't name
// their lifetime. No bound of its method is on threads: a trait's method can't hand such a bound on.
trait WorksAt<D> {
    ghost ready: { D → Self → Type 0 };

    ghost worked: { D → Self → Self → Type 0 };

    fn work<R: Wait, P: PassesGate>(&mut self, rt: &R, shared: &D, gate: &P)
        requires { ready shared.now self.old }
        ensures { worked shared.now self.old self.new };
}

impl<'a, C: Replicates> WorksAt<DeskOf<'a, C::Entry>> for WorkerOn<'a, C> {
    ghost ready = { MayWork };

    ghost worked = { HasWorked };

    fn work<R: Wait, P: PassesGate>(&mut self, rt: &R, shared: &DeskOf<'a, C::Entry>, gate: &P) {
        let Some(seat) = self.seat.take() else {
            unreachable!()
        };
        let seat = self.worker_loop.run(rt, shared, seat, gate);
        self.seat = Some(seat);
    }
}

// Each does its work in a call of its own. Where a thread can't be started, the caller does that work itself.
fn work_all<D: Sync, W: WorksAt<D> + Send, R: Threads + Wait + Sync, P: PassesGate + Sync>(
    rt: &R,
    shared: &D,
    workers: &mut [W],
    gate: &P,
)
    requires { All (W.ready shared.now) workers.old }
    ensures { (k : ℕ) (d : W) → k < length workers.old
        → W.worked shared.now (slice_index_or workers.old k d) (slice_index_or workers.new k d) }
{
    for_each_mut(
        rt,
        workers,
        MAX_WORKERS as usize,
        &|_, w| w.work(rt, shared, gate),
    );
}

/// Runs each worker in a call of its own: each makes its draws in order, each tried again exactly after a stale try, as
/// often as `retries` says. Where a thread can't be started the caller does that worker's search itself. It takes no
/// memory.
pub fn run_all<'a, C: Replicates + Send, R: Threads + Wait + Sync, G: Gate>(
    rt: &R,
    desk: &DeskOf<'a, C::Entry>,
    workers: &mut [WorkerOn<'a, C>],
    gate: &G,
)
where
    C::Entry: Send,
    <C::Entry as Logged>::Offer: Send,
    <C::Entry as Logged>::Attempt: Send,
    requires { All (MayWork desk.now) workers.old }
    ensures { (k : ℕ) (d : _) → k < length workers.old
        → HasWorked desk.now (slice_index_or workers.old k d) (slice_index_or workers.new k d) }
{
    let shared = SharedGate { gate };
    work_all(rt, desk, workers, &shared);
    let SharedGate { gate: _ } = shared;
}
