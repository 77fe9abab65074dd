//! A worker: its loop and its seat.

ghost use Rattle.std.specs.Prelude.{IsSome};

use crate::desk::DeskSeat;
use crate::worker_loop::WorkerLoop;
use ih_cellbook::{Book, Opens, Replicates};
use ih_journal::Options;
use ih_plan::Plan;
use ih_tables::Instance;
use ih_turn::Seat;
use std::alloc::{AllocError, Global};

/// One of the workers of a search, with its seat at the desk. Both are parameters, since a struct can't hold a seat of
/// a type that has parameters itself.
#[derive(Drop)]
pub struct Seated<S, T> {
    pub(crate) worker_loop: S,
    // A seat can't be moved out of a reference, so it is taken out of here for each call. It is there between calls.
    pub(crate) seat: Option<T>,
    ghost seated: { IsSome seat },
}

/// A worker that prices on such replicas.
pub type WorkerOn<'a, C> = Seated<WorkerLoop<'a, C>, Seat<Book<'a, <C as Replicates>::Entry>>>;

impl<'a, C: Opens<'a>> WorkerOn<'a, C> {
    ghost use Rattle.std.specs.Prelude.{◌≡◌, ◌≤◌, ℕ, IfOk, IfErr};
    ghost use Rattle.ih_plan.specs.Timetable.{IsPlanOf};
    ghost use Rattle.ih_journal.specs.{Base.Base, Settings.IsLawful};
    ghost use Rattle.ih_turn.specs.Seats.{number_of};
    ghost use Rattle.ih_cellbook.specs.Keeping.{base_with};
    ghost use Rattle.ih_desk.specs.{WorkerLoops.IsNew, Workers.IsNewWorker};

    // The loop with a seat; the seat alone, where the loop's memory ran out.
    pub(crate) fn seated(
        opened: Result<WorkerLoop<'a, C>, AllocError>,
        seat: DeskSeat<'a, C::Entry>,
    ) -> Result<WorkerOn<'a, C>, DeskSeat<'a, C::Entry>>
        ensures new { (b : Base) (each : ℕ) → IfOk opened.entry (IsNew b each (number_of seat.entry))
            → IfOk result (λ w. IsNewWorker b each w seat.entry) }
        ensures refused { IfErr result (λ s. s ≡ seat.entry) }
    {
        match opened {
            Ok(worker_loop) => Ok(Seated {
                worker_loop,
                seat: Some(seat),
            }),
            Err(_) => Err(seat),
        }
    }

    /// A worker with this seat, in a search over a start by single moves. It has drawn and seen nothing. For users of
    /// the crate: `search_at_desk` seats its workers by itself.
    ///
    /// # Errors
    /// The seat, where memory runs out.
    pub fn new(
        alloc: Global,
        inst: &'a Instance,
        start: &Plan,
        options: &Options,
        freeze: u32,
        seat: DeskSeat<'a, C::Entry>,
    ) -> Result<WorkerOn<'a, C>, DeskSeat<'a, C::Entry>>
        requires start { IsPlanOf inst.now.draft start.now }
        requires lawful { IsLawful options.now }
        requires freeze { freeze ≤ C.Entry.Attempt.most_freeze }
        requires single { 1 ≤ C.Entry.Attempt.most_moves }
        ensures new { IfOk result
            (λ w. IsNewWorker (base_with inst.entry.now.draft start.now options.now freeze) 1 w seat.entry) }
        ensures refused { IfErr result (λ s. s ≡ seat.entry) }
    {
        let opened = WorkerLoop::open(alloc, inst, start, options, freeze, 1, seat.number());
        Seated::seated(opened, seat)
    }
}

impl<S: Drop, T> Seated<S, T> {
    ghost use Rattle.ih_desk.specs.Workers.{Holds};

    /// The worker's seat.
    pub fn into_seat(self) -> T
        ensures { Holds self result }
    {
        let Seated {
            worker_loop: _,
            seat,
        } = self;
        let Some(seat) = seat else { unreachable!() };
        seat
    }
}
