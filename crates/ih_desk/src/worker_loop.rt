//! The loop of one worker: it draws its attempts in order, prices each on its replica, and offers it at the desk.

ghost use Rattle.std.specs.Prelude.{◌≡◌};
ghost use Rattle.ih_journal.specs.Attempts.{is_stale};

use crate::desk::{DeskOf, DeskSeat};
use crate::drawing::drawn;
use crate::passing::PassesGate;
use ih_cellbook::{Logged, News, Opens, Replicates};
use ih_journal::{Options, Verdict};
use ih_moves::Stream;
use ih_plan::Plan;
use ih_tables::Instance;
use std::alloc::{AllocError, Global};
use std::marker::Model;
use std::sync::Wait;

/// What a worker needs beside its seat. Once it is opened, no call takes memory.
#[derive(Drop)]
pub struct WorkerLoop<'a, C: Replicates> {
    inst: &'a Instance,
    options: Options,
    // How many moves each of its attempts has.
    moves_each: u32,
    // Its draws to come.
    stream: Stream,
    replica: C,
    // Room for what a turn tells.
    news: News<C::Entry>,
}

impl<'a, C: Replicates> Model for WorkerLoop<'a, C> {
    ghost use Rattle.std.specs.Prelude.{◌≤◌};
    ghost use Rattle.ih_desk.specs.WorkerLoopState.{WorkerLoopState};

    ghost Value = { WorkerLoopState };

    ghost view = { λ s. record {
      instance = s.inst.now.draft;
      options = s.options;
      moves_each = s.moves_each;
      stream = s.stream;
      replica = C.copied s.replica;
      news = s.news;
    } };

    ghost invariant = { λ s. (1 ≤ s.moves_each) × (s.moves_each ≤ C.Entry.Attempt.most_moves) };
}

// Whether an attempt with this verdict is to be tried again, as long as it has tries left.
fn is_stale(verdict: &Verdict) -> bool
    ensures { result ≡ is_stale verdict.now }
{
    matches!(verdict, Verdict::Stale { .. })
}

impl<'a, C: Opens<'a>> WorkerLoop<'a, C> {
    ghost use Rattle.std.specs.Prelude.{◌≤◌, IfOk};
    ghost use Rattle.ih_plan.specs.Timetable.{IsPlanOf};
    ghost use Rattle.ih_journal.specs.Settings.{IsLawful};
    ghost use Rattle.ih_cellbook.specs.Keeping.{base_with};
    ghost use Rattle.ih_desk.specs.WorkerLoops.{IsNew};

    /// The loop of a worker over a start, by attempts of so many moves.
    pub(crate) fn open(
        alloc: Global,
        inst: &'a Instance,
        start: &Plan,
        options: &Options,
        freeze: u32,
        each: u32,
        worker: u32,
    ) -> Result<WorkerLoop<'a, C>, AllocError>
        requires start { IsPlanOf inst.now.draft start.now }
        requires lawful { IsLawful options.now }
        requires freeze { freeze ≤ C.Entry.Attempt.most_freeze }
        requires some { 1 ≤ each }
        requires few { each ≤ C.Entry.Attempt.most_moves }
        ensures { IfOk result (IsNew (base_with inst.entry.now.draft start.now options.now freeze) each worker) }
    {
        Ok(WorkerLoop {
            inst,
            options: *options,
            moves_each: each,
            stream: Stream::new(options.seed, worker),
            replica: C::open(alloc, inst, start, options, freeze, worker)?,
            news: News::new(alloc)?,
        })
    }
}

impl<'a, C: Replicates> WorkerLoop<'a, C> {
    ghost use Rattle.std.specs.Prelude.{◌+◌, ◌*◌, ◌<◌, ◌≤◌, Some, length};
    ghost use Rattle.ih_journal.specs.{Attempts.HasMade, Legal.attempt_of, Settings.most_entries};
    ghost use Rattle.ih_turn.specs.Seats.{history, number_of, turns_left};
    ghost use Rattle.ih_turn.specs.Rule.{GoesOn};
    ghost use Rattle.ih_cellbook.specs.{Laws.HasNoneBy, Offers.next_number};
    ghost use Rattle.ih_desk.specs.WorkerLoops.{HasAttempted, HasCaughtUp, IsNew, IsNext, IsToldOf, IsWithin, MayTry};
    ghost use Rattle.ih_desk.specs.WorkerLoops.{credit};
    ghost use Rattle.ih_desk.specs.{Desks.base_of, Desks.IsSeatAt, Finishing.AreDrawn, Finishing.HasFinished};
    ghost use Rattle.ih_desk.specs.{Workers.enough_turns};

    /// Makes all attempts of the worker, in order, each of its next draws. A stale one is tried again as often as
    /// `retries` says.
    pub(crate) fn run<R: Wait, P: PassesGate>(
        &mut self,
        rt: &R,
        desk: &DeskOf<'a, C::Entry>,
        seat: DeskSeat<'a, C::Entry>,
        gate: &P,
    ) -> DeskSeat<'a, C::Entry>
        requires own { IsSeatAt desk.now seat }
        requires new { IsNew (base_of desk.now) self.old.moves_each (number_of seat) self.old }
        requires none { HasNoneBy (number_of seat) (history seat) }
        requires turns { enough_turns (base_of desk.now).options ≤ turns_left seat }
        ensures own { IsSeatAt desk.now result }
        ensures number { number_of result ≡ number_of seat.entry }
        ensures finished { HasFinished (base_of desk.now) self.old.moves_each (number_of seat.entry) (history result) }
    {
        let mut next = seat;
        for attempt_no in 0..self.options.moves {
            let attempt = drawn(self.inst, &mut self.stream, self.moves_each);
            next = self.make_attempt(rt, desk, next, gate, attempt_no, &attempt);
        }
        next
    }

    // Makes one attempt: it is tried again where it is stale, as often as `retries` says.
    fn make_attempt<R: Wait, P: PassesGate>(
        &mut self,
        rt: &R,
        desk: &DeskOf<'a, C::Entry>,
        seat: DeskSeat<'a, C::Entry>,
        gate: &P,
        attempt_no: u32,
        attempt: &<C::Entry as Logged>::Attempt,
    ) -> DeskSeat<'a, C::Entry>
        requires may { MayTry desk.now seat (C.Entry.Attempt.moves attempt.now) self.old }
        requires next { IsNext (base_of desk.now).options (history seat) (number_of seat) attempt_no 0 }
        requires drawn { C.Entry.Attempt.moves attempt.now
            ≡ attempt_of (base_of desk.now) self.old.moves_each (number_of seat) attempt_no }
        requires earlier { AreDrawn (base_of desk.now) self.old.moves_each (number_of seat) (history seat) }
        ensures own { IsSeatAt desk.now result }
        ensures number { number_of result ≡ number_of seat.entry }
        ensures caught_up { HasCaughtUp (base_of desk.now) self.old.moves_each (number_of seat.entry)
            (history result) self.new }
        ensures made { HasMade (base_of desk.now).options (history result) (number_of seat.entry) (attempt_no + 1) }
        ensures drawn { AreDrawn (base_of desk.now) self.old.moves_each (number_of seat.entry) (history result) }
        ensures turns { credit (turns_left seat.entry) self.old ≤ credit (turns_left result) self.new }
        ensures stream { self.new.stream ≡ self.old.stream }
    {
        let mut next = seat;
        let mut again = 0;
        loop {
            let (tried, verdict) = self.try_once(rt, desk, next, gate, attempt_no, attempt);
            if !is_stale(&verdict) || again == self.options.retries {
                return tried;
            }
            next = tried;
            again += 1;
        }
    }

    // Tries an attempt once: prices it on what the replica stands for, offers it, and takes over what was new by that
    // turn, its own entry at least, so that the next try is priced on it. The take-over comes behind the gate's
    // `after`: what the turn told stays the same while a gate holds the worker there.
    fn try_once<R: Wait, P: PassesGate>(
        &mut self,
        rt: &R,
        desk: &DeskOf<'a, C::Entry>,
        seat: DeskSeat<'a, C::Entry>,
        gate: &P,
        attempt_no: u32,
        attempt: &<C::Entry as Logged>::Attempt,
    ) -> (DeskSeat<'a, C::Entry>, Verdict)
        requires may { MayTry desk.now seat (C.Entry.Attempt.moves attempt.now) self.old }
        requires next { next_number (base_of desk.now).options (history seat) (number_of seat) ≡ Some attempt_no }
        ensures own { IsSeatAt desk.now result.0 }
        ensures number { number_of result.0 ≡ number_of seat.entry }
        ensures caught_up { HasCaughtUp (base_of desk.now) self.old.moves_each (number_of seat.entry)
            (history result.0) self.new }
        ensures attempted { HasAttempted (base_of desk.now).options (number_of seat.entry) attempt_no
            (C.Entry.Attempt.moves attempt.now) result.1 (history seat.entry) (history result.0) }
        ensures turns { credit (turns_left seat.entry) self.old ≤ credit (turns_left result.0) self.new }
        ensures stream { self.new.stream ≡ self.old.stream }
    {
        let worker = seat.number();
        self.replica.offer(attempt, attempt_no);
        gate.before(rt, worker, attempt_no);
        let (seat, verdict) = desk.offer_and_look(rt, seat, self.replica.last(), &mut self.news);
        gate.after(rt, worker, attempt_no);
        let seat = self.catch_up(rt, desk, seat);
        (seat, verdict)
    }

    // Takes over what the offer's turn told. Where more was accepted than the news have room for, it looks again until
    // the replica stands for all that there was by that turn, the offer's own entry the last of it.
    fn catch_up<R: Wait>(
        &mut self,
        rt: &R,
        desk: &DeskOf<'a, C::Entry>,
        seat: DeskSeat<'a, C::Entry>,
    ) -> DeskSeat<'a, C::Entry>
        requires own { IsSeatAt desk.now seat }
        requires within { IsWithin (base_of desk.now) self.old.moves_each (number_of seat) (history seat) self.old }
        requires told { IsToldOf (history seat) self.old }
        requires new { self.old.replica.seen < length (history seat) }
        requires turns { most_entries (base_of desk.now).options ≤ credit (turns_left seat) self.old }
        ensures own { IsSeatAt desk.now result }
        ensures number { number_of result ≡ number_of seat.entry }
        ensures caught_up { HasCaughtUp (base_of desk.now) self.old.moves_each (number_of seat.entry)
            (history result) self.new }
        ensures history { GoesOn (λ e. e.worker) (number_of seat.entry) (history seat.entry) (history result) }
        ensures turns { credit (turns_left seat.entry) self.old < credit (turns_left result) self.new }
        ensures stream { self.new.stream ≡ self.old.stream }
    {
        let goal = self.news.front();
        self.replica.follow(self.news.accepted(), self.news.until());
        let mut next = seat;
        while self.replica.seen() < goal {
            next = self.look(rt, desk, next);
        }
        next
    }

    // Looks where there is more to see, and takes over what the look tells.
    fn look<R: Wait>(
        &mut self,
        rt: &R,
        desk: &DeskOf<'a, C::Entry>,
        seat: DeskSeat<'a, C::Entry>,
    ) -> DeskSeat<'a, C::Entry>
        requires own { IsSeatAt desk.now seat }
        requires within { IsWithin (base_of desk.now) self.old.moves_each (number_of seat) (history seat) self.old }
        requires new { self.old.replica.seen < length (history seat) }
        requires turns { most_entries (base_of desk.now).options < credit (turns_left seat) self.old }
        ensures own { IsSeatAt desk.now result }
        ensures number { number_of result ≡ number_of seat.entry }
        ensures within { IsWithin (base_of desk.now) self.old.moves_each (number_of seat.entry)
            (history result) self.new }
        ensures history { GoesOn (λ e. e.worker) (number_of seat.entry) (history seat.entry) (history result) }
        ensures further { self.old.replica.seen < self.new.replica.seen }
        ensures turns { credit (turns_left seat.entry) self.old ≤ credit (turns_left result) self.new }
        ensures stream { self.new.stream ≡ self.old.stream }
    {
        let seat = desk.look_for_news(rt, seat, self.replica.seen(), &mut self.news);
        self.replica.follow(self.news.accepted(), self.news.until());
        seat
    }
}
