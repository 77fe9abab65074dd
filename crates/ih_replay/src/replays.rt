//! The check of a journal, line by line.
//!
//! A replay is a book and, for each worker, a replica and a stream of draws. It has no second way to price a move: as
//! in the search, a worker's replica stands for the entries that the worker had seen, and the book judges its offer.

use crate::taking::{is_full, take_line};
use crate::workers::{ReplayWorker, new_workers};
use ih_cellbook::{Book, plan_at};
use ih_journal::{Entry, JournalRefusal, Options, Reason};
use ih_plan::Plan;
use ih_tables::Instance;
use ih_validate::bill;
use std::alloc::{AllocError, Global};
use std::marker::Model;

/// The entries of a journal that were taken so far, over a start. Each is legal after those before it.
#[derive(Drop)]
pub struct Replay<'a> {
    inst: &'a Instance,
    start: &'a Plan,
    options: Options,
    book: Book<'a>,
    // By number.
    workers: Vec<ReplayWorker<'a>>,
}

impl<'a> Model for Replay<'a> {
    ghost use Rattle.ih_replay.specs.{Keeping.IsReplay, ReplayState.ReplayState, ReplayState.replayed_of};

    ghost Value = { ReplayState };

    ghost view = { λ r. replayed_of r.book };

    ghost invariant = { λ r. IsReplay r.inst.now.draft r.start.now r.options r.book r.workers.items };
}

impl<'a> Replay<'a> {
    ghost use Rattle.std.specs.Prelude.{◌≡◌, ℕ, ◌+◌, ◌++◌, ◌∷◌, [], length, IfOk, IfErr, OnOk, OnErr, IsOk, IfSome};
    ghost use Rattle.ih_plan.specs.Timetable.{IsPlanOf};
    ghost use Rattle.ih_journal.specs.{declared.entries.Entry.Entry};
    ghost use Rattle.ih_tables.specs.declared.journal_refusals.Reason.TheVariants.{Early};
    ghost use Rattle.ih_journal.specs.{Settings.IsLawful, Tried.tries, Best.BestIs, Frozen.AgreesBefore};
    ghost use Rattle.ih_journal.specs.{History.plan_at, Legal.AreLegal, Legal.IsFull};
    ghost use Rattle.ih_cellbook.specs.{Keeping.base_with, Keeping.IsBase, Laws.AreFew, Legal.AreExact};
    ghost use Rattle.ih_replay.specs.Bests.{BestPlanIs};
    ghost use Rattle.ih_replay.specs.Refusals.{IsGoing, IsNextLine, IsRefusedFor};

    /// A replay that has taken no line, of a search with these options over a start, in which days before `freeze` are
    /// frozen.
    pub fn new(
        alloc: Global,
        inst: &'a Instance,
        start: &'a Plan,
        options: &Options,
        freeze: u32,
    ) -> Result<Replay<'a>, AllocError>
        requires start { IsPlanOf inst.now.draft start.now }
        requires lawful { IsLawful options.now }
        ensures { IfOk result
            (λ r. r ≡ record { base = base_with inst.now.draft start.now options.now freeze; entries = [] }) }
    {
        let first = bill(inst, start);
        let book = Book::new(alloc, inst, start, &first, options, freeze)?;
        let workers = new_workers(alloc, inst, start, options, freeze)?;
        Ok(Replay {
            inst,
            start,
            options: *options,
            book,
            workers,
        })
    }

    /// Takes a line, without its line feed, where it is that of an entry that may come next, and answers else the first
    /// reason for which it isn't, with the line's number in the journal: entry 0 is on line 2. A refused line changes
    /// nothing. It takes no memory. Its time is that of the accepted entries which the worker's replica hasn't followed
    /// yet; after a refusal, maybe that of all so far.
    pub fn step(&mut self, line: &[u8]) -> Result<(), JournalRefusal>
        ensures taken { OnOk result
            ((e : Entry) × IsNextLine self.old.base self.old.entries line.now e
            × (self.new ≡ record self.old { entries = self.old.entries ++ e ∷ [] })) }
        ensures next { (e : Entry) → IsNextLine self.old.base self.old.entries line.now e → IsOk result }
        ensures refused { IfErr result
            (λ r. (r.line ≡ length self.old.entries + 2)
            × IsRefusedFor self.old.base self.old.entries line.now r.reason) }
        ensures same { OnErr result (self.new ≡ self.old) }
    {
        let taken = take_line(
            self.inst,
            &self.options,
            &mut self.book,
            self.workers.as_mut_slice(),
            line,
        );
        match taken {
            Ok(()) => Ok(()),
            Err(reason) => Err(self.refusal(reason)),
        }
    }

    // The next line is refused, or missing.
    fn refusal(&self, reason: Reason) -> JournalRefusal
        ensures { result ≡ record { line = length self.now.entries + 2; reason = reason } }
    {
        JournalRefusal {
            line: self.book.entries().len() as u64 + 2,
            reason,
        }
    }

    /// Where every worker has made all its attempts, the journal is whole. Else its next line is missing.
    pub fn finish(&self) -> Result<(), JournalRefusal>
        ensures full { OnOk result (IsFull self.now.base 1 (tries self.now.entries)) }
        ensures early { IfErr result (λ r. (r ≡ record { line = length self.now.entries + 2; reason = Early })
            × ((w : ℕ) × IsGoing self.now.base (tries self.now.entries) w)) }
    {
        if is_full(&self.book, &self.options, self.workers.as_slice()) {
            Ok(())
        } else {
            Err(self.refusal(Reason::Early))
        }
    }

    /// The place and the cost of the first of the cheapest feasible timetables: place k is that after k entries. None
    /// exactly where no timetable of the history is feasible.
    pub fn best(&self) -> Option<(u32, i64)>
        ensures { BestIs self.now.base (tries self.now.entries) result }
    {
        self.book.best()
    }

    /// The timetable at the place of the best, where there is one. It is made anew from the start.
    pub fn best_plan(&self, alloc: Global) -> Result<Option<Plan>, AllocError>
        ensures best { IfOk result (BestPlanIs self.now.base (tries self.now.entries)) }
        ensures fits { IfOk result (λ found. IfSome found (IsPlanOf self.now.base.instance)) }
    {
        match self.book.best() {
            None => Ok(None),
            Some((place, _)) => {
                let entries = self.book.entries();
                Ok(Some(plan_at(alloc, self.inst, self.start, entries, place)?))
            }
        }
    }

    /// The entries that were taken, each legal after those before it.
    pub fn entries(&self) -> &[Entry]
        ensures entries { result.now ≡ self.now.entries }
        ensures base { IsBase self.now.base }
        ensures legal { AreLegal self.now.base 1 (tries self.now.entries) }
        ensures few { AreFew self.now.base (tries self.now.entries) }
        ensures agrees { (k : ℕ) → AgreesBefore self.now.base (plan_at self.now.base (tries self.now.entries) k) }
        ensures exact { AreExact self.now.base (tries self.now.entries) }
    {
        self.book.entries()
    }
}
