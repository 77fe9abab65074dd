//! The book: what workers share.

ghost use Rattle.std.specs.Prelude.{◌≡◌, ℕ, ◌<◌, ◌≤◌, length};

use crate::best::{add_price, best_after, with_place};
use crate::buffers::Buffer;
use crate::counters::{judge_by_counters, raise_where};
use crate::entry_kinds::{Logged, Offers};
use crate::news::News;
use crate::parts::{BookParts, again_after, again_of, entry_from, room_of};
use ih_footprint::Numbering;
use ih_journal::{Entry, Options, Verdict};
use ih_plan::Plan;
use ih_tables::{Bill, Instance};
use std::alloc::{AllocError, Global};
use std::marker::Model;

/// A history of entries that is legal but for its draws, over a start. It keeps no timetable but the reference to the
/// start, and takes no memory after it is opened.
#[derive(Drop)]
pub struct Book<'a, E: Logged = Entry> {
    // In a place of their own: who hands the book over, as a turn does, moves their address alone.
    parts: Box<BookParts<'a, E>>,
}

impl<'a, E: Logged> Model for Book<'a, E> {
    ghost use Rattle.std.specs.Prelude.{◌≤◌, map, vec_capacity};
    ghost use Rattle.ih_journal.specs.Settings.{most_entries};
    ghost use Rattle.ih_cellbook.specs.{BookState.BookState, Keeping.IsKept, Keeping.base_with};

    ghost Value = { BookState };

    ghost view = { λ k. let p = k.parts.value in
        record {
          base = base_with p.inst.now.draft p.start.now p.options p.freeze;
          entries = map E.tried p.entries.items;
        } };

    ghost invariant = { λ k. let p = k.parts.value in
        IsKept (base_with p.inst.now.draft p.start.now p.options p.freeze) (map E.tried p.entries.items)
        p.counters.items p.again.items p.bill p.best
        × (most_entries p.options ≤ vec_capacity p.entries) × (p.options.retries ≤ E.most_retries) };
}

impl<'a, E: Logged> Book<'a, E> {
    ghost use Rattle.std.specs.Prelude.{◌+◌, ◌++◌, ◌∷◌, [], take, drop, IfOk, map};
    ghost use Rattle.ih_plan.specs.{BillOf.bill_of, BillOf.change_of_bill, Timetable.IsPlanOf, Cells.cell_at};
    ghost use Rattle.ih_plan.specs.{Cells.cell_count};
    ghost use Rattle.ih_journal.specs.History.{plan_after, plan_at, version};
    ghost use Rattle.ih_journal.specs.{Settings.IsLawful, Best.BestIs, declared.entries.Verdict.TheVariants.Accepted};
    ghost use Rattle.ih_journal.specs.{Frozen.AgreesBefore, Legal.IsLegalButDraw, Legal.verdict_on};
    ghost use Rattle.ih_cellbook.specs.Core.{State, IsLegalState, step, offers};
    ghost use Rattle.ih_cellbook.specs.Offers.{IsJudged, IsRightOffer, entry_of};
    ghost use Rattle.ih_cellbook.specs.{BufferState.most_copied, Keeping.base_with, Keeping.IsBase, Legal.AreExact};
    ghost use Rattle.ih_cellbook.specs.{Legal.AreLegalButDraws, Laws.AreFew, News.TellsOf};

    /// A book without entries over a start, whose bill is `first`. Room for all entries of the search is reserved.
    pub fn new(
        alloc: Global,
        inst: &'a Instance,
        start: &'a Plan,
        first: &Bill,
        options: &Options,
        freeze: u32,
    ) -> Result<Book<'a, E>, AllocError>
        requires start { IsPlanOf inst.now.draft start.now }
        requires first { first.now ≡ bill_of inst.now.draft start.now }
        requires lawful { IsLawful options.now }
        requires retries { options.now.retries ≤ E.most_retries }
        ensures { IfOk result
            (λ k. k ≡ record { base = base_with inst.now.draft start.now options.now freeze; entries = [] }) }
    {
        let entries = room_of(alloc, options)?;
        let counters = vec![in alloc; 0; Numbering::of(inst).count() as usize]?;
        let again = vec![in alloc; 0; options.workers as usize]?;
        let parts = BookParts {
            inst,
            start,
            options: *options,
            freeze,
            entries,
            counters,
            again,
            bill: *first,
            best: with_place(None, 0, first, inst),
        };
        Ok(Book {
            parts: Box::new(alloc, parts)?,
        })
    }

    /// Adds the entry of an offer that is right for this history, and answers its verdict: frozen; else declined, where
    /// the price's score is above what its number may cost; else stale by the first cell of its footprint that an
    /// accepted entry touched which the worker hadn't seen; else accepted. It compares the versions that were read with
    /// those that stand here, in time of the footprint, and takes no memory.
    pub fn commit(&mut self, offer: &E::Offer) -> Verdict
        requires { IsRightOffer self.old.base self.old.entries (E.Offer.offered offer.now) }
        ensures base { self.new.base ≡ self.old.base }
        ensures entries { self.new.entries
            ≡ self.old.entries ++ entry_of self.old.base self.old.entries (E.Offer.offered offer.now) result ∷ [] }
        ensures verdict { result
            ≡ verdict_on self.old.base self.old.entries (E.Offer.offered offer.now).number
            (E.Offer.offered offer.now).seen (E.Offer.offered offer.now).moves (E.Offer.offered offer.now).price }
        ensures legal { IsLegalButDraw self.old.base self.old.entries
            (entry_of self.old.base self.old.entries (E.Offer.offered offer.now) result) }
        // an accepted price, however old, is the change of the bill at this place
        ensures exact { result ≡ Accepted
            → (E.Offer.offered offer.now).price
            ≡ change_of_bill self.old.base.instance (plan_after self.old.base self.old.entries)
            (plan_after self.old.base self.new.entries) }
        // in every legal state of the machine with this history, the worker's offer of this attempt adds the same entry
        ensures event { (s : State) → s.history ≡ self.old.entries → IsLegalState self.old.base s
            → self.new.entries ≡ (step self.old.base s
            (offers (E.Offer.offered offer.now).worker (E.Offer.offered offer.now).seen
            (E.Offer.offered offer.now).moves)).history }
    {
        let verdict = self.judge(offer);
        self.add(offer, verdict);
        verdict
    }

    // Adds the entry of an offer with its verdict, and what follows from it.
    fn add(&mut self, offer: &E::Offer, verdict: Verdict)
        requires { IsJudged self.old.base self.old.entries (E.Offer.offered offer.now) verdict }
        ensures base { self.new.base ≡ self.old.base }
        ensures entries { self.new.entries
            ≡ self.old.entries ++ entry_of self.old.base self.old.entries (E.Offer.offered offer.now) verdict ∷ [] }
        ensures exact { verdict ≡ Accepted
            → (E.Offer.offered offer.now).price
            ≡ change_of_bill self.old.base.instance (plan_after self.old.base self.old.entries)
            (plan_after self.old.base self.new.entries) }
    {
        let parts = &mut *self.parts;
        let again = again_of(&parts.again, offer);
        raise_where(&verdict, &mut parts.counters, offer.reads());
        parts.again[offer.worker() as usize] = again_after(&parts.options, again, &verdict);
        add_price(&verdict, &mut parts.bill, &offer.price());
        parts
            .entries
            .push_reserved(entry_from(offer, again, verdict));
        parts.best = best_after(
            &verdict,
            parts.best,
            parts.entries.len() as u32,
            &parts.bill,
            parts.inst,
        );
    }

    /// The verdict that `commit` would give on the offer. It changes nothing.
    pub fn judge(&self, offer: &E::Offer) -> Verdict
        requires { IsRightOffer self.now.base self.now.entries (E.Offer.offered offer.now) }
        ensures { result ≡ verdict_on self.now.base self.now.entries (E.Offer.offered offer.now).number
            (E.Offer.offered offer.now).seen (E.Offer.offered offer.now).moves (E.Offer.offered offer.now).price }
    {
        let parts = &*self.parts;
        judge_by_counters(parts.inst, &parts.options, parts.counters.as_slice(), offer)
    }

    /// Replaces the buffer's entries by those from place `from` on, or by the first 256 of them where there are more.
    /// Its front is then the number of all entries. Answers how many were put; takes no memory.
    pub fn copy_since(&self, from: u32, buffer: &mut Buffer<E>) -> u32
        requires { from ≤ length self.now.entries }
        ensures copied { buffer.new
            ≡ record {
              from = from;
              entries = take most_copied
                  (drop from self.now.entries);
              front = length self.now.entries;
            } }
        ensures count { result ≡ length buffer.new.entries }
    {
        buffer.copy_from(self.entries(), from, self.front())
    }

    /// Replaces the news by what was accepted from place `from` on: up to the end, or up to where its room for 256
    /// accepted entries is full. It looks at each of these entries once, and copies the accepted ones alone; it takes
    /// no memory.
    pub fn news_since(&self, from: u32, news: &mut News<E>)
        requires { from ≤ length self.now.entries }
        ensures { TellsOf self.now.entries from news.new }
    {
        news.tell_from(self.entries(), from, self.front());
    }

    /// The place and the cost of the first of the cheapest feasible timetables: place k is that after k entries. None
    /// exactly where no timetable of the history is feasible.
    pub fn best(&self) -> Option<(u32, i64)>
        ensures { BestIs self.now.base self.now.entries result }
    {
        self.parts.best
    }

    /// The entries so far, each legal but for its draw after those before it.
    pub fn entries(&self) -> &[E]
        ensures entries { map E.tried result.now ≡ self.now.entries }
        ensures base { IsBase self.now.base }
        ensures legal { AreLegalButDraws self.now.base self.now.entries }
        ensures few { AreFew self.now.base self.now.entries }
        ensures agrees { (k : ℕ) → AgreesBefore self.now.base (plan_at self.now.base self.now.entries k) }
        ensures exact { AreExact self.now.base self.now.entries }
    {
        self.parts.entries.as_slice()
    }

    // How many entries there are.
    fn front(&self) -> u32
        ensures { result ≡ length self.now.entries }
    {
        self.parts.entries.len() as u32
    }

    /// A cell's version: how many of the entries were accepted and touched it.
    pub fn versions(&self, cell: u32) -> u32
        requires { cell < cell_count self.now.base.instance }
        ensures { result ≡ version self.now.base self.now.entries (cell_at self.now.base.instance cell) }
    {
        self.parts.counters[cell as usize]
    }
}
