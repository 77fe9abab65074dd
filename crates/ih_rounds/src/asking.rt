//! What a run of rounds asks: a searcher, or a closure that searches. A closure may be called only where its own
//! condition holds; a searcher has none.

use crate::searcher::Searcher;
use ih_journal::{Entry, Options};
use ih_plan::Plan;
use ih_tables::Instance;
use std::alloc::{AllocError, Global};
use std::sync::Wait;
use std::thread::Threads;

/// What is asked: a search over an instance from this start, by these options.
#[derive(Clone, Copy)]
pub(crate) struct Question<'q> {
    pub(crate) inst: &'q Instance,
    pub(crate) start: &'q Plan,
    pub(crate) options: &'q Options,
}

/// Whoever is asked for the searches of a run of rounds; `K` says of which kind it is.
pub(crate) trait Asked<K> {
    ghost use Rattle.std.specs.Prelude.{◌≡◌, [], ◌∷◌, IfOk, OnErr};
    ghost use Rattle.std.specs.Thread.{IsSync};
    ghost use Rattle.ih_plan.specs.Timetable.{IsPlanOf};
    ghost use Rattle.ih_journal.specs.{Legal.IsFull, Settings.IsLawful, Tried.tries};
    ghost use Rattle.ih_cellbook.specs.Keeping.{base_with};
    ghost use Rattle.ih_rounds.specs.Answers.{Answers, with_answers};

    /// The histories that were answered, where they are told.
    ghost told: { Self → Answers };

    /// What holds between its searches.
    ghost ready: { Self → Type 0 };

    /// A full history over the start, for the options.
    fn ask<R: Threads + Wait + Sync>(
        &mut self,
        rt: &R,
        alloc: Global,
        asked: &Question<'_>,
    ) -> Result<Vec<Entry>, AllocError>
        requires sync { IsSync R.row }
        requires ready { ready self.old }
        requires start { IsPlanOf asked.now.inst.now.draft asked.now.start.now }
        requires lawful { IsLawful asked.now.options.now }
        requires once { asked.now.options.now.retries ≡ 0 }
        ensures full { IfOk result (λ v.
            IsFull (base_with asked.now.inst.now.draft asked.now.start.now asked.now.options.now 0) 1 (tries v.items)) }
        ensures more { IfOk result (λ v. told self.new ≡ with_answers (told self.old) (v.items ∷ [])) }
        ensures kept { OnErr result (told self.new ≡ told self.old) }
        ensures ready { ready self.new };
}

/// The kind of a searcher.
pub(crate) struct OfSearcher;

/// The kind of a closure.
pub(crate) struct OfClosure;

impl<S: Searcher> Asked<OfSearcher> for S {
    ghost told = { λ s. S.answers s };

    ghost ready = { λ s. Unit {0} };

    fn ask<R: Threads + Wait + Sync>(
        &mut self,
        rt: &R,
        alloc: Global,
        asked: &Question<'_>,
    ) -> Result<Vec<Entry>, AllocError> {
        self.search(rt, alloc, asked.inst, asked.start, asked.options)
    }
}

/// A closure that searches.
#[derive(Drop)]
pub(crate) struct SearchBy<F> {
    pub(crate) search: F,
}

impl<F: Fn(Global, &Instance, &Plan, &Options) -> Result<Vec<Entry>, AllocError>> Asked<OfClosure>
    for SearchBy<F> {
    ghost use Rattle.std.specs.Prelude.{◌≡◌, None, IfOk};
    ghost use Rattle.ih_plan.specs.Timetable.{IsPlanOf};
    ghost use Rattle.ih_journal.specs.{Legal.IsFull, Settings.IsLawful, Tried.tries};
    ghost use Rattle.ih_cellbook.specs.Keeping.{base_with};
    ghost use Rattle.ih_rounds.specs.Answers.{Gives};

    ghost told = { λ s. None };

    ghost ready = { λ s. Gives (λ a i p o. F.pre s.search a i p o) (λ a i p o r. F.post s.search a i p o r)
        (λ i p o. IsPlanOf i.now.draft p.now × IsLawful o.now × (o.now.retries ≡ 0))
        (λ i p o r. IfOk r (λ v. IsFull (base_with i.now.draft p.now o.now 0) 1 (tries v.items))) };

    fn ask<R: Threads + Wait + Sync>(
        &mut self,
        _rt: &R,
        alloc: Global,
        asked: &Question<'_>,
    ) -> Result<Vec<Entry>, AllocError> {
        (self.search)(alloc, asked.inst, asked.start, asked.options)
    }
}
