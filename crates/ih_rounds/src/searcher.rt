//! Whatever searches.

use ih_journal::{Entry, Options};
use ih_plan::Plan;
use ih_tables::Instance;
use std::alloc::{AllocError, Global};
use std::sync::Wait;
use std::thread::Threads;

/// Something that searches: each answer is a full history over the start, for the options, or memory runs out.
pub trait Searcher {
    ghost use Rattle.std.specs.Prelude.{◌≡◌, [], ◌∷◌, IfOk, OnErr};
    ghost use Rattle.std.specs.Thread.{IsSync};
    ghost use Rattle.ih_plan.specs.Timetable.{IsPlanOf};
    ghost use Rattle.ih_journal.specs.{Legal.IsFull, Settings.IsLawful, Tried.tries};
    ghost use Rattle.ih_cellbook.specs.Keeping.{base_with};
    ghost use Rattle.ih_rounds.specs.Answers.{Answers, with_answers};

    /// The histories that it has answered, where it tells them.
    ghost answers: { Self → Answers };

    /// A full history over the start, for the options.
    fn search<R: Threads + Wait + Sync>(
        &mut self,
        rt: &R,
        alloc: Global,
        inst: &Instance,
        start: &Plan,
        options: &Options,
    ) -> Result<Vec<Entry>, AllocError>
        requires sync { IsSync R.row }
        requires start { IsPlanOf inst.now.draft start.now }
        requires lawful { IsLawful options.now }
        requires once { options.now.retries ≡ 0 }
        ensures full { IfOk result (λ v.
            IsFull (base_with inst.entry.now.draft start.entry.now options.entry.now 0) 1 (tries v.items)) }
        // an answer comes behind those before it, and lack of memory leaves them as they were
        ensures told { IfOk result (λ v. answers self.new ≡ with_answers (answers self.old) (v.items ∷ [])) }
        ensures kept { OnErr result (answers self.new ≡ answers self.old) };
}
