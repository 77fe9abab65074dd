//! What one of those who look for advice side by side finds.

ghost use Rattle.std.specs.Prelude.{◌≡◌, ◌<◌, ◌≤◌, ◌*◌, [], true, length, vec_capacity, All, IfOk};
ghost use Rattle.ih_fill.specs.Choices.{IsChoiceOf};
ghost use Rattle.ih_advise.specs.Dealing.{HasAnswered};

use crate::choosing::{Advice, advice_on};
use ih_fill::{Choice, Scorer};
use ih_tables::Instance;
use std::alloc::{AllocError, Global};

/// What is advised on each choice that is dealt to one worker, in order. There is room for all of it before the worker
/// begins, so that no thread takes memory.
#[derive(Drop)]
pub(crate) struct Findings {
    pub(crate) found: Vec<Option<Advice>>,
}

impl Findings {
    /// Room for what is found on so many choices.
    pub(crate) fn new(alloc: Global, most: usize) -> Result<Findings, AllocError>
        ensures none { IfOk result (λ f. f.found.items ≡ []) }
        ensures room { IfOk result (λ f. vec_capacity f.found ≡ most) }
    {
        Ok(Findings {
            found: Vec::with_capacity(alloc, most)?,
        })
    }

    /// Looks for advice on each choice that is dealt to a worker: that with its own number, and from there in steps of
    /// as many as there are workers.
    pub(crate) fn find_all(
        &mut self,
        inst: &Instance,
        scorer: &Scorer<'_>,
        choices: &[Choice],
        workers: usize,
        worker: usize,
    )
        requires instance { scorer.now.instance ≡ inst.now.draft }
        requires counts { scorer.now.counts_uncovered ≡ true }
        requires inside { All (IsChoiceOf inst.now.draft) choices.now }
        requires few { workers ≤ 64 }
        requires worker { worker < workers }
        requires none { self.old.found.items ≡ [] }
        requires room { length choices.now ≤ vec_capacity self.old.found * workers }
        ensures { HasAnswered inst.now.draft scorer.now.hard scorer.now.plan choices.now workers worker
            self.new.found.items }
    {
        let mut at = worker;
        while at < choices.len() {
            self.found
                .push_reserved(advice_on(inst, scorer, choices[at]));
            at += workers;
        }
    }
}
