//! A searcher whose answers are kept.

use crate::searcher::Searcher;
use ih_journal::{Entry, Options};
use ih_plan::Plan;
use ih_tables::Instance;
use std::alloc::{AllocError, Global};
use std::marker::Model;
use std::sync::Wait;
use std::thread::Threads;

/// A searcher, and a copy of each history that it has answered.
#[derive(Drop)]
pub struct Noted<S> {
    searcher: S,
    answers: Vec<Vec<Entry>>,
}

impl<S> Model for Noted<S> {
    ghost use Rattle.std.specs.Prelude.{map};
    ghost use Rattle.ih_rounds.specs.Answers.{NotedState};

    ghost Value = { NotedState S };

    ghost view = { λ n. record { searcher = n.searcher; answers = map (λ v. v.items) n.answers.items } };
}

impl<S: Searcher> Noted<S> {
    ghost use Rattle.std.specs.Prelude.{◌≡◌, [], map};

    /// The searcher, of whose answers none is kept yet.
    pub fn new(alloc: Global, searcher: S) -> Noted<S>
        ensures searcher { result.searcher ≡ searcher }
        ensures none { result.answers ≡ [] }
    {
        Noted {
            searcher,
            answers: Vec::new(alloc),
        }
    }

    /// The histories that it has answered, in order.
    pub fn answers(&self) -> &[Vec<Entry>]
        ensures { map (λ v. v.items) result.now ≡ self.now.answers }
    {
        self.answers.as_slice()
    }
}

impl<S: Searcher> Searcher for Noted<S> {
    ghost use Rattle.std.specs.Prelude.{Some};

    ghost answers = { λ n. Some n.answers };

    fn search<R: Threads + Wait + Sync>(
        &mut self,
        rt: &R,
        alloc: Global,
        inst: &Instance,
        start: &Plan,
        options: &Options,
    ) -> Result<Vec<Entry>, AllocError> {
        let answer = self.searcher.search(rt, alloc, inst, start, options)?;
        let mut copy = Vec::new(alloc);
        copy.extend_from_slice(answer.as_slice())?;
        self.answers.push(copy)?;
        Ok(answer)
    }
}
