//! Replicas as what workers run on.

use crate::replicas::Replica;
use ih_cellbook::{Logged, Opens, Replicates};
use ih_journal::Options;
use ih_plan::Plan;
use ih_tables::Instance;
use std::alloc::{AllocError, Global};

impl<'a, E: Logged> Replicates for Replica<'a, E> {
    type Entry = E;

    ghost copied = { λ r. r };

    fn seen(&self) -> u32 {
        self.seen()
    }

    fn advance(&mut self, entries: &[E]) {
        self.advance(entries);
    }

    fn follow(&mut self, accepted: &[E], until: u32) {
        self.follow(accepted, until);
    }

    fn offer(&mut self, attempt: &E::Attempt, attempt_no: u32) {
        self.prepare_offer(attempt, attempt_no);
    }

    fn last(&self) -> &E::Offer {
        self.last()
    }
}

impl<'a, E: Logged> Opens<'a> for Replica<'a, E> {
    fn open(
        alloc: Global,
        inst: &'a Instance,
        start: &Plan,
        options: &Options,
        freeze: u32,
        worker: u32,
    ) -> Result<Replica<'a, E>, AllocError> {
        Replica::new(alloc, inst, start, options, freeze, worker)
    }
}
