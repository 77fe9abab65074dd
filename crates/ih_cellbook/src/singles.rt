//! Attempts of one move.

use crate::entry_kinds::{Attempted, Logged, Offers};
use crate::offers::Offer;
use crate::reads::Reads;
use ih_journal::{Entry, Verdict};
use ih_plan::Move;
use ih_tables::Bill;
use std::alloc::{AllocError, Global};

impl Attempted for Move {
    ghost use Rattle.std.specs.Prelude.{[], ◌∷◌, ◌^◌};
    ghost use Rattle.std.proofs.Common.{rules};

    ghost moves = { λ m. m ∷ [] };

    ghost most_moves = { 1 };

    ghost most_freeze = { 2 ^ 32 };

    fn of(mv: Move) -> Move {
        mv
    }

    // There is no room for another.
    fn push(&mut self, _mv: Move) {}

    fn as_slice(&self) -> &[Move] {
        std::slice::from_ref(self)
    }

    ghost alone = { Prim.search rules };

    fn is_same(&self, other: &Move) -> bool {
        self == other
    }
}

impl Offers for Offer {
    ghost use Rattle.ih_cellbook.specs.Singles.{offered_of};

    type Attempt = Move;

    ghost offered = { offered_of };

    fn blank(alloc: Global, worker: u32, cells: u32) -> Result<Offer, AllocError> {
        Ok(Offer {
            worker,
            number: 0,
            seen: 0,
            mv: Move::Idle,
            price: Bill::zero(),
            reads: Reads::new(alloc, cells)?,
            frozen: false,
        })
    }

    fn reset(&mut self) {
        self.seen = 0;
        self.reads.clear();
    }

    fn become_offer(
        &mut self,
        worker: u32,
        attempt_no: u32,
        seen: u32,
        attempt: &Move,
        price: &Bill,
        frozen: bool,
    ) {
        self.worker = worker;
        self.number = attempt_no;
        self.seen = seen;
        self.mv = *attempt;
        self.price = *price;
        self.reads.clear();
        self.frozen = frozen;
    }

    fn note(&mut self, cells: &[u32], versions: &[u32]) {
        self.reads.note(cells, versions);
    }

    fn worker(&self) -> u32 {
        self.worker
    }

    fn number(&self) -> u32 {
        self.number
    }

    fn seen(&self) -> u32 {
        self.seen
    }

    fn attempt(&self) -> Move {
        self.mv
    }

    fn price(&self) -> Bill {
        self.price
    }

    fn reads(&self) -> &Reads {
        &self.reads
    }

    fn frozen(&self) -> bool {
        self.frozen
    }
}

impl Logged for Entry {
    ghost use Rattle.ih_journal.specs.{declared.settings.TheConstants.MAX_RETRIES, Tried.tried};

    type Attempt = Move;

    type Offer = Offer;

    ghost most_retries = { MAX_RETRIES };

    ghost tried = { tried };

    fn blank() -> Entry {
        Entry {
            worker: 0,
            number: 0,
            again: 0,
            seen: 0,
            mv: Move::Idle,
            price: Bill::zero(),
            verdict: Verdict::Frozen,
        }
    }

    fn made(
        worker: u32,
        attempt_no: u32,
        again: u32,
        seen: u32,
        attempt: &Move,
        price: &Bill,
        verdict: Verdict,
    ) -> Entry {
        Entry {
            worker,
            number: attempt_no,
            again,
            seen,
            mv: *attempt,
            price: *price,
            verdict,
        }
    }

    fn worker(&self) -> u32 {
        self.worker
    }

    fn seen(&self) -> u32 {
        self.seen
    }

    fn attempt(&self) -> Move {
        self.mv
    }

    fn again(&self) -> u32 {
        self.again
    }

    fn price(&self) -> Bill {
        self.price
    }

    fn verdict(&self) -> Verdict {
        self.verdict
    }
}
