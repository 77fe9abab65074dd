//! Entries and offers of chains.

use ih_cellbook::{Logged, Offers, Reads};
use ih_journal::Verdict;
use ih_moves::Chain;
use ih_tables::Bill;
use std::alloc::{AllocError, Global};

/// One attempted chain of one worker.
#[derive(Clone, Copy)]
pub struct ChainEntry {
    /// The worker that made it.
    pub worker: u32,
    /// The number of the chain among the worker's, from 0.
    pub number: u32,
    /// How many entries the worker had seen when it priced the chain.
    pub seen: u32,
    /// The moves, which are made in a row.
    pub moves: Chain,
    /// The bill after the chain less the bill before it, at what the worker had seen.
    pub price: Bill,
    /// What became of it.
    pub verdict: Verdict,
}

/// A worker's next chain, priced on a copy of what the book had.
#[derive(Drop)]
pub struct ChainOffer {
    /// The worker that offers it.
    pub worker: u32,
    /// The number of the chain among the worker's, from 0.
    pub number: u32,
    /// How many entries the worker had seen when it priced the chain.
    pub seen: u32,
    /// The moves.
    pub moves: Chain,
    /// The bill after the chain less the bill before it, after those entries.
    pub price: Bill,
    /// The cells of the chain's footprint after those entries, rising by number, each with its version there. Nobody
    /// asks for them where its score is above what its number may cost.
    pub reads: Reads,
}

impl Offers for ChainOffer {
    ghost use Rattle.ih_chain.specs.Entries.{chain_offered};

    type Attempt = Chain;

    ghost offered = { chain_offered };

    fn blank(alloc: Global, worker: u32, cells: u32) -> Result<ChainOffer, AllocError> {
        Ok(ChainOffer {
            worker,
            number: 0,
            seen: 0,
            moves: Chain::new(),
            price: Bill::zero(),
            reads: Reads::new(alloc, cells)?,
        })
    }

    fn reset(&mut self) {
        self.seen = 0;
        self.reads.clear();
    }

    fn become_offer(
        &mut self,
        worker: u32,
        attempt_no: u32,
        seen: u32,
        attempt: &Chain,
        price: &Bill,
        _frozen: bool,
    ) {
        self.worker = worker;
        self.number = attempt_no;
        self.seen = seen;
        self.moves = *attempt;
        self.price = *price;
        self.reads.clear();
    }

    fn note(&mut self, cells: &[u32], versions: &[u32]) {
        self.reads.note(cells, versions);
    }

    fn worker(&self) -> u32 {
        self.worker
    }

    fn number(&self) -> u32 {
        self.number
    }

    fn seen(&self) -> u32 {
        self.seen
    }

    fn attempt(&self) -> Chain {
        self.moves
    }

    fn price(&self) -> Bill {
        self.price
    }

    fn reads(&self) -> &Reads {
        &self.reads
    }

    fn frozen(&self) -> bool {
        false
    }
}

impl Logged for ChainEntry {
    ghost use Rattle.ih_chain.specs.Entries.{chain_tried};

    type Attempt = Chain;

    type Offer = ChainOffer;

    ghost most_retries = { 0 };

    ghost tried = { chain_tried };

    fn blank() -> ChainEntry {
        ChainEntry {
            worker: 0,
            number: 0,
            seen: 0,
            moves: Chain::new(),
            price: Bill::zero(),
            verdict: Verdict::Declined,
        }
    }

    fn made(
        worker: u32,
        attempt_no: u32,
        _again: u32,
        seen: u32,
        attempt: &Chain,
        price: &Bill,
        verdict: Verdict,
    ) -> ChainEntry {
        ChainEntry {
            worker,
            number: attempt_no,
            seen,
            moves: *attempt,
            price: *price,
            verdict,
        }
    }

    fn worker(&self) -> u32 {
        self.worker
    }

    fn seen(&self) -> u32 {
        self.seen
    }

    fn attempt(&self) -> Chain {
        self.moves
    }

    fn again(&self) -> u32 {
        0
    }

    fn price(&self) -> Bill {
        self.price
    }

    fn verdict(&self) -> Verdict {
        self.verdict
    }
}
