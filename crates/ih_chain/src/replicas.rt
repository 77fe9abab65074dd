//! A worker's own copy of a search by chains.

ghost use Rattle.std.specs.Prelude.{◌≡◌, ◌^◌, [], IfOk};

use crate::entries::{ChainEntry, ChainOffer};
use ih_cellbook::Replicates;
use ih_journal::Options;
use ih_moves::Chain;
use ih_plan::Plan;
use ih_snapshot::Replica;
use ih_tables::Instance;
use std::alloc::{AllocError, Global};
use std::marker::Model;

/// One worker's own copy of a search by chains: the timetable after the entries that it has seen, with ledgers that
/// price chains there, and each cell's version. After `new` no call takes memory.
#[derive(Drop)]
pub struct ChainReplica<'a> {
    replica: Replica<'a, ChainEntry>,
}

impl<'a> Model for ChainReplica<'a> {
    ghost use Rattle.ih_cellbook.specs.ReplicaState.{ReplicaState};

    ghost Value = { ReplicaState };

    ghost view = { λ r. r.replica };
}

impl<'a> ChainReplica<'a> {
    ghost use Rattle.std.specs.Borrow.{sem};
    ghost use Rattle.ih_tables.specs.Bills.{IsWithin};
    ghost use Rattle.ih_plan.specs.{Timetable.IsPlanOf, Series.AreMoves};
    ghost use Rattle.ih_journal.specs.Settings.{IsLawful};
    ghost use Rattle.ih_cellbook.specs.Keeping.{base_with};
    ghost use Rattle.ih_cellbook.specs.Replicas.{IsOfferOf, IsPricedOf, IsReplicaOf, IsRightFor, MayFollow};
    ghost use Rattle.ih_cellbook.specs.Replicas.{StandsAfter, StandsAs};
    ghost use Rattle.ih_snapshot.specs.Noting.{offer_of, priced_of};
    ghost use Rattle.ih_chain.specs.{Entries.chain_offered, Entries.chain_tries, Lending.RestsAs};

    /// A worker's replica of a search over a start, which fits the instance. It stands for the empty history.
    pub fn new(
        alloc: Global,
        inst: &'a Instance,
        start: &Plan,
        options: &Options,
        worker: u32,
    ) -> Result<ChainReplica<'a>, AllocError>
        requires start { IsPlanOf inst.now.draft start.now }
        requires lawful { IsLawful options.now }
        ensures replica { IfOk result (λ r. IsReplicaOf (base_with inst.entry.now.draft start.now options.now 0) [] r) }
        ensures worker { IfOk result (λ r. r.worker ≡ worker) }
    {
        let replica = Replica::new(alloc, inst, start, options, 0, worker)?;
        Ok(ChainReplica { replica })
    }

    /// Takes over the entries that follow those that it stands for.
    pub fn advance(&mut self, entries: &[ChainEntry])
        requires follow { MayFollow self.old (chain_tries entries.now) }
        ensures replica { StandsAfter self.old (chain_tries entries.now) self.new }
        ensures base { self.new.base ≡ self.old.base }
        ensures worker { self.new.worker ≡ self.old.worker }
    {
        self.replica.advance(entries);
    }

    /// How many entries it stands for.
    pub fn seen(&self) -> u32
        ensures { result ≡ self.now.seen }
    {
        self.replica.seen()
    }

    /// The offer of its worker for a chain of this number, priced after the entries that it stands for, with the cells
    /// of the chain's footprint there, each with its version. The chain is made on the ledgers and taken back. `offer`
    /// is cheaper where the verdict rests on no cell.
    pub fn price(&mut self, moves: &Chain, attempt_no: u32) -> &ChainOffer
        requires { AreMoves self.old.base.instance moves.now }
        ensures offer { IsPricedOf self.old attempt_no moves.now (chain_offered result.now) }
        ensures within { IsWithin (10 ^ 11) result.now.price }
        ensures right { IsRightFor self.old attempt_no (chain_offered result.now) }
        ensures* same { sem 𝓛
            (RestsAs self.entry (λ r. (r.base ≡ self.old.base) × (r.worker ≡ self.old.worker) × StandsAs self.old r)) }
    {
        self.prepare_price(moves, attempt_no);
        self.last()
    }

    /// The offer of its worker for a chain of this number, priced after the entries that it stands for. It has the
    /// footprint's cells and versions where its score is at most what the number may cost, and else no cells.
    pub fn offer(&mut self, moves: &Chain, attempt_no: u32) -> &ChainOffer
        requires { AreMoves self.old.base.instance moves.now }
        ensures offer { IsOfferOf self.old attempt_no moves.now (chain_offered result.now) }
        ensures within { IsWithin (10 ^ 11) result.now.price }
        ensures right { IsRightFor self.old attempt_no (chain_offered result.now) }
        ensures* same { sem 𝓛
            (RestsAs self.entry (λ r. (r.base ≡ self.old.base) × (r.worker ≡ self.old.worker) × StandsAs self.old r)) }
    {
        self.prepare_offer(moves, attempt_no);
        self.last()
    }

    fn prepare_price(&mut self, moves: &Chain, attempt_no: u32)
        requires { AreMoves self.old.base.instance moves.now }
        ensures made { self.new ≡ record self.old { last = priced_of self.old attempt_no moves.now } }
        ensures within { IsWithin (10 ^ 11) self.new.last.price }
    {
        self.replica.prepare_price(moves, attempt_no);
    }

    fn prepare_offer(&mut self, moves: &Chain, attempt_no: u32)
        requires { AreMoves self.old.base.instance moves.now }
        ensures made { self.new ≡ record self.old { last = offer_of self.old attempt_no moves.now } }
        ensures within { IsWithin (10 ^ 11) self.new.last.price }
    {
        self.replica.prepare_offer(moves, attempt_no);
    }

    fn last(&self) -> &ChainOffer
        ensures { chain_offered result.now ≡ self.now.last }
    {
        Replicates::last(&self.replica)
    }
}
