//! Replicas: copies of a search that workers price on.

ghost use Rattle.std.specs.Prelude.{◌≡◌, [], IfOk};

use crate::attempts::{is_compared, play};
use crate::freezing::touches_frozen;
use ih_cellbook::{Attempted, Logged, Offers};
use ih_costs::Ledgers;
use ih_footprint::{CellList, Numbering};
use ih_journal::{Entry, Options, Verdict};
use ih_moves::Writes;
use ih_plan::Plan;
use ih_tables::Instance;
use std::alloc::{AllocError, Global};
use std::marker::Model;

/// One worker's own copy of a search: the timetable after the entries that it has seen, with ledgers that price moves
/// there, and each cell's version. After `new` no call takes memory.
#[derive(Drop)]
pub struct Replica<'a, E: Logged = Entry> {
    inst: &'a Instance,
    // The timetable before all entries, by which moves are frozen.
    start: Plan,
    options: Options,
    freeze: u32,
    worker: u32,
    ledgers: Ledgers<'a>,
    // Each cell's version, by number.
    versions: Vec<u32>,
    // How many entries it stands for.
    seen: u32,
    // Room for the cells of a footprint.
    foot: CellList,
    // Room for the writes of a move.
    writes: Writes,
    // The last offer that was made.
    last: E::Offer,
}

impl<'a, E: Logged> Model for Replica<'a, E> {
    ghost use Rattle.std.specs.Prelude.{◌≤◌};
    ghost use Rattle.ih_cellbook.specs.{Keeping.base_with, ReplicaState.ReplicaState};
    ghost use Rattle.ih_snapshot.specs.Keeping.{IsOfBase};

    ghost Value = { ReplicaState };

    ghost view = { λ r. record {
      base = base_with r.inst.now.draft r.start r.options r.freeze;
      worker = r.worker;
      seen = r.seen;
      plan = r.ledgers.plan;
      versions = r.versions.items;
      last = E.Offer.offered r.last;
    } };

    ghost invariant = { λ r.
        IsOfBase (base_with r.inst.now.draft r.start r.options r.freeze) r.ledgers r.versions.items r.foot.sizes
        (E.Offer.offered r.last) × (r.freeze ≤ E.Attempt.most_freeze) };
}

impl<'a, E: Logged> Replica<'a, E> {
    ghost use Rattle.std.specs.Prelude.{◌≡◌, ◌≤◌, ◌^◌, [], map, IfOk, if◌then◌else◌};
    ghost use Rattle.std.specs.Borrow.{sem};
    ghost use Rattle.ih_tables.specs.Bills.{IsWithin};
    ghost use Rattle.ih_plan.specs.{Timetable.IsPlanOf, Series.AreMoves};
    ghost use Rattle.ih_journal.specs.Settings.{IsLawful};
    ghost use Rattle.ih_cellbook.specs.Keeping.{base_with};
    ghost use Rattle.ih_cellbook.specs.Replicas.{IsReplicaOf, IsOfferOf, IsPricedOf, IsRightFor, MayFollow, MayFollowUpTo};
    ghost use Rattle.ih_cellbook.specs.Replicas.{StandsAfter, StandsAs, StandsUpTo};
    ghost use Rattle.ih_snapshot.specs.Noting.{asks_reads, offer_of, offer_with, priced_of, reads_of};
    ghost use Rattle.ih_snapshot.specs.{Keeping.CanTake, Keeping.HasTaken, Lending.RestsAs};

    /// A worker's replica of a search over a start, which fits the instance. It stands for the empty history.
    pub fn new(
        alloc: Global,
        inst: &'a Instance,
        start: &Plan,
        options: &Options,
        freeze: u32,
        worker: u32,
    ) -> Result<Replica<'a, E>, AllocError>
        requires start { IsPlanOf inst.now.draft start.now }
        requires lawful { IsLawful options.now }
        requires freeze { freeze ≤ E.Attempt.most_freeze }
        ensures replica { IfOk result
            (λ r. IsReplicaOf (base_with inst.entry.now.draft start.now options.now freeze) [] r) }
        ensures worker { IfOk result (λ r. r.worker ≡ worker) }
    {
        let numbering = Numbering::of(inst);
        let cells = numbering.count();
        Ok(Replica {
            inst,
            start: start.try_clone(alloc)?,
            options: *options,
            freeze,
            worker,
            ledgers: Ledgers::new(alloc, inst, start)?,
            versions: vec![in alloc; 0; cells as usize]?,
            seen: 0,
            foot: CellList::new(alloc, numbering)?,
            writes: Writes::new(),
            last: <E::Offer as Offers>::blank(alloc, worker, cells)?,
        })
    }

    /// Takes over the entries that follow those that it stands for. It makes the moves that were accepted, in time of
    /// their writes and footprints.
    pub fn advance(&mut self, entries: &[E])
        requires follow { MayFollow self.old (map E.tried entries.now) }
        ensures replica { StandsAfter self.old (map E.tried entries.now) self.new }
        ensures base { self.new.base ≡ self.old.base }
        ensures worker { self.new.worker ≡ self.old.worker }
    {
        for entry in entries {
            self.take_over(entry);
        }
    }

    /// Takes over the entries that follow those that it stands for, up to a place, by the accepted ones of them alone,
    /// in time of those.
    pub fn follow(&mut self, accepted: &[E], until: u32)
        requires follow { MayFollowUpTo self.old (map E.tried accepted.now) until }
        ensures replica { StandsUpTo self.old (map E.tried accepted.now) until self.new }
        ensures base { self.new.base ≡ self.old.base }
        ensures worker { self.new.worker ≡ self.old.worker }
    {
        for entry in accepted {
            self.take_over(entry);
        }
        // The others change nothing but the place.
        self.seen = until;
    }

    /// Goes back to the empty history, in time of the whole timetable.
    pub fn restart(&mut self)
        ensures replica { IsReplicaOf self.old.base [] self.new }
        ensures worker { self.new.worker ≡ self.old.worker }
    {
        self.ledgers.copy_from(&self.start);
        self.versions.as_mut_slice().fill(0);
        self.seen = 0;
        self.last.reset();
    }

    // Takes over one entry.
    fn take_over(&mut self, entry: &E)
        requires { CanTake self.old (E.tried entry.now) }
        ensures { HasTaken self.old (E.tried entry.now) self.new }
    {
        if let Verdict::Accepted = entry.verdict() {
            play(
                &mut self.ledgers,
                self.versions.as_mut_slice(),
                &mut self.foot,
                &self.last,
                entry,
            );
        }
        self.seen += 1;
    }

    /// How many entries it stands for.
    pub fn seen(&self) -> u32
        ensures { result ≡ self.now.seen }
    {
        self.seen
    }

    /// The offer of its worker for an attempt of this number, priced after the entries that it stands for: the price,
    /// whether the attempt writes a choice before the freeze day, and the cells of the attempt's footprint there, each
    /// with its version. `offer` is cheaper where the verdict rests on no cell.
    pub fn price(&mut self, attempt: &E::Attempt, attempt_no: u32) -> &E::Offer
        requires { AreMoves self.old.base.instance (E.Attempt.moves attempt.now) }
        ensures offer { IsPricedOf self.old attempt_no (E.Attempt.moves attempt.now) (E.Offer.offered result.now) }
        ensures within { IsWithin (10 ^ 11) (E.Offer.offered result.now).price }
        ensures right { IsRightFor self.old attempt_no (E.Offer.offered result.now) }
        ensures* same { sem 𝓛
            (RestsAs E.row E.Attempt.row E.Offer.row E.Logged E.Attempt.Attempted E.Offer.Offers self.entry
            (λ r. (r.base ≡ self.old.base) × (r.worker ≡ self.old.worker) × StandsAs self.old r)) }
    {
        self.prepare_price(attempt, attempt_no);
        self.last()
    }

    /// The offer of its worker for an attempt of this number, priced after the entries that it stands for. It has the
    /// footprint's cells and versions where it isn't frozen and its score is at most what the number may cost.
    pub fn offer(&mut self, attempt: &E::Attempt, attempt_no: u32) -> &E::Offer
        requires { AreMoves self.old.base.instance (E.Attempt.moves attempt.now) }
        ensures offer { IsOfferOf self.old attempt_no (E.Attempt.moves attempt.now) (E.Offer.offered result.now) }
        ensures within { IsWithin (10 ^ 11) (E.Offer.offered result.now).price }
        ensures right { IsRightFor self.old attempt_no (E.Offer.offered result.now) }
        ensures* same { sem 𝓛
            (RestsAs E.row E.Attempt.row E.Offer.row E.Logged E.Attempt.Attempted E.Offer.Offers self.entry
            (λ r. (r.base ≡ self.old.base) × (r.worker ≡ self.old.worker) × StandsAs self.old r)) }
    {
        self.prepare_offer(attempt, attempt_no);
        self.last()
    }

    /// Makes the last offer that of `offer`. For users of the crate that keep a replica in a type of their own.
    pub fn prepare_offer(&mut self, attempt: &E::Attempt, attempt_no: u32)
        requires { AreMoves self.old.base.instance (E.Attempt.moves attempt.now) }
        ensures made { self.new
            ≡ record self.old { last = offer_of self.old attempt_no (E.Attempt.moves attempt.now) } }
        ensures within { IsWithin (10 ^ 11) self.new.last.price }
    {
        let compared = self.price_into_last(attempt, attempt_no);
        self.read(attempt, compared);
    }

    /// Makes the last offer that of `price`. For users of the crate that keep a replica in a type of their own.
    pub fn prepare_price(&mut self, attempt: &E::Attempt, attempt_no: u32)
        requires { AreMoves self.old.base.instance (E.Attempt.moves attempt.now) }
        ensures made { self.new
            ≡ record self.old { last = priced_of self.old attempt_no (E.Attempt.moves attempt.now) } }
        ensures within { IsWithin (10 ^ 11) self.new.last.price }
    {
        let _compared = self.price_into_last(attempt, attempt_no);
        self.read(attempt, true);
    }

    // Makes the offer for an attempt of this number the last one, without cells. Answers whether its verdict rests on
    // them.
    fn price_into_last(&mut self, attempt: &E::Attempt, attempt_no: u32) -> bool
        requires { AreMoves self.old.base.instance (E.Attempt.moves attempt.now) }
        ensures made { self.new
            ≡ record self.old { last = offer_with self.old attempt_no (E.Attempt.moves attempt.now) [] } }
        ensures compared { result ≡ asks_reads self.old attempt_no (E.Attempt.moves attempt.now) }
        ensures within { IsWithin (10 ^ 11) self.new.last.price }
    {
        let moves = attempt.as_slice();
        let price = self.ledgers.price_all_alone(moves);
        let frozen = touches_frozen(
            self.inst,
            &self.start,
            self.freeze,
            self.ledgers.plan(),
            moves,
            &mut self.writes,
        );
        self.last.become_offer(self.worker, attempt_no, self.seen, attempt, &price, frozen);
        is_compared(self.inst, &self.options, frozen, attempt_no, &price)
    }

    // Notes the cells of an attempt's footprint in the last offer, where they are wanted.
    fn read(&mut self, attempt: &E::Attempt, wanted: bool)
        requires { AreMoves self.old.base.instance (E.Attempt.moves attempt.now) }
        ensures { self.new ≡ record self.old {
          last = record self.old.last {
            reads = record self.old.last.reads {
              pairs = if wanted then reads_of self.old (E.Attempt.moves attempt.now) else self.old.last.reads.pairs;
            };
          };
        } }
    {
        if wanted {
            self.ledgers.foot_all(attempt.as_slice(), &mut self.foot);
            self.last.note(self.foot.cells(), self.versions.as_slice());
        }
    }

    /// The offer that it made last.
    pub(crate) fn last(&self) -> &E::Offer
        ensures { E.Offer.offered result.now ≡ self.now.last }
    {
        &self.last
    }
}
