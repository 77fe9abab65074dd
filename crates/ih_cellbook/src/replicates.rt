//! What a worker needs of its own copy of a search, so that whoever runs workers needn't stand on the ledgers.

ghost use Rattle.std.specs.Prelude.{◌≡◌, ◌≤◌, [], IfOk, map};
ghost use Rattle.ih_plan.specs.{Timetable.IsPlanOf, Series.AreMoves};
ghost use Rattle.ih_journal.specs.Settings.{IsLawful};
ghost use Rattle.ih_cellbook.specs.Replicas.{IsOfferOf, IsReplicaOf, IsRightFor, MayFollow, MayFollowUpTo, StandsAfter};
ghost use Rattle.ih_cellbook.specs.Replicas.{StandsAs, StandsUpTo};
ghost use Rattle.ih_cellbook.specs.{Keeping.base_with, ReplicaState.ReplicaState};

use crate::entry_kinds::Logged;
use ih_journal::Options;
use ih_plan::Plan;
use ih_tables::Instance;
use std::alloc::{AllocError, Global};

/// One worker's own copy of a search, on which it prices. Its calls take no memory.
pub trait Replicates: Drop {
    type Entry: Logged;

    ghost copied: { Self → ReplicaState };

    /// How many entries it stands for.
    fn seen(&self) -> u32
        ensures { result ≡ (copied self.now).seen };

    /// Takes over the entries that follow those that it stands for.
    fn advance(&mut self, entries: &[Self::Entry])
        requires { MayFollow (copied self.old) (map Self.Entry.tried entries.now) }
        ensures replica { StandsAfter (copied self.old) (map Self.Entry.tried entries.now) (copied self.new) }
        ensures base { (copied self.new).base ≡ (copied self.old).base }
        ensures worker { (copied self.new).worker ≡ (copied self.old).worker };

    /// Takes over the entries that follow those that it stands for, up to a place, by the accepted ones of them alone:
    /// the others move its place, and change nothing else.
    fn follow(&mut self, accepted: &[Self::Entry], until: u32)
        requires { MayFollowUpTo (copied self.old) (map Self.Entry.tried accepted.now) until }
        ensures replica { StandsUpTo (copied self.old) (map Self.Entry.tried accepted.now) until (copied self.new) }
        ensures base { (copied self.new).base ≡ (copied self.old).base }
        ensures worker { (copied self.new).worker ≡ (copied self.old).worker };

    /// Makes the last offer that of its worker for an attempt of this number, priced after the entries that it stands
    /// for, with the cells that its verdict rests on: none where it is frozen or too dear.
    fn offer(&mut self, attempt: &<Self::Entry as Logged>::Attempt, attempt_no: u32)
        requires { AreMoves (copied self.old).base.instance (Self.Entry.Attempt.moves attempt.now) }
        ensures offer { IsOfferOf (copied self.old) attempt_no (Self.Entry.Attempt.moves attempt.now)
            (copied self.new).last }
        ensures right { IsRightFor (copied self.old) attempt_no (copied self.new).last }
        ensures base { (copied self.new).base ≡ (copied self.old).base }
        ensures worker { (copied self.new).worker ≡ (copied self.old).worker }
        ensures same { StandsAs (copied self.old) (copied self.new) };

    /// The last offer.
    fn last(&self) -> &<Self::Entry as Logged>::Offer
        ensures { Self.Entry.Offer.offered result.now ≡ (copied self.now).last };
}

/// A copy that can be made. It stands apart from the other calls, since a struct can't hold what has a bound with a
/// lifetime.
pub trait Opens<'a>: Replicates {
    /// A worker's copy of a search over a start. It stands for the empty history.
    fn open(
        alloc: Global,
        inst: &'a Instance,
        start: &Plan,
        options: &Options,
        freeze: u32,
        worker: u32,
    ) -> Result<Self, AllocError>
        requires start { IsPlanOf inst.now.draft start.now }
        requires lawful { IsLawful options.now }
        requires freeze { freeze ≤ Self.Entry.Attempt.most_freeze }
        ensures replica { IfOk result
            (λ r. IsReplicaOf (base_with inst.entry.now.draft start.now options.now freeze) [] (Self.copied r)) }
        ensures worker { IfOk result (λ r. (Self.copied r).worker ≡ worker) };
}
