//! One round: all workers side by side.

ghost use Rattle.std.specs.Prelude.{◌≡◌, ◌<◌, ℕ, All, length, slice_index_or};
ghost use Rattle.ih_improve.specs.{Following.MayStand, Legs.terms_of_leg};

use crate::legs::Leg;
use ih_plan::MAX_WORKERS;
use std::thread::{Threads, for_each_mut};

/// A worker of any kind, which may go on from where its last round left it. Its walk takes no handle, no clock and
/// nothing that another worker changes, so by the language alone the same calls, one after the other, leave the same. No
/// clause says that. What is proved is that threads add nothing to it: a round is the first best of what each walk left,
/// in the order of the workers.
pub trait Walks {
    ghost use Rattle.std.specs.Prelude.{◌≡◌, ◌<◌, ℕ};
    ghost use Rattle.ih_tables.specs.declared.drafts.Draft.{Draft};
    ghost use Rattle.ih_plan.specs.Timetable.{Timetable};
    ghost use Rattle.ih_improve.specs.{Following.MayStand, Legs.LegState, Legs.terms_of_leg};

    /// The instance on which it works.
    ghost instance: { Self → Draft };

    /// The timetable where it stands.
    ghost stands: { Self → Timetable };

    /// The best timetable that it met in its last round.
    ghost best: { Self → Timetable };

    /// What it may leave behind a round: by what the round begins with, and its number.
    ghost leaves: { LegState → ℕ → Timetable → Type 0 };

    /// Makes its attempts of a round, from where it stands or from the round's timetable.
    fn walk(&mut self, leg: &Leg<'_>, worker_no: usize)
        requires instance { instance self.old ≡ leg.now.instance }
        requires number { worker_no < leg.now.settings.workers }
        requires stands { MayStand (terms_of_leg leg.now) (stands self.old) }
        ensures same { instance self.new ≡ instance self.old }
        ensures stands { MayStand (terms_of_leg leg.now) (stands self.new) }
        ensures left { leaves leg.now worker_no (best self.new) };
}

/// Lets each worker make its attempts of the round, in a call of its own. Where a thread can't be started the caller
/// does that worker's attempts itself. It takes no memory.
pub(crate) fn walk_all<W: Walks + Send, R: Threads + Sync>(rt: &R, leg: &Leg<'_>, workers: &mut [W])
    requires instance { All (λ w. W.instance w ≡ leg.now.instance) workers.old }
    requires count { length workers.old ≡ leg.now.settings.workers }
    requires stands { All (λ w. MayStand (terms_of_leg leg.now) (W.stands w)) workers.old }
    ensures same { (i : ℕ) (d : W) → i < length workers.old
        → W.instance (slice_index_or workers.new i d) ≡ leg.now.instance }
    ensures stands { (i : ℕ) (d : W) → i < length workers.old
        → MayStand (terms_of_leg leg.now)
        (W.stands (slice_index_or workers.new i d)) }
    ensures left { (i : ℕ) (d : W) → i < length workers.old
        → W.leaves leg.now i (W.best (slice_index_or workers.new i d)) }
{
    for_each_mut(
        rt,
        workers,
        MAX_WORKERS as usize,
        &|worker_no, w| w.walk(leg, worker_no),
    );
}
