//! All workers' shares of one choice side by side, and the least of all.

ghost use Rattle.std.specs.Prelude.{◌≡◌, ◌<◌, ◌≤◌, ℤ, List, length};
ghost use Rattle.ih_tables.specs.declared.drafts.Draft.{Draft};
ghost use Rattle.ih_plan.specs.declared.moves.Write.{Write};
ghost use Rattle.ih_fill.specs.FirstLeast.{AnyPlace};
ghost use Rattle.ih_fill.specs.{Choices.IsChoiceOf, Choices.candidates, ScorerState.value_in};
ghost use Rattle.ih_parfill.specs.Shares.{HaveFound, IsOfShare, IsShare};

use crate::nurses::least_nurse_of_share;
use crate::scans::{Found, lower};
use crate::stays::least_of_share;
use ih_fill::{Choice, Scorer};
use ih_shelf::Gate;
use ih_tables::Instance;
use std::sync::Wait;
use std::thread::{Threads, for_each_mut};

// The most threads in one join: a thread costs about as much to start as a whole choice to price, so 64 workers share
// few.
const MOST_THREADS: usize = 4;

// One worker's look at its share of a choice's candidates, between its two passes of the gate.
fn look_at_share<R: Wait, G: Gate>(
    rt: &R,
    inst: &Instance,
    scorer: &Scorer<'_>,
    choice: Choice,
    choice_no: u32,
    workers: u32,
    worker: usize,
    found: &mut Option<Found>,
    gate: &G,
)
    requires instance { scorer.now.instance ≡ inst.now.draft }
    requires choice { IsChoiceOf inst.now.draft choice }
    requires worker { worker < workers }
    ensures { IsOfShare inst.now.draft (value_in scorer.now choice) (candidates inst.now.draft choice)
        (IsShare workers worker) found.new }
{
    let worker = worker as u32;
    gate.before(rt, worker, choice_no);
    *found = match choice {
        Choice::Stay(p) => least_of_share(inst, scorer, p, inst.patient(p), workers, worker),
        Choice::Nurse(r, k) => least_nurse_of_share(inst, scorer, r, k, workers, worker),
    };
    gate.after(rt, worker, choice_no);
}

/// Lets each worker look at its share of a choice's candidates.
pub(crate) fn deal<R: Threads + Wait + Sync, G: Gate>(
    rt: &R,
    inst: &Instance,
    scorer: &Scorer<'_>,
    choice: Choice,
    choice_no: u32,
    found: &mut [Option<Found>],
    gate: &G,
)
    requires instance { scorer.now.instance ≡ inst.now.draft }
    requires choice { IsChoiceOf inst.now.draft choice }
    requires few { length found.old ≤ 64 }
    ensures { HaveFound inst.now.draft (value_in scorer.now choice) (candidates inst.now.draft choice)
        (length found.old) found.new }
{
    let workers = found.len() as u32;
    for_each_mut(
        rt,
        found,
        MOST_THREADS,
        &|worker, found|
            requires { (scorer.now.instance ≡ inst.now.draft) × IsChoiceOf inst.now.draft choice
                × (worker < workers) }
        {
            look_at_share(
                rt, inst, scorer, choice, choice_no, workers, worker, found, gate,
            )
        },
    );
}

/// The first least of what all workers have found.
pub(crate) fn lowest(found: &[Option<Found>]) -> Option<Found>
    requires { 0 < length found.now }
    ensures { (I : Draft) (v : Write → ℤ) (ws : List Write) → HaveFound I v ws (length found.now) found.now
        → IsOfShare I v ws AnyPlace result }
{
    let mut best = None;
    for w in 0..found.len() {
        best = lower(best, found[w]);
    }
    best
}
