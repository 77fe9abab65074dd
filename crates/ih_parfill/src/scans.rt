//! What a worker finds in its share of a choice's candidates: those whose place, modulo the number of workers, is its
//! own number.

ghost use Rattle.std.specs.Prelude.{◌≡◌, ◌≢◌, ◌↔◌, ◌<◌, ◌+◌, ◌%◌, ◌^◌, ℤ, IsTrue, List, [], ◌∷◌, ◌++◌, None};
ghost use Rattle.ih_tables.specs.declared.drafts.Draft.{Draft};
ghost use Rattle.ih_plan.specs.{declared.moves.Write.Write, Writes.IsWriteOf};
ghost use Rattle.ih_fill.specs.Candidates.{valued};
ghost use Rattle.ih_parfill.specs.Shares.{HasLooked, IsLower};

use ih_fill::Candidate;

/// A candidate, and its place among those of its choice.
#[derive(Clone, Copy, Debug, PartialEq, Eq)]
pub(crate) struct Found {
    pub(crate) place: u32,
    pub(crate) candidate: Candidate,
}

/// The lower of two, and of equal ones that at the earlier place.
pub(crate) fn lower(first: Option<Found>, second: Option<Found>) -> Option<Found>
    ensures { IsLower first second result }
{
    match (first, second) {
        (None, other) => other,
        (Some(a), None) => Some(a),
        (Some(a), Some(b)) => {
            if a.candidate.value < b.candidate.value {
                Some(a)
            } else if b.candidate.value < a.candidate.value {
                Some(b)
            } else if a.place <= b.place {
                Some(a)
            } else {
                Some(b)
            }
        }
    }
}

/// A worker's scan of the candidates of a choice.
#[derive(Clone, Copy, Debug)]
pub(crate) struct ShareScan {
    pub(crate) workers: u32,
    pub(crate) worker: u32,
    // How many candidates lie behind, of all workers.
    pub(crate) passed: u32,
    // The first least of its own candidates among these.
    pub(crate) best: Option<Found>,
}

impl ShareScan {
    /// A scan by worker number `worker` of so many, before the first candidate.
    pub(crate) fn new(workers: u32, worker: u32) -> ShareScan
        ensures { result ≡ record { workers = workers; worker = worker; passed = 0; best = None } }
    {
        ShareScan {
            workers,
            worker,
            passed: 0,
            best: None,
        }
    }

    /// Whether the next candidate is its own.
    pub(crate) fn is_own(&self) -> bool
        requires { 0 < self.now.workers }
        ensures { IsTrue result ↔ (self.now.passed % self.now.workers ≡ self.now.worker) }
    {
        self.passed % self.workers == self.worker
    }

    /// Passes over the next candidate, which is another's.
    #[tactic(auto, using(crate::proofs::Least::scan_passes))]
    pub(crate) fn pass(&mut self)
        requires other { self.old.passed % self.old.workers ≢ self.old.worker }
        requires few { self.old.passed + 1 < 2 ^ 32 }
        ensures looked { (I : Draft) (v : Write → ℤ) (ws : List Write) (x : Write) → HasLooked I v ws self.old
            → HasLooked I v (ws ++ x ∷ []) self.new }
        ensures same { self.new ≡ record self.old { passed = self.old.passed + 1 } }
    {
        self.passed += 1;
    }

    /// Looks at the next candidate, which is its own.
    pub(crate) fn look(&mut self, candidate: Candidate)
        requires own { self.old.passed % self.old.workers ≡ self.old.worker }
        requires few { self.old.passed + 1 < 2 ^ 32 }
        ensures looked { (I : Draft) (v : Write → ℤ) (ws : List Write) (x : Write) → HasLooked I v ws self.old
            → candidate ≡ valued v x → IsWriteOf I x
            → HasLooked I v (ws ++ x ∷ []) self.new }
        ensures passed { self.new.passed ≡ self.old.passed + 1 }
        ensures workers { self.new.workers ≡ self.old.workers }
        ensures worker { self.new.worker ≡ self.old.worker }
    {
        let next = Found {
            place: self.passed,
            candidate,
        };
        self.best = lower(self.best, Some(next));
        self.passed += 1;
    }
}
