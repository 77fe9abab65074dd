//! One worker of a journal: its next attempt, and a replica that stands for the entries that the worker had seen.

ghost use Rattle.std.specs.Prelude.{◌≡◌, ◌<◌, ◌^◌, [], IfOk};
ghost use Rattle.ih_plan.specs.Timetable.{IsPlanOf};
ghost use Rattle.ih_journal.specs.{Attempts.is_retried, Base.Base, Settings.IsLawful, Tried.tried};
ghost use Rattle.ih_cellbook.specs.{Keeping.base_with, Replicas.IsReplicaOf};
ghost use Rattle.ih_replay.specs.Keeping.{IsReplayed, IsWorkerIn, gone_on};

use ih_journal::{Entry, Options, Verdict};
use ih_moves::Stream;
use ih_plan::{Move, Plan};
use ih_snapshot::Replica;
use ih_tables::Instance;
use std::alloc::{AllocError, Global};

/// What is known of a worker beside the history.
#[derive(Drop)]
pub struct ReplayWorker<'a> {
    /// It stands for the entries that the worker had seen at its last one, or for more after a refusal.
    pub replica: Replica<'a>,
    /// The draws that follow `draw`.
    pub stream: Stream,
    /// The move of the next attempt.
    pub draw: Move,
    /// The number of the next attempt among the worker's draws.
    pub number: u32,
    /// How often that draw was tried before.
    pub again: u32,
    /// The place behind the worker's own last entry, or 0 where it has none.
    pub own_end: u32,
}

// Whether the entry's move is to be tried again.
fn is_retried(options: &Options, entry: &Entry) -> bool
    ensures { result ≡ is_retried options.now (tried entry.now) }
{
    matches!(entry.verdict, Verdict::Stale { .. }) && entry.again < options.retries
}

impl<'a> ReplayWorker<'a> {
    /// A worker that has made no attempt, by its replica.
    pub fn new(
        inst: &Instance,
        options: &Options,
        worker: u32,
        replica: Replica<'a>,
    ) -> ReplayWorker<'a>
        ensures { (b : Base) → b.instance ≡ inst.now.draft → b.options ≡ options.now
            → IsReplicaOf b [] replica.entry → replica.entry.worker ≡ worker → IsWorkerIn b [] worker result }
    {
        let mut stream = Stream::new(options.seed, worker);
        let draw = stream.draw(inst);
        ReplayWorker {
            replica,
            stream,
            draw,
            number: 0,
            again: 0,
            own_end: 0,
        }
    }

    /// Goes on to the attempt that follows an entry of the worker at the place before `own_end`.
    pub fn go_on(&mut self, inst: &Instance, options: &Options, entry: &Entry, own_end: u32)
        requires number { self.old.number < 2 ^ 31 }
        requires again { self.old.again < 2 ^ 31 }
        ensures { self.new ≡ gone_on inst.now.draft options.now self.old (tried entry.now) own_end }
    {
        if is_retried(options, entry) {
            self.again += 1;
        } else {
            self.number += 1;
            self.again = 0;
            self.draw = self.stream.draw(inst);
        }
        self.own_end = own_end;
    }
}

/// All workers of a search, by number.
pub fn new_workers<'a>(
    alloc: Global,
    inst: &'a Instance,
    start: &Plan,
    options: &Options,
    freeze: u32,
) -> Result<Vec<ReplayWorker<'a>>, AllocError>
    requires start { IsPlanOf inst.now.draft start.now }
    requires lawful { IsLawful options.now }
    ensures { IfOk result (λ xs. IsReplayed (base_with inst.entry.now.draft start.now options.now freeze) [] xs.items) }
{
    let mut workers = Vec::with_capacity(alloc, options.workers as usize)?;
    for worker in 0..options.workers {
        let replica = Replica::new(alloc, inst, start, options, freeze, worker)?;
        workers.push(ReplayWorker::new(inst, options, worker, replica))?;
    }
    Ok(workers)
}
