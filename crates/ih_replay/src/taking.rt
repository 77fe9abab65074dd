//! How a line is judged: it is read, checked against its worker's next attempt, priced on that worker's replica, and
//! added to the book.

ghost use Rattle.std.specs.Prelude.{◌≡◌, ◌<◌, ◌≤◌, ◌≢◌, ℕ, ◌++◌, ◌∷◌, [], true, IsTrue, IsFalse, IfOk, IfErr, OnOk};
ghost use Rattle.std.specs.Prelude.{OnErr, length};
ghost use Rattle.std.specs.List.{AllByRecursion};
ghost use Rattle.ih_plan.specs.Expand.{IsMoveOf};
ghost use Rattle.ih_journal.specs.{Attempts.is_done, Grammar.IsLineOf, Legal.AreLegal, Legal.IsLegal, Texts.line_text};
ghost use Rattle.ih_journal.specs.{Tried.tried};
ghost use Rattle.ih_cellbook.specs.{Replicas.IsReplicaIn, Offers.HasSeenOwn, Keeping.IsBase};
ghost use Rattle.ih_replay.specs.Keeping.{IsReplayed, IsWorkerIn};
ghost use Rattle.ih_replay.specs.Refusals.{FitsIn, IsFirstOf, IsGoing, Passes, in_order, of_attempt, of_entry};
ghost use Rattle.ih_replay.specs.Refusals.{of_offer, of_place};

use crate::workers::ReplayWorker;
use ih_cellbook::Book;
use ih_journal::{Entry, Options, Reason, Verdict, parse_line};
use ih_plan::Move;
use ih_snapshot::Replica;
use ih_tables::{Bill, Instance};

/// Whether every worker has made all its attempts.
pub(crate) fn is_full(book: &Book<'_>, options: &Options, workers: &[ReplayWorker<'_>]) -> bool
    requires options { options.now ≡ book.now.base.options }
    requires kept { IsReplayed book.now.base book.now.entries workers.now }
    ensures full { IsTrue result → (w : ℕ) → w < book.now.base.options.workers
        → is_done book.now.base.options book.now.entries w ≡ true }
    ensures going { IsFalse result → (w : ℕ) × IsGoing book.now.base book.now.entries w }
{
    for worker in workers {
        if worker.number < options.moves {
            return false;
        }
    }
    true
}

// The entry that the line is of, at the next place.
fn read(inst: &Instance, options: &Options, book: &Book<'_>, line: &[u8]) -> Result<Entry, Reason>
    requires instance { inst.now.draft ≡ book.now.base.instance }
    requires options { options.now ≡ book.now.base.options }
    ensures ok { IfOk result
        (λ e. IsLineOf book.now.base.instance book.now.base.options (length book.now.entries) e line.now) }
    ensures only { IfOk result
        (λ e. (k : ℕ) (f : Entry) → IsLineOf book.now.base.instance book.now.base.options k f line.now
        → (k ≡ length book.now.entries) × (f ≡ e)) }
    ensures err { IfErr result (IsFirstOf (Passes book.now.base book.now.entries line.now) of_place) }
{
    match parse_line(inst, options, line) {
        Err(_) => Err(Reason::Grammar),
        Ok((place, entry)) if place as usize == book.entries().len() => Ok(entry),
        Ok(_) => Err(Reason::Place),
    }
}

// For the proof alone: `==` of two moves, prices or verdicts, with what its answer tells as clauses.
fn is_same_move(first: &Move, second: &Move) -> bool
    ensures yes { IsTrue result → first.now ≡ second.now }
    ensures no { IsFalse result → first.now ≢ second.now }
{
    first == second
}

fn is_same_price(first: &Bill, second: &Bill) -> bool
    ensures yes { IsTrue result → first.now ≡ second.now }
    ensures no { IsFalse result → first.now ≢ second.now }
{
    first == second
}

fn is_same_verdict(first: &Verdict, second: &Verdict) -> bool
    ensures yes { IsTrue result → first.now ≡ second.now }
    ensures no { IsFalse result → first.now ≢ second.now }
{
    first == second
}

// Whether the worker can have seen as many entries as its entry says, its own last one among them.
fn may_have_seen(book: &Book<'_>, worker: &ReplayWorker<'_>, entry: &Entry) -> bool
    requires { IsWorkerIn book.now.base book.now.entries entry.now.worker worker.now }
    ensures yes { IsTrue result → (entry.now.seen ≤ length book.now.entries)
        × HasSeenOwn book.now.entries entry.now.worker entry.now.seen }
    ensures no { IsFalse result → (entry.now.seen ≤ length book.now.entries)
        × HasSeenOwn book.now.entries entry.now.worker entry.now.seen → ⊥ }
{
    if entry.seen < worker.own_end {
        return false;
    }
    entry.seen as usize <= book.entries().len()
}

// Whether the entry is of its worker's next attempt.
fn check(
    options: &Options,
    book: &Book<'_>,
    worker: &ReplayWorker<'_>,
    entry: &Entry,
) -> Result<(), Reason>
    requires options { options.now ≡ book.now.base.options }
    requires legal { AreLegal book.now.base 1 book.now.entries }
    requires known { entry.now.worker < book.now.base.options.workers }
    requires kept { IsWorkerIn book.now.base book.now.entries entry.now.worker worker.now }
    ensures ok { OnOk result
        (AllByRecursion (FitsIn book.now.base book.now.entries (length book.now.entries) entry.now) of_attempt) }
    ensures err { IfErr result
        (IsFirstOf (FitsIn book.now.base book.now.entries (length book.now.entries) entry.now) of_attempt) }
{
    if worker.number >= options.moves {
        Err(Reason::Worker)
    } else if entry.number != worker.number {
        Err(Reason::Number)
    } else if entry.again != worker.again {
        Err(Reason::Try)
    } else if !may_have_seen(book, worker, entry) {
        Err(Reason::Seen)
    } else if !is_same_move(&entry.mv, &worker.draw) {
        Err(Reason::Move)
    } else {
        Ok(())
    }
}

// Has the replica stand for no more than the first `seen` entries. It stands for more only where a line was refused.
fn go_back(book: &Book<'_>, replica: &mut Replica<'_>, seen: u32)
    requires { IsReplicaIn book.now.base book.now.entries replica.old }
    ensures replica { IsReplicaIn book.now.base book.now.entries replica.new }
    ensures seen { replica.new.seen ≤ seen }
    ensures worker { replica.new.worker ≡ replica.old.worker }
{
    if seen < replica.seen() {
        replica.restart();
    }
}

// Brings the replica to the first `seen` entries of the book.
fn reach(book: &Book<'_>, replica: &mut Replica<'_>, seen: u32)
    requires replica { IsReplicaIn book.now.base book.now.entries replica.old }
    requires seen { seen ≤ length book.now.entries }
    ensures replica { IsReplicaIn book.now.base book.now.entries replica.new }
    ensures seen { replica.new.seen ≡ seen }
    ensures worker { replica.new.worker ≡ replica.old.worker }
{
    go_back(book, replica, seen);
    replica.advance(&book.entries()[replica.seen() as usize..seen as usize]);
}

// Adds the entry of the worker's next move, where its price and its verdict are those that follow.
fn commit(book: &mut Book<'_>, replica: &mut Replica<'_>, entry: &Entry) -> Result<(), Reason>
    requires replica { IsReplicaIn book.old.base book.old.entries replica.old }
    requires seen { replica.old.seen ≡ entry.now.seen }
    requires own { replica.old.worker ≡ entry.now.worker }
    requires fits { AllByRecursion
        (FitsIn book.old.base book.old.entries (length book.old.entries) entry.now) of_attempt }
    requires move_in { IsMoveOf book.old.base.instance entry.now.mv }
    ensures base { book.new.base ≡ book.old.base }
    ensures replica { IsReplicaIn book.new.base book.new.entries replica.new }
    ensures own { replica.new.worker ≡ replica.old.worker }
    ensures ok { OnOk result
        (AllByRecursion (FitsIn book.old.base book.old.entries (length book.old.entries) entry.now) of_offer) }
    ensures added { OnOk result (book.new.entries ≡ book.old.entries ++ tried entry.now ∷ []) }
    ensures err { IfErr result
        (IsFirstOf (FitsIn book.old.base book.old.entries (length book.old.entries) entry.now) of_offer) }
    ensures same { OnErr result (book.new.entries ≡ book.old.entries) }
{
    let offer = replica.offer(&entry.mv, entry.number);
    if !is_same_price(&offer.price, &entry.price) {
        Err(Reason::Price)
    } else if !is_same_verdict(&book.judge(offer), &entry.verdict) {
        Err(Reason::Verdict)
    } else {
        book.commit(offer);
        Ok(())
    }
}

// Adds the entry where it may come next.
fn take_entry(
    inst: &Instance,
    options: &Options,
    book: &mut Book<'_>,
    worker: &mut ReplayWorker<'_>,
    entry: &Entry,
) -> Result<(), Reason>
    requires instance { inst.now.draft ≡ book.old.base.instance }
    requires options { options.now ≡ book.old.base.options }
    requires base { IsBase book.old.base }
    requires legal { AreLegal book.old.base 1 book.old.entries }
    requires known { entry.now.worker < book.old.base.options.workers }
    requires kept { IsWorkerIn book.old.base book.old.entries entry.now.worker worker.old }
    requires move_in { IsMoveOf book.old.base.instance entry.now.mv }
    ensures base { book.new.base ≡ book.old.base }
    ensures kept { IsWorkerIn book.new.base book.new.entries entry.now.worker worker.new }
    ensures legal { OnOk result (IsLegal book.old.base 1 book.old.entries (tried entry.now)) }
    ensures added { OnOk result (book.new.entries ≡ book.old.entries ++ tried entry.now ∷ []) }
    ensures err { IfErr result
        (IsFirstOf (FitsIn book.old.base book.old.entries (length book.old.entries) entry.now) of_entry) }
    ensures same { OnErr result (book.new.entries ≡ book.old.entries) }
{
    check(options, book, worker, entry)?;
    reach(book, &mut worker.replica, entry.seen);
    commit(book, &mut worker.replica, entry)?;
    let own_end = book.entries().len() as u32;
    worker.go_on(inst, options, entry, own_end);
    Ok(())
}

/// Adds the entry that the line is of, where it is the legal next one.
pub(crate) fn take_line(
    inst: &Instance,
    options: &Options,
    book: &mut Book<'_>,
    workers: &mut [ReplayWorker<'_>],
    line: &[u8],
) -> Result<(), Reason>
    requires instance { inst.now.draft ≡ book.old.base.instance }
    requires options { options.now ≡ book.old.base.options }
    requires kept { IsReplayed book.old.base book.old.entries workers.old }
    ensures base { book.new.base ≡ book.old.base }
    ensures kept { IsReplayed book.new.base book.new.entries workers.new }
    ensures taken { OnOk result ((e : Entry) × IsLegal book.old.base 1 book.old.entries (tried e)
        × (line.now ≡ line_text book.old.base.options (length book.old.entries) e)
        × (book.new.entries ≡ book.old.entries ++ tried e ∷ [])) }
    ensures err { IfErr result (IsFirstOf (Passes book.old.base book.old.entries line.now) in_order) }
    ensures same { OnErr result (book.new.entries ≡ book.old.entries) }
{
    if is_full(book, options, workers) {
        return Err(Reason::Extra);
    }
    let entry = read(inst, options, book, line)?;
    if entry.worker >= options.workers {
        return Err(Reason::Worker);
    }
    take_entry(
        inst,
        options,
        book,
        &mut workers[entry.worker as usize],
        &entry,
    )
}
