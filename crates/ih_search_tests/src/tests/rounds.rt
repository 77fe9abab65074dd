//! Workers that take turns, each on its own replica, on the ward of two patients.

ghost use Rattle.std.specs.Prelude.{◌≡◌, ◌<◌, ◌≤◌, ◌^◌, IsTrue, Some, false, length, drop, option_map};
ghost use Rattle.ih_tables.specs.Bills.{IsWithin};
ghost use Rattle.ih_plan.specs.Expand.{IsMoveOf};
ghost use Rattle.ih_journal.specs.Attempts.{try_after, is_done_after, is_retried, last_by};
ghost use Rattle.ih_journal.specs.Tried.{tried, tries};
ghost use Rattle.ih_cellbook.specs.{Laws.HasNoneBy, Offers.next_number, Replicas.IsReplicaIn};

use crate::tests::words::are_reads;
use ih_cellbook::{Book, Buffer, News, Offer};
use ih_journal::{Entry, Options, Verdict};
use ih_plan::Move;
use ih_snapshot::Replica;
use ih_tables::{Bill, Instance};

// The last entry of a worker.
fn last_by(entries: &[Entry], worker: u32) -> Option<Entry>
    ensures { option_map tried result ≡ last_by worker (tries entries.now) }
{
    let mut last = None;
    for entry in entries {
        if entry.worker == worker {
            last = Some(*entry);
        }
    }
    last
}

// Whether the entry's move is to be tried again.
fn is_retried(options: &Options, entry: &Entry) -> bool
    ensures { result ≡ is_retried options.now (tried entry.now) }
{
    match entry.verdict {
        Verdict::Stale { .. } => entry.again < options.retries,
        _ => false,
    }
}

// Whether a worker with this last entry isn't done, and its next move has this number.
fn is_next(options: &Options, last: &Option<Entry>, attempt_no: u32) -> bool
    ensures { let before = option_map tried last.now in IsTrue result
        → (is_done_after options.now before ≡ false) × ((try_after options.now before).number ≡ attempt_no) }
{
    match last {
        None => options.moves > 0 && attempt_no == 0,
        Some(last) if is_retried(options, last) => options.moves > 0 && attempt_no == last.number,
        Some(last) => attempt_no > 0 && last.number == attempt_no - 1 && attempt_no < options.moves,
    }
}

// Whether none of the entries is by the worker.
fn none_by(entries: &[Entry], worker: u32) -> bool
    ensures { IsTrue result → HasNoneBy worker (tries entries.now) }
{
    for entry in entries {
        if entry.worker == worker {
            return false;
        }
    }
    true
}

/// Whether the offer's worker isn't done after these entries, this is its next move, and the offer has seen all entries
/// of its worker.
pub(crate) fn may_come(entries: &[Entry], options: &Options, offer: &Offer) -> bool
    requires { offer.now.seen ≤ length entries.now }
    ensures { IsTrue result → (offer.now.worker < options.now.workers)
        × (next_number options.now (tries entries.now) offer.now.worker ≡ Some offer.now.number)
        × HasNoneBy offer.now.worker (drop offer.now.seen (tries entries.now)) }
{
    offer.worker < options.workers
        && is_next(options, &last_by(entries, offer.worker), offer.number)
        && none_by(&entries[offer.seen as usize..], offer.worker)
}

/// Offers the next move of a replica's worker to the book, and answers the verdict. Answers none where it isn't the
/// next, or where the replica hasn't seen its worker's last entry.
pub(crate) fn offer(
    book: &mut Book<'_>,
    replica: &mut Replica<'_>,
    options: &Options,
    mv: &Move,
    attempt_no: u32,
) -> Option<Verdict>
    requires replica { IsReplicaIn book.old.base book.old.entries replica.old }
    requires options { options.now ≡ book.old.base.options }
    requires move_in { IsMoveOf book.old.base.instance mv.now }
    ensures base { book.new.base ≡ book.old.base }
    ensures replica { IsReplicaIn book.old.base book.new.entries replica.new }
{
    let offer = replica.offer(mv, attempt_no);
    if may_come(book.entries(), options, offer) {
        Some(book.commit(offer))
    } else {
        None
    }
}

// Whether the price has this score by a hard weight of 1000.
fn has_score(inst: &Instance, price: &Bill, score: &str) -> bool
    requires { IsWithin (10 ^ 11) price.now }
{
    match score.parse::<i64>() {
        Ok(score) => price.score(1_000, inst.weights()) == score,
        Err(_) => false,
    }
}

// Whether the offer is that of the entry, its price has this score, and these cells were read where they are told.
fn is_like(inst: &Instance, offer: &Offer, entry: &Entry, score: &str, reads: &str) -> bool
    requires { IsWithin (10 ^ 11) offer.now.price }
{
    (offer.worker, offer.number, offer.seen) == (entry.worker, entry.number, entry.seen)
        && offer.price == entry.price
        && has_score(inst, &offer.price, score)
        && (reads.is_empty() || are_reads(offer.reads.as_slice(), reads))
}

/// Whether the replica prices an entry's move as the entry says.
pub(crate) fn is_priced(
    inst: &Instance,
    book: &Book<'_>,
    replica: &mut Replica<'_>,
    entry: &Entry,
    score: &str,
    reads: &str,
) -> bool
    requires replica { IsReplicaIn book.now.base book.now.entries replica.old }
    requires move_in { IsMoveOf book.now.base.instance entry.now.mv }
    ensures { IsReplicaIn book.now.base book.now.entries replica.new }
{
    let offer = replica.price(&entry.mv, entry.number);
    is_like(inst, offer, entry, score, reads)
}

/// The replica takes over the entries past it, or the first 256 of them, as a copy has them. Answers how many entries
/// it has then seen, and how many the book has.
pub(crate) fn advance(book: &Book<'_>, replica: &mut Replica<'_>, buffer: &mut Buffer) -> (u32, u32)
    requires replica { IsReplicaIn book.now.base book.now.entries replica.old }
    ensures { IsReplicaIn book.now.base book.now.entries replica.new }
{
    // For the proof alone: the entries are legal.
    book.entries();
    book.copy_since(replica.seen(), buffer);
    replica.advance(buffer.entries());
    (replica.seen(), buffer.front())
}

/// The replica takes over what the book tells past it, with at most 256 accepted entries. Answers how many entries it
/// has then seen, and how many the book has.
pub(crate) fn catch_up(book: &Book<'_>, replica: &mut Replica<'_>, news: &mut News) -> (u32, u32)
    requires replica { IsReplicaIn book.now.base book.now.entries replica.old }
    ensures { IsReplicaIn book.now.base book.now.entries replica.new }
{
    // For the proof alone: the entries are legal.
    book.entries();
    book.news_since(replica.seen(), news);
    replica.follow(news.accepted(), news.until());
    (replica.seen(), news.front())
}
