//! The best of a history, told from its prices: the bill of each of its timetables is that of the one before it with
//! the price of an accepted entry added.

ghost use Rattle.std.specs.Prelude.{◌≡◌, ◌<◌, ◌^◌, false, if◌then◌else◌, length, map};
ghost use Rattle.ih_tables.specs.Bills.{IsWithin, add_bills, cost, feasible};
ghost use Rattle.ih_journal.specs.{Base.Base, Best.BestIs, Best.best_with, History.is_accepted};
ghost use Rattle.ih_cellbook.specs.Legal.{IsHistoryOver};

use crate::entry_kinds::Logged;
use ih_journal::Verdict;
use ih_tables::{Bill, Instance};

// Adds the price of an entry, where it is accepted. A bill and a price are at most 10^11 each.
pub(crate) fn add_price(verdict: &Verdict, bill: &mut Bill, price: &Bill)
    requires { IsWithin (10 ^ 12) (add_bills bill.old price.now) }
    ensures { bill.new ≡ (if is_accepted verdict.now then add_bills bill.old price.now else bill.old) }
{
    if let Verdict::Accepted = *verdict {
        bill.take_in(price);
    }
}

// Adds the price of this entry, where it is accepted.
fn add_price_of<E: Logged>(entry: &E, bill: &mut Bill)
    requires { IsWithin (10 ^ 12) (add_bills bill.old (E.tried entry.now).price) }
    ensures { bill.new
        ≡ (if is_accepted (E.tried entry.now).verdict then add_bills bill.old (E.tried entry.now).price else bill.old) }
{
    add_price(&entry.verdict(), bill, &entry.price());
}

// The best so far, and one timetable more.
pub(crate) fn with_place(
    best: Option<(u32, i64)>,
    place: u32,
    now: &Bill,
    inst: &Instance,
) -> Option<(u32, i64)>
    requires { IsWithin (10 ^ 11) now.now }
    ensures { result ≡ best_with best place (feasible now.now) (cost inst.now.draft.weights now.now) }
{
    if !now.feasible() {
        return best;
    }
    let cost = now.cost(inst.weights());
    match best {
        Some((_, least)) if cost >= least => best,
        _ => Some((place, cost)),
    }
}

// The best so far, once an entry more stands. Where that isn't accepted, its timetable is the one before, which was
// looked at.
pub(crate) fn best_after(
    verdict: &Verdict,
    best: Option<(u32, i64)>,
    place: u32,
    now: &Bill,
    inst: &Instance,
) -> Option<(u32, i64)>
    requires within { IsWithin (10 ^ 11) now.now }
    requires looked_at { is_accepted verdict.now ≡ false
        → best_with best place (feasible now.now) (cost inst.now.draft.weights now.now) ≡ best }
    ensures { result ≡ best_with best place (feasible now.now) (cost inst.now.draft.weights now.now) }
{
    match *verdict {
        Verdict::Accepted => with_place(best, place, now, inst),
        _ => best,
    }
}

/// The place and the cost of the first cheapest feasible timetable of a history over a start, whose bill is `first`;
/// none exactly where no timetable of the history is feasible. It makes no timetable and no further bill.
pub fn best_in<E: Logged>(inst: &Instance, first: &Bill, entries: &[E]) -> Option<(u32, i64)>
    requires over { (b : Base) × IsHistoryOver b inst.now.draft first.now (map E.tried entries.now) }
    requires few { length entries.now < 2 ^ 32 }
    ensures { (b : Base) → IsHistoryOver b inst.now.draft first.now (map E.tried entries.now)
        → BestIs b (map E.tried entries.now) result }
{
    let mut now = *first;
    let mut best = with_place(None, 0, &now, inst);
    let mut place = 0;
    for entry in entries {
        add_price_of(entry, &mut now);
        place += 1;
        best = with_place(best, place, &now, inst);
    }
    best
}
