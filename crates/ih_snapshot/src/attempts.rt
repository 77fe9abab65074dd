//! Attempts on a replica: how an accepted one is made.

ghost use Rattle.std.specs.Prelude.{◌≡◌, ℕ, ◌+◌, ◌<◌, ◌^◌, IsTrue, length, slice_index};
ghost use Rattle.ih_tables.specs.{Bills.IsWithin, Sizes.sizes_of};
ghost use Rattle.ih_plan.specs.Series.{AreMoves, after_all, all_touch};
ghost use Rattle.ih_plan.specs.{Cells.cell_at, Cells.cell_count, Sums.bit};
ghost use Rattle.ih_journal.specs.Settings.{IsLawful, theta};
ghost use Rattle.ih_cellbook.specs.Counters.{is_compared};
ghost use Rattle.ih_snapshot.specs.Keeping.{IsOwnRead};

use crate::versions::raise;
use ih_cellbook::{Attempted, Logged, Offers, raise_read};
use ih_costs::Ledgers;
use ih_footprint::CellList;
use ih_journal::Options;
use ih_tables::{Bill, Instance};

// What an attempt of this number may cost at most: nothing, past the last of them.
fn most_at(options: &Options, attempt_no: u32) -> i64
    requires { IsLawful options.now }
    ensures { result ≡ theta options.now attempt_no }
{
    if attempt_no < options.moves {
        options.theta(attempt_no)
    } else {
        0
    }
}

/// Whether the verdict on an attempt of this number rests on what its price was read from: it isn't frozen, nor too
/// dear.
pub(crate) fn is_compared(
    inst: &Instance,
    options: &Options,
    frozen: bool,
    attempt_no: u32,
    price: &Bill,
) -> bool
    requires lawful { IsLawful options.now }
    requires within { IsWithin (10 ^ 11) price.now }
    ensures { result ≡ is_compared inst.now.draft options.now frozen attempt_no price.now }
{
    !frozen && inst.score_of(options.hard, price) <= most_at(options, attempt_no)
}

// Whether the entry is that of the offer, and the offer read any cells.
fn is_own<E: Logged>(offer: &E::Offer, entry: &E) -> bool
    ensures { IsTrue result → (0 < length (E.Offer.offered offer.now).reads.pairs)
        × ((E.tried entry.now).seen ≡ (E.Offer.offered offer.now).seen)
        × ((E.tried entry.now).moves ≡ (E.Offer.offered offer.now).moves) }
{
    !offer.reads().as_slice().is_empty()
        && entry.worker() == offer.worker()
        && entry.seen() == offer.seen()
        && entry.attempt().is_same(&offer.attempt())
}

/// Makes an accepted entry's moves, and raises the version of each cell that they touch. Where the entry is that of the
/// last offer, these are the cells that the offer read, if any: none of them has changed since.
pub(crate) fn play<E: Logged>(
    ledgers: &mut Ledgers<'_>,
    versions: &mut [u32],
    foot: &mut CellList,
    last: &E::Offer,
    entry: &E,
)
    requires move_in { AreMoves ledgers.old.instance (E.tried entry.now).moves }
    requires sizes { foot.old.sizes ≡ sizes_of ledgers.old.instance }
    requires count { length versions.old ≡ cell_count ledgers.old.instance }
    requires small { (n : ℕ) → slice_index versions.old n + cell_count ledgers.old.instance < 2 ^ 32 }
    requires own { IsOwnRead ledgers.old.instance ledgers.old.plan (E.Offer.offered last.now) (E.tried entry.now) }
    ensures made { ledgers.new
        ≡ record ledgers.old { plan = after_all ledgers.old.instance ledgers.old.plan (E.tried entry.now).moves } }
    ensures len { length versions.new ≡ length versions.old }
    ensures each { (n : ℕ) → n < cell_count ledgers.old.instance
        → slice_index versions.new n
        ≡ slice_index versions.old n + bit
        (all_touch ledgers.old.instance ledgers.old.plan (E.tried entry.now).moves
        (cell_at ledgers.old.instance n)) }
    ensures sizes { foot.new.sizes ≡ foot.old.sizes }
{
    if is_own(last, entry) {
        raise_read(versions, last.reads().as_slice());
        ledgers.play_all(entry.attempt().as_slice());
    } else {
        ledgers.play_all_noting(entry.attempt().as_slice(), foot);
        raise(versions, foot.cells());
    }
}
