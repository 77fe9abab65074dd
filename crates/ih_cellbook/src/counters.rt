//! Verdicts by counters, and which counters rise.

ghost use Rattle.std.specs.Prelude.{◌≡◌, true, ℕ, ◌+◌, ◌<◌, ◌^◌, length, slice_index, if◌then◌else◌, All, IfSome};
ghost use Rattle.ih_tables.specs.Bills.{IsWithin};
ghost use Rattle.ih_plan.specs.Cells.{cell_count};
ghost use Rattle.ih_journal.specs.{Settings.IsLawful, History.is_accepted};
ghost use Rattle.ih_cellbook.specs.Counters.{first_differing, is_compared, stale_by, times_read, verdict_by_counters};

use crate::entry_kinds::Offers;
use crate::reads::Reads;
use ih_footprint::Numbering;
use ih_journal::{Options, Verdict};
use ih_tables::Instance;

// The first cell read whose counter isn't the version read, with that version.
fn first_differing(counters: &[u32], reads: &[(u32, u32)]) -> Option<(u32, u32)>
    requires { All (λ r. r.0 < length counters.now) reads.now }
    ensures first { result ≡ first_differing (slice_index counters.now) reads.now }
    ensures inside { IfSome result (λ r. r.0 < length counters.now) }
{
    for &(cell, version) in reads {
        if counters[cell as usize] != version {
            return Some((cell, version));
        }
    }
    None
}

// Stale by that cell, or accepted where there is none.
fn compare(inst: &Instance, counters: &[u32], reads: &[(u32, u32)]) -> Verdict
    requires count { length counters.now ≡ cell_count inst.now.draft }
    requires reads { All (λ r. r.0 < length counters.now) reads.now }
    ensures { result ≡ stale_by inst.now.draft (slice_index counters.now)
        (first_differing (slice_index counters.now) reads.now) }
{
    match first_differing(counters, reads) {
        Some((cell, version)) => Verdict::Stale {
            cell: Numbering::of(inst).cell(cell),
            at_seen: version,
            at_place: counters[cell as usize],
        },
        None => Verdict::Accepted,
    }
}

/// The verdict on an offer.
#[tactic(auto, unfolding(crate::specs::Counters::verdict_by_counters))]
pub(crate) fn judge_by_counters<O: Offers>(
    inst: &Instance,
    options: &Options,
    counters: &[u32],
    offer: &O,
) -> Verdict
    requires lawful { IsLawful options.now }
    requires number { (O.offered offer.now).number < options.now.moves }
    requires price { IsWithin (10 ^ 11) (O.offered offer.now).price }
    requires count { length counters.now ≡ cell_count inst.now.draft }
    requires reads { is_compared inst.now.draft options.now (O.offered offer.now).frozen (O.offered offer.now).number
        (O.offered offer.now).price ≡ true
        → All (λ r. r.0 < length counters.now) (O.offered offer.now).reads.pairs }
    ensures { result ≡ verdict_by_counters inst.now.draft options.now (slice_index counters.now) (O.offered offer.now) }
{
    if offer.frozen() {
        Verdict::Frozen
    } else if inst.score_of(options.hard, &offer.price()) > options.theta(offer.number()) {
        Verdict::Declined
    } else {
        compare(inst, counters, offer.reads().as_slice())
    }
}

/// Each counter rises by how often its cell was read.
pub fn raise_read(counters: &mut [u32], reads: &[(u32, u32)])
    requires reads { All (λ r. r.0 < length counters.old) reads.now }
    requires small { (n : ℕ) → slice_index counters.old n + length reads.now < 2 ^ 32 }
    ensures len { length counters.new ≡ length counters.old }
    ensures each { (n : ℕ) → slice_index counters.new n ≡ slice_index counters.old n + times_read n reads.now }
{
    for &(cell, _) in reads {
        counters[cell as usize] += 1;
    }
}

/// Where the attempt was accepted, each counter rises by how often its cell was read: once, since a footprint lists no
/// cell twice.
pub(crate) fn raise_where(verdict: &Verdict, counters: &mut Vec<u32>, reads: &Reads)
    requires reads { is_accepted verdict.now ≡ true → All (λ r. r.0 < length counters.old.items) reads.now.pairs }
    requires small { is_accepted verdict.now ≡ true → (n : ℕ)
        → slice_index counters.old.items n + length reads.now.pairs < 2 ^ 32 }
    ensures len { length counters.new.items ≡ length counters.old.items }
    ensures each { (n : ℕ) → slice_index counters.new.items n
        ≡ slice_index counters.old.items n + (if is_accepted verdict.now then times_read n reads.now.pairs else 0) }
{
    if let Verdict::Accepted = *verdict {
        raise_read(counters.as_mut_slice(), reads.as_slice());
    }
}
