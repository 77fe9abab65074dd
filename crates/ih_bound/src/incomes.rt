//! What all beds, minutes and workloads that there are come to at prices.

ghost use Rattle.std.specs.Prelude.{◌≡◌, ◌<◌, ◌≤◌, ◌+◌, ◌-◌, ◌*◌, ℕ};
ghost use Rattle.ih_tables.specs.Sizes.{surgeon_count, theatre_count, nurse_count, shift_count};
ghost use Rattle.ih_plan.specs.Sums.{sum_below};
ghost use Rattle.ih_plan.specs.Costs.{surgeon_maximum, theatre_availability};
ghost use Rattle.ih_bound.specs.Tariffs.{AtLeast, tariff_of, all_beds, all_shares, load_limit, income, bed_income, surgeon_income};
ghost use Rattle.ih_bound.specs.Tariffs.{theatre_income, work_income};

use crate::prices::{Prices, Rates};
use ih_tables::{Instance, NurseNo, RoomNo, Shift, SurgeonNo, TheatreNo};
use ih_validate::{Resource, limit_of};

// At least the sum of what each number below the count gives at least.
fn total<F: Fn(u32) -> u64>(count: u32, each: F) -> u64
    requires { (i : ℕ) → i < count → F.pre each i }
    ensures { (f : ℕ → ℕ) → ((i x : ℕ) → i < count → F.post each i x → AtLeast (f i) x)
        → AtLeast (sum_below count f) result }
{
    let mut sum: u64 = 0;
    for i in 0..count {
        sum = sum.saturating_add(each(i));
    }
    sum
}

/// How many persons all rooms are for.
pub fn all_beds(inst: &Instance) -> u64
    ensures { result ≡ all_beds inst.now.draft }
{
    let mut sum = 0;
    for r in 0..inst.rooms() {
        sum += inst.room(RoomNo(r)).capacity as u64;
    }
    sum
}

fn bed_income(inst: &Instance, rates: &Rates, prices: &Prices) -> u64
    ensures { AtLeast (bed_income inst.now.draft (tariff_of inst.now.draft rates.now prices.now)) result }
{
    let beds = all_beds(inst);
    total(inst.days(), |d| prices.bed_on(d).saturating_mul(beds))
}

// Of one surgeon.
fn income_of_surgeon(inst: &Instance, rates: &Rates, prices: &Prices, surgeon: u32) -> u64
    requires { surgeon < surgeon_count inst.now.draft }
    ensures { AtLeast (sum_below inst.now.draft.days (λ d.
        (tariff_of inst.now.draft rates.now prices.now).surgeon surgeon d * surgeon_maximum inst.now.draft surgeon d))
        result }
{
    let days = inst.days();
    total(days, |d| {
        let minutes = limit_of(inst, Resource::OfSurgeon(SurgeonNo(surgeon)), d);
        prices.surgeon_on(days, surgeon, d).saturating_mul(minutes)
    })
}

fn surgeon_income(inst: &Instance, rates: &Rates, prices: &Prices) -> u64
    ensures { AtLeast (surgeon_income inst.now.draft (tariff_of inst.now.draft rates.now prices.now)) result }
{
    total(
        inst.surgeons(),
        |s| income_of_surgeon(inst, rates, prices, s),
    )
}

/// The shares of all patients in a theatre on a day.
pub fn all_shares(inst: &Instance, rates: &Rates, prices: &Prices, theatre: u32, day: u32) -> u64
    requires theatre { theatre < theatre_count inst.now.draft }
    requires day { day < inst.now.draft.days }
    ensures { result ≡ all_shares inst.now.draft (tariff_of inst.now.draft rates.now prices.now) theatre day }
{
    let mut sum = 0;
    for p in 0..inst.patients() {
        sum += prices.share_on(inst, theatre, day, p);
    }
    sum
}

// At least what minutes come to at a price, and shares, above what it is worth to open a theatre.
fn above_opening(price: u64, minutes: u64, shares: u64, opening: u64) -> u64
    ensures { AtLeast (price * minutes + shares - opening) result }
{
    let all = price.saturating_mul(minutes).saturating_add(shares);
    if all == u64::MAX {
        return all;
    }
    all - all.min(opening)
}

// Of one theatre, above what it is worth to open it.
fn income_of_theatre(inst: &Instance, rates: &Rates, prices: &Prices, theatre: u32) -> u64
    requires { theatre < theatre_count inst.now.draft }
    ensures { AtLeast (sum_below inst.now.draft.days
        (λ d. (tariff_of inst.now.draft rates.now prices.now).theatre theatre d
        * theatre_availability inst.now.draft theatre d
        + all_shares inst.now.draft (tariff_of inst.now.draft rates.now prices.now) theatre d
        - rates.now.theatre)) result }
{
    let days = inst.days();
    total(days, |d| {
        let minutes = limit_of(inst, Resource::OfTheatre(TheatreNo(theatre)), d);
        let shares = all_shares(inst, rates, prices, theatre, d);
        above_opening(
            prices.theatre_on(days, theatre, d),
            minutes,
            shares,
            rates.theatre,
        )
    })
}

fn theatre_income(inst: &Instance, rates: &Rates, prices: &Prices) -> u64
    ensures { AtLeast (theatre_income inst.now.draft rates.now (tariff_of inst.now.draft rates.now prices.now)) result }
{
    total(
        inst.theatres(),
        |t| income_of_theatre(inst, rates, prices, t),
    )
}

fn load_limit(inst: &Instance, nurse: u32, shift: u32) -> u64
    requires nurse { nurse < nurse_count inst.now.draft }
    requires shift { shift < shift_count inst.now.draft }
    ensures { result ≡ load_limit inst.now.draft nurse shift }
{
    match inst.works(NurseNo(nurse), Shift(shift)) {
        None => 0,
        Some(most) => most as u64,
    }
}

// Of one nurse.
fn income_of_nurse(inst: &Instance, rates: &Rates, prices: &Prices, nurse: u32) -> u64
    requires { nurse < nurse_count inst.now.draft }
    ensures { AtLeast (sum_below (shift_count inst.now.draft) (λ k.
        (tariff_of inst.now.draft rates.now prices.now).work nurse k * load_limit inst.now.draft nurse k)) result }
{
    let shifts = inst.shifts();
    total(shifts, |k| {
        prices
            .work_in(rates, shifts, nurse, k)
            .saturating_mul(load_limit(inst, nurse, k))
    })
}

fn work_income(inst: &Instance, rates: &Rates, prices: &Prices) -> u64
    ensures { AtLeast (work_income inst.now.draft (tariff_of inst.now.draft rates.now prices.now)) result }
{
    total(inst.nurses(), |n| income_of_nurse(inst, rates, prices, n))
}

/// At least what they come to, or the greatest number.
pub fn income(inst: &Instance, rates: &Rates, prices: &Prices) -> u64
    ensures { AtLeast (income inst.now.draft rates.now (tariff_of inst.now.draft rates.now prices.now)) result }
{
    bed_income(inst, rates, prices)
        .saturating_add(surgeon_income(inst, rates, prices))
        .saturating_add(theatre_income(inst, rates, prices))
        .saturating_add(work_income(inst, rates, prices))
}
