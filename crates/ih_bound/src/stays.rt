//! What care of a stay costs at least, at prices of workload.

ghost use Rattle.std.specs.Prelude.{◌≡◌, ◌<◌, ◌≤◌, ◌-◌, ◌*◌, ◌^◌, ℕ, true, min, IsTrue, slice_index};
ghost use Rattle.ih_tables.specs.Sizes.{nurse_count, shift_count};
ghost use Rattle.ih_plan.specs.Sums.{sum_below};
ghost use Rattle.ih_bound.specs.Tariffs.{tariff_of};
ghost use Rattle.ih_bound.specs.Paid.{care_price};
ghost use Rattle.ih_bound.specs.Stays.{asked, number_at, spared_in, SparesFew, BoundsCare};

use crate::numbers::choose_numbers;
use crate::prices::{Prices, Rates, at};
use crate::scratch::Scratch;
use ih_tables::{Instance, NurseNo, Shift};

/// What a stay asks for, by shift from its first one on and before its last.
#[derive(Clone, Copy)]
pub struct Stay<'a> {
    pub skill: &'a [u32],
    pub load: &'a [u32],
    pub first: u32,
    pub last: u32,
}

/// What stands at a place of a list, and 0 past its end.
#[inline(always)]
pub fn need_at(list: &[u32], index: u32) -> u32
    ensures { result ≡ slice_index list.now index }
{
    match list.get(index as usize) {
        Some(x) => *x,
        None => 0,
    }
}

/// At most what care by a nurse in a shift costs.
#[inline(always)]
pub fn care_price(
    inst: &Instance,
    rates: &Rates,
    prices: &Prices,
    stay: &Stay<'_>,
    nurse: NurseNo,
    shift: u32,
) -> u64
    requires nurse { nurse.0 < nurse_count inst.now.draft }
    requires shift { stay.now.first ≤ shift }
    ensures { result ≤ care_price inst.now.draft rates.now (tariff_of inst.now.draft rates.now prices.now)
        (slice_index stay.now.skill.now (shift - stay.now.first)) (slice_index stay.now.load.now (shift
        - stay.now.first)) shift nurse.0 }
{
    let j = shift - stay.first;
    let missing = need_at(stay.skill, j).saturating_sub(inst.nurse(nurse).skill_level);
    let work = prices.work_in(rates, inst.shifts(), nurse.0, shift);
    rates
        .skill
        .saturating_mul(missing as u64)
        .saturating_add(work.saturating_mul(need_at(stay.load, j) as u64))
}

const MOST_NUMBER: u64 = 1 << 50;

// The number of a shift, kept in range.
#[inline(always)]
fn number(numbers: &[u64], shift: u32) -> u64
    ensures { result ≡ min (slice_index numbers.now shift) (2 ^ 50) }
{
    at(numbers, shift as usize).min(MOST_NUMBER)
}

// By how much a shift's number is above what care by a nurse costs, where the nurse works then.
#[inline(always)]
fn spared_in(
    inst: &Instance,
    rates: &Rates,
    prices: &Prices,
    stay: &Stay<'_>,
    numbers: &[u64],
    nurse: NurseNo,
    shift: u32,
) -> u64
    requires nurse { nurse.0 < nurse_count inst.now.draft }
    requires first { stay.now.first ≤ shift }
    requires last { shift < stay.now.last }
    requires horizon { stay.now.last ≤ shift_count inst.now.draft }
    ensures least { spared_in inst.now.draft rates.now (tariff_of inst.now.draft rates.now prices.now)
        (asked stay.now.skill.now stay.now.load.now stay.now.first stay.now.last) numbers.now nurse.0 shift ≤ result }
    ensures most { result ≤ 2 ^ 50 }
{
    match inst.works(nurse, Shift(shift)) {
        None => 0,
        Some(_) => number(numbers, shift).saturating_sub(care_price(
            inst, rates, prices, stay, nurse, shift,
        )),
    }
}

// At least what a nurse is spared over the stay.
fn spared(
    inst: &Instance,
    rates: &Rates,
    prices: &Prices,
    stay: &Stay<'_>,
    numbers: &[u64],
    nurse: NurseNo,
) -> u64
    requires nurse { nurse.0 < nurse_count inst.now.draft }
    requires order { stay.now.first ≤ stay.now.last }
    requires horizon { stay.now.last ≤ shift_count inst.now.draft }
    ensures { sum_below (shift_count inst.now.draft) (spared_in inst.now.draft rates.now
        (tariff_of inst.now.draft rates.now prices.now)
        (asked stay.now.skill.now stay.now.load.now stay.now.first stay.now.last) numbers.now nurse.0) ≤ result }
{
    let mut sum = 0;
    for k in stay.first..stay.last {
        sum += spared_in(inst, rates, prices, stay, numbers, nurse, k);
    }
    sum
}

// Whether no nurse is spared more than a nurse is worth.
fn spares_few(
    inst: &Instance,
    rates: &Rates,
    prices: &Prices,
    stay: &Stay<'_>,
    numbers: &[u64],
) -> bool
    requires order { stay.now.first ≤ stay.now.last }
    requires horizon { stay.now.last ≤ shift_count inst.now.draft }
    ensures { IsTrue result → SparesFew inst.now.draft rates.now (tariff_of inst.now.draft rates.now prices.now)
        (asked stay.now.skill.now stay.now.load.now stay.now.first stay.now.last) numbers.now }
{
    for n in 0..inst.nurses() {
        if spared(inst, rates, prices, stay, numbers, NurseNo(n)) > rates.nurse {
            return false;
        }
    }
    true
}

// The numbers of the stay, summed.
fn total(inst: &Instance, stay: &Stay<'_>, numbers: &[u64]) -> u64
    requires order { stay.now.first ≤ stay.now.last }
    requires horizon { stay.now.last ≤ shift_count inst.now.draft }
    ensures { result ≡ sum_below (shift_count inst.now.draft) (number_at numbers.now
        (asked stay.now.skill.now stay.now.load.now stay.now.first stay.now.last)) }
{
    let _shifts = inst.shifts();
    let mut sum = 0;
    for k in stay.first..stay.last {
        sum += number(numbers, k);
    }
    sum
}

/// At most what whoever has the stay pays for care, in each feasible timetable.
pub fn care(
    inst: &Instance,
    rates: &Rates,
    prices: &Prices,
    stay: &Stay<'_>,
    scratch: &mut Scratch,
) -> u64
    requires order { stay.now.first ≤ stay.now.last }
    requires horizon { stay.now.last ≤ shift_count inst.now.draft }
    ensures { BoundsCare inst.now.draft rates.now (tariff_of inst.now.draft rates.now prices.now)
        (asked stay.now.skill.now stay.now.load.now stay.now.first stay.now.last) result }
{
    if rates.skill == 0 && rates.nurse == 0 && rates.load == 0 {
        return 0;
    }
    choose_numbers(inst, rates, prices, stay, scratch);
    let numbers = scratch.numbers.as_slice();
    if spares_few(inst, rates, prices, stay, numbers) {
        total(inst, stay, numbers)
    } else {
        0
    }
}
