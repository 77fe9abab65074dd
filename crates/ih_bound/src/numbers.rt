//! A choice of numbers of a stay's shifts, which rise in turn as far as nurses may be spared. Nothing rests on it but
//! how good they are.

ghost use Rattle.std.specs.Prelude.{◌≡◌, ◌<◌, ◌≤◌};
ghost use Rattle.ih_tables.specs.Sizes.{shift_count};

use crate::prices::{Prices, Rates, at};
use crate::scratch::Scratch;
use crate::stays::{Stay, care_price};
use ih_tables::{Instance, NurseNo, Shift};

// In how many passes numbers rise at most. Most are at their ends after a few.
const PASSES: u32 = 12;

// Where the costs of a shift of the stay begin.
#[inline(always)]
fn row(inst: &Instance, stay: &Stay<'_>, shift: u32) -> usize {
    inst.nurses() as usize * shift.saturating_sub(stay.first) as usize
}

/// Writes an entry of a list, where it has one there.
#[inline(always)]
pub fn put(list: &mut [u64], index: usize, value: u64) {
    if let Some(y) = list.get_mut(index) {
        *y = value;
    }
}

#[inline(always)]
fn lower(list: &mut [u64], index: usize, by: u64) {
    if let Some(y) = list.get_mut(index) {
        *y = y.saturating_sub(by);
    }
}

// What care in a shift costs by each nurse who works then, and the least of it; each nurse's slack is what a nurse is
// worth.
fn begin_shift(
    inst: &Instance,
    rates: &Rates,
    prices: &Prices,
    stay: &Stay<'_>,
    shift: u32,
    scratch: &mut Scratch,
)
    requires first { stay.now.first ≤ shift }
    requires shift { shift < shift_count inst.now.draft }
{
    let mut least = u64::MAX;
    let mut i = row(inst, stay, shift);
    for n in inst.working(Shift(shift)) {
        if n.0 < inst.nurses() {
            let cost = care_price(inst, rates, prices, stay, *n, shift);
            put(scratch.costs.as_mut_slice(), i, cost);
            put(scratch.slack.as_mut_slice(), n.0 as usize, rates.nurse);
            least = least.min(cost);
        }
        i = i.wrapping_add(1);
    }
    put(scratch.numbers.as_mut_slice(), shift as usize, least);
}

// How far a shift's number may rise.
#[derive(Clone, Copy)]
struct Rise {
    // Where the first nurse's slack ends.
    end: u64,
    // Which nurse that is.
    holder: u32,
    // The next greater cost of a nurse, from where on that nurse's slack is taken too.
    level: u64,
}

fn rise_from(old: u64, working: &[NurseNo], begin: usize, scratch: &Scratch) -> Rise {
    let mut rise = Rise {
        end: u64::MAX,
        holder: u32::MAX,
        level: u64::MAX,
    };
    let mut i = begin;
    for n in working {
        let cost = at(scratch.costs.as_slice(), i);
        if cost > old {
            rise.level = rise.level.min(cost);
        }
        let end = cost
            .max(old)
            .saturating_add(at(scratch.slack.as_slice(), n.0 as usize));
        if end < rise.end {
            rise.end = end;
            rise.holder = n.0;
        }
        i = i.wrapping_add(1);
    }
    rise
}

// Takes from the slack of each nurse what the nurse is spared as a shift's number rises.
fn take_slack(working: &[NurseNo], begin: usize, old: u64, new: u64, scratch: &mut Scratch) {
    let mut i = begin;
    for n in working {
        let cost = at(scratch.costs.as_slice(), i).max(old);
        lower(
            scratch.slack.as_mut_slice(),
            n.0 as usize,
            new.saturating_sub(cost),
        );
        i = i.wrapping_add(1);
    }
}

// Raises the number of a shift to its end, or only to the next cost of a nurse; tells whether it isn't at its end yet.
fn raise(inst: &Instance, stay: &Stay<'_>, shift: u32, to_end: bool, scratch: &mut Scratch) -> bool
    requires { shift < shift_count inst.now.draft }
{
    let working = inst.working(Shift(shift));
    let old = at(scratch.numbers.as_slice(), shift as usize);
    let begin = row(inst, stay, shift);
    let rise = rise_from(old, working, begin, scratch);
    put(
        scratch.holders.as_mut_slice(),
        shift as usize,
        rise.holder as u64,
    );
    let new = if to_end {
        rise.end
    } else {
        rise.end.min(rise.level)
    };
    if new > old {
        take_slack(working, begin, old, new, scratch);
        put(scratch.numbers.as_mut_slice(), shift as usize, new);
    }
    new > old && new < rise.end
}

// Raises each number once, those of shifts with the fewest nurses first; tells whether one isn't at its end yet.
fn raise_all(inst: &Instance, stay: &Stay<'_>, to_end: bool, scratch: &mut Scratch) -> bool
    requires { stay.now.last ≤ shift_count inst.now.draft }
{
    let mut more = false;
    for i in 0..scratch.order.len() {
        let k = at(scratch.order.as_slice(), i);
        if k >= stay.first as u64 && k < stay.last as u64 {
            let goes_on = raise(inst, stay, k as u32, to_end, scratch);
            more = more || goes_on;
        }
    }
    more
}

/// Chooses them: each begins at the least cost of its shift. In turn they rise from cost to cost, those of shifts with
/// the fewest nurses first, since few can serve there, until each is at its end. In the last pass all rise to it.
pub fn choose_numbers(
    inst: &Instance,
    rates: &Rates,
    prices: &Prices,
    stay: &Stay<'_>,
    scratch: &mut Scratch,
)
    requires order { stay.now.first ≤ stay.now.last }
    requires horizon { stay.now.last ≤ shift_count inst.now.draft }
{
    for k in stay.first..stay.last {
        begin_shift(inst, rates, prices, stay, k, scratch);
    }
    for pass in 0..PASSES {
        if !raise_all(inst, stay, pass + 1 == PASSES, scratch) {
            return;
        }
    }
}
