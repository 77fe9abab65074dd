//! How prices of beds, surgeons and workload move from round to round: towards what is asked for more than there is.
//! Nothing rests on it.

use crate::demand::Demand;
use crate::numbers::put;
use crate::prices::{MOST_FOR_BED, MOST_FOR_MINUTE, Prices, Rates, at, place};
use crate::scratch::zeros;
use ih_tables::{Instance, NurseNo, RoomNo, Shift, SurgeonNo};
use ih_validate::{Resource, limit_of};
use std::alloc::{AllocError, Global};

/// By how much each price wants to move: up or down, in parts of what is asked for too much or too little.
#[derive(Clone, Copy)]
pub struct Direction {
    pub up: u64,
    pub down: u64,
}

/// How far prices move in a round: a direction times `by`, over `of`.
#[derive(Clone, Copy)]
pub struct Step {
    pub by: u64,
    pub of: u64,
}

/// The directions of the last rounds, smoothed, in lists like those of prices.
#[derive(Drop)]
pub struct Directions {
    bed: Vec<Direction>,
    surgeon: Vec<Direction>,
    work: Vec<Direction>,
}

const STILL: Direction = Direction { up: 0, down: 0 };

fn stills(alloc: Global, count: usize) -> Result<Vec<Direction>, AllocError> {
    let mut list = Vec::new(alloc);
    for _ in 0..count {
        list.push(STILL)?;
    }
    Ok(list)
}

fn still(list: &mut [Direction]) {
    for x in list.iter_mut() {
        *x = STILL;
    }
}

fn direction_at(list: &[Direction], index: usize) -> Direction {
    match list.get(index) {
        Some(x) => *x,
        None => STILL,
    }
}

// How a direction turns: how many parts of the old one it keeps, and in which unit amounts are counted.
#[derive(Clone, Copy)]
struct Turn {
    keep: u64,
    of: u64,
    unit: u64,
}

const BEDS: Turn = Turn {
    keep: 3,
    of: 4,
    unit: 1,
};

const MINUTES: Turn = Turn {
    keep: 3,
    of: 4,
    unit: 60,
};

const LOADS: Turn = Turn {
    keep: 15,
    of: 16,
    unit: 1,
};

// A part of the old size, and 16 times what an amount is above another. This isn't rounded before it is multiplied.
fn turned(old: u64, more: u64, less: u64, turn: Turn) -> u64 {
    let kept = old.saturating_mul(turn.keep) / turn.of.max(1);
    let new = more.saturating_sub(less).saturating_mul(16) / turn.unit.max(1);
    kept.saturating_add(new)
}

// Turns the direction at a place by what is asked for and what there is.
fn smooth(list: &mut [Direction], index: usize, asked: u64, supply: u64, turn: Turn) {
    if let Some(x) = list.get_mut(index) {
        let up = turned(x.up, asked, supply, turn);
        let down = turned(x.down, supply, asked, turn);
        let both = up.min(down);
        *x = Direction {
            up: up.saturating_sub(both),
            down: down.saturating_sub(both),
        };
    }
}

// The square of a direction, and 0 where the price can't move further.
fn square(direction: Direction, price: u64, low: u64, high: u64) -> u64 {
    if (price <= low && direction.down > 0) || (price >= high && direction.up > 0) {
        return 0;
    }
    let size = direction.up.max(direction.down);
    size.saturating_mul(size)
}

fn moved(price: u64, direction: Direction, step: Step, low: u64, high: u64) -> u64 {
    let up = direction.up.saturating_mul(step.by) / step.of.max(1);
    let down = direction.down.saturating_mul(step.by) / step.of.max(1);
    price
        .saturating_add(up)
        .min(high)
        .saturating_sub(down)
        .max(low)
}

// How many persons all rooms are for.
fn beds(inst: &Instance) -> u64 {
    let mut sum: u64 = 0;
    for r in 0..inst.rooms() {
        sum = sum.saturating_add(inst.room(RoomNo(r)).capacity as u64);
    }
    sum
}

/// Makes prices the same as others.
pub fn copy(from: &Prices, to: &mut Prices) {
    copy_list(from.bed.as_slice(), to.bed.as_mut_slice());
    copy_list(from.surgeon.as_slice(), to.surgeon.as_mut_slice());
    copy_list(from.theatre.as_slice(), to.theatre.as_mut_slice());
    copy_list(from.work.as_slice(), to.work.as_mut_slice());
    copy_list(from.share.as_slice(), to.share.as_mut_slice());
}

fn copy_list(from: &[u64], to: &mut [u64]) {
    for i in 0..from.len() {
        put(to, i, from[i]);
    }
}

impl Directions {
    /// Directions in which no price moves.
    pub fn new(alloc: Global, inst: &Instance) -> Result<Directions, AllocError> {
        let days = inst.days() as usize;
        Ok(Directions {
            bed: stills(alloc, days)?,
            surgeon: stills(alloc, days * inst.surgeons() as usize)?,
            work: stills(alloc, inst.shifts() as usize * inst.nurses() as usize)?,
        })
    }

    /// Drops what the last rounds left: no price moves.
    pub fn forget(&mut self) {
        still(self.bed.as_mut_slice());
        still(self.surgeon.as_mut_slice());
        still(self.work.as_mut_slice());
    }

    /// Turns those of beds and surgeons by the demand of a round.
    pub fn turn(&mut self, inst: &Instance, demand: &Demand, persons: &[u64]) {
        let beds = beds(inst);
        let amounts = &demand.amounts;
        for d in 0..inst.days() {
            let i = d as usize;
            let asked = at(amounts.bed.as_slice(), i).saturating_add(at(persons, i));
            smooth(self.bed.as_mut_slice(), i, asked, beds, BEDS);
            for s in 0..inst.surgeons() {
                let i = place(inst.days(), s, d);
                let asked = at(amounts.surgeon.as_slice(), i);
                let supply = limit_of(inst, Resource::OfSurgeon(SurgeonNo(s)), d);
                smooth(self.surgeon.as_mut_slice(), i, asked, supply, MINUTES);
            }
        }
    }

    /// Turns the directions of the prices of workload.
    pub fn turn_work(&mut self, inst: &Instance, rates: &Rates, demand: &Demand, prices: &Prices) {
        for n in 0..inst.nurses() {
            for k in 0..inst.shifts() {
                let most = match inst.works(NurseNo(n), Shift(k)) {
                    Some(most) => most as u64,
                    None => continue,
                };
                let i = place(inst.shifts(), n, k);
                let asked = at(demand.amounts.work.as_slice(), i);
                let price = at(prices.work.as_slice(), i);
                let stuck = (price == 0 && asked < most) || (price >= rates.load && asked > most);
                let supply = if stuck { asked } else { most };
                smooth(self.work.as_mut_slice(), i, asked, supply, LOADS);
            }
        }
    }

    /// The squares of those of beds and surgeons, summed.
    pub fn size(&self, inst: &Instance, prices: &Prices) -> u64 {
        let mut sum: u64 = 0;
        for d in 0..inst.days() {
            let i = d as usize;
            let bed = direction_at(self.bed.as_slice(), i);
            sum = sum.saturating_add(square(bed, at(prices.bed.as_slice(), i), 0, MOST_FOR_BED));
            for s in 0..inst.surgeons() {
                let i = place(inst.days(), s, d);
                let surgeon = direction_at(self.surgeon.as_slice(), i);
                let price = at(prices.surgeon.as_slice(), i);
                sum = sum.saturating_add(square(surgeon, price, 0, MOST_FOR_MINUTE));
            }
        }
        sum
    }

    /// The squares of the directions of workload, summed.
    pub fn size_of_work(&self) -> u64 {
        let mut sum: u64 = 0;
        for x in self.work.as_slice() {
            let size = x.up.max(x.down);
            sum = sum.saturating_add(size.saturating_mul(size));
        }
        sum
    }

    /// Moves the prices of beds and surgeons.
    pub fn step(&self, inst: &Instance, prices: &mut Prices, step: Step) {
        let by_minute = Step {
            by: step.by,
            of: step.of.saturating_mul(MINUTES.unit),
        };
        for d in 0..inst.days() {
            let i = d as usize;
            let bed = direction_at(self.bed.as_slice(), i);
            let price = moved(at(prices.bed.as_slice(), i), bed, step, 0, MOST_FOR_BED);
            put(prices.bed.as_mut_slice(), i, price);
            for s in 0..inst.surgeons() {
                let i = place(inst.days(), s, d);
                let surgeon = direction_at(self.surgeon.as_slice(), i);
                let old = at(prices.surgeon.as_slice(), i);
                let price = moved(old, surgeon, by_minute, 0, MOST_FOR_MINUTE);
                put(prices.surgeon.as_mut_slice(), i, price);
            }
        }
    }

    /// Moves the prices of workload.
    pub fn step_work(&self, rates: &Rates, prices: &mut Prices, step: Step) {
        for i in 0..self.work.len() {
            let work = direction_at(self.work.as_slice(), i);
            let price = moved(at(prices.work.as_slice(), i), work, step, 0, rates.load);
            put(prices.work.as_mut_slice(), i, price);
        }
    }
}

/// The occupants who are there, by day.
pub fn occupants_by_day(alloc: Global, inst: &Instance) -> Result<Vec<u64>, AllocError> {
    let mut list = zeros(alloc, inst.days() as usize)?;
    for o in 0..inst.occupants() {
        let stay = inst.occupant(o).length_of_stay;
        for d in 0..inst.days().min(stay) {
            let there = at(list.as_slice(), d as usize);
            put(list.as_mut_slice(), d as usize, there.saturating_add(1));
        }
    }
    Ok(list)
}
