//! How the prices of theatres and the shares in their openings move from round to round. On a day together they come to
//! what it is worth to open the theatre, and to more only where its minutes are too few. Nothing rests on it.

ghost use Rattle.std.specs.Prelude.{◌<◌};
ghost use Rattle.ih_tables.specs.Sizes.{theatre_count};

use crate::demand::{Demand, add, clear};
use crate::moving::Step;
use crate::numbers::put;
use crate::prices::{MOST_FOR_MINUTE, MOST_FOR_SHARE, Prices, Rates, at, opening, place};
use crate::scratch::zeros;
use ih_tables::{Instance, TheatreNo};
use ih_validate::{Resource, limit_of};
use std::alloc::{AllocError, Global};

// What is asked for once in a round counts so much.
const ONE: u64 = 16;
// Minutes are counted by hours, as a patient's beds by days.
const HOUR: u64 = 60;
// In how many passes a theatre's prices and shares fall. Most are low enough after a few.
const PASSES: u32 = 6;
// So little above what it is worth to open a theatre counts as nothing.
const LITTLE: u64 = 64;

/// What was asked for in the last rounds: the last counts most.
#[derive(Drop)]
pub struct Wanted {
    // Hours, by theatre and day.
    hours: Vec<u64>,
    // Whether a patient asked for a theatre on a day, in the places of shares.
    shares: Vec<u64>,
    // What asking in all rounds would come to.
    rounds: u64,
    // The places of shares that aren't 0 or were asked for, row by row. The others needn't be looked at.
    live: Vec<u64>,
    // Where the rows of live places begin, and where the last ends.
    begins: Vec<u64>,
}

// A theatre on a day, with its minutes and where its live places stand.
#[derive(Clone, Copy)]
struct Row {
    place: usize,
    minutes: u64,
    first: usize,
    end: usize,
}

// What a row comes to, and by how much less if its shares fell by 1, and its price by as much for an hour's use.
#[derive(Clone, Copy)]
struct Level {
    sum: u64,
    slope: u64,
}

fn squared(x: u64) -> u64 {
    x.saturating_mul(x)
}

fn difference(x: u64, y: u64) -> u64 {
    x.saturating_sub(y).max(y.saturating_sub(x))
}

fn moved_by(amount: u64, step: Step) -> u64 {
    amount.saturating_mul(step.by) / step.of.max(1)
}

/// Prices to begin with: only theatres have one, by what it is worth to open them.
pub fn begin(inst: &Instance, rates: &Rates, prices: &mut Prices) {
    for t in 0..inst.theatres() {
        for d in 0..inst.days() {
            let price = opening(inst, rates, t, d);
            put(
                prices.theatre.as_mut_slice(),
                place(inst.days(), t, d),
                price,
            );
        }
    }
}

impl Wanted {
    /// Nothing was asked for. So many shares have a place.
    pub fn new(alloc: Global, inst: &Instance, shares: usize) -> Result<Wanted, AllocError> {
        let days = inst.days() as usize;
        Ok(Wanted {
            hours: zeros(alloc, days * inst.theatres() as usize)?,
            shares: zeros(alloc, shares)?,
            rounds: 0,
            live: zeros(alloc, shares)?,
            begins: zeros(alloc, days * inst.theatres() as usize + 1)?,
        })
    }

    /// Drops what the last rounds asked for.
    pub fn forget(&mut self) {
        clear(self.hours.as_mut_slice());
        clear(self.shares.as_mut_slice());
        self.rounds = 0;
    }

    // Lets what was asked for before count less: three quarters of it.
    fn fade(&mut self) {
        for x in self.hours.as_mut_slice().iter_mut() {
            *x = x.saturating_mul(3) / 4;
        }
        let rows = self.begins.len().saturating_sub(1);
        for i in 0..at(self.begins.as_slice(), rows) as usize {
            let place = self.live_at(i);
            let old = at(self.shares.as_slice(), place);
            put(self.shares.as_mut_slice(), place, old.saturating_mul(3) / 4);
        }
        self.rounds = self.rounds.saturating_mul(3) / 4;
    }

    // Finds the live places of all rows.
    fn find_live(&mut self, inst: &Instance, prices: &Prices) {
        let mut count: usize = 0;
        let mut i: usize = 0;
        for row in 0..self.begins.len() {
            put(self.begins.as_mut_slice(), row, count as u64);
            let end = i
                .saturating_add(inst.patients() as usize)
                .min(self.shares.len());
            for place in i..end {
                if at(self.shares.as_slice(), place) > 0 || at(prices.share.as_slice(), place) > 0 {
                    put(self.live.as_mut_slice(), count, place as u64);
                    count = count.saturating_add(1);
                }
            }
            i = end;
        }
    }

    /// Adds what a round asks for. What was asked for before counts less.
    pub fn turn(&mut self, inst: &Instance, demand: &Demand, prices: &Prices) {
        self.fade();
        self.rounds = self.rounds.saturating_add(ONE);
        let asked = demand.amounts.theatre.as_slice();
        for i in 0..asked.len() {
            let hours = asked[i].saturating_mul(ONE) / HOUR;
            add(self.hours.as_mut_slice(), i, hours);
        }
        let chosen = demand.chosen.as_slice();
        for p in 0..chosen.len() {
            let after = chosen[p] as usize;
            if after > 0 {
                let row = (after - 1).saturating_mul(inst.patients() as usize);
                add(self.shares.as_mut_slice(), row.saturating_add(p), ONE);
            }
        }
        self.find_live(inst, prices);
    }

    fn row_of(&self, inst: &Instance, theatre: u32, day: u32) -> Row
        requires { theatre < theatre_count inst.now.draft }
    {
        let row = place(inst.days(), theatre, day);
        Row {
            place: row,
            minutes: limit_of(inst, Resource::OfTheatre(TheatreNo(theatre)), day),
            first: at(self.begins.as_slice(), row) as usize,
            end: at(self.begins.as_slice(), row.saturating_add(1)) as usize,
        }
    }

    // The place that stands so far in the list of live places.
    #[inline(always)]
    fn live_at(&self, index: usize) -> usize {
        at(self.live.as_slice(), index) as usize
    }

    fn level_of(&self, prices: &Prices, row: Row) -> Level {
        let price = at(prices.theatre.as_slice(), row.place);
        let mut sum = price.saturating_mul(row.minutes);
        let mut slope = if price > 0 {
            squared(row.minutes) / (HOUR * HOUR)
        } else {
            0
        };
        for i in row.first..row.end {
            let share = at(prices.share.as_slice(), self.live_at(i));
            if share > 0 {
                sum = sum.saturating_add(share);
                slope = slope.saturating_add(1);
            }
        }
        Level { sum, slope }
    }

    // Raises the price and the shares of a row by what was asked for.
    fn raise(&self, prices: &mut Prices, row: Row, step: Step) {
        let by_minute = Step {
            by: step.by,
            of: step.of.saturating_mul(HOUR),
        };
        let more = moved_by(at(self.hours.as_slice(), row.place), by_minute);
        let price = at(prices.theatre.as_slice(), row.place).saturating_add(more);
        put(
            prices.theatre.as_mut_slice(),
            row.place,
            price.min(MOST_FOR_MINUTE),
        );
        for i in row.first..row.end {
            let place = self.live_at(i);
            let more = moved_by(at(self.shares.as_slice(), place), step);
            let share = at(prices.share.as_slice(), place).saturating_add(more);
            put(
                prices.share.as_mut_slice(),
                place,
                share.min(MOST_FOR_SHARE),
            );
        }
    }

    // Lets the shares of a row fall by so much, and its price as its hours go.
    fn lower(&self, prices: &mut Prices, row: Row, by: u64) {
        let less = by.saturating_mul(row.minutes).div_ceil(HOUR * HOUR);
        let price = at(prices.theatre.as_slice(), row.place).saturating_sub(less);
        put(prices.theatre.as_mut_slice(), row.place, price);
        for i in row.first..row.end {
            let place = self.live_at(i);
            let share = at(prices.share.as_slice(), place).saturating_sub(by);
            put(prices.share.as_mut_slice(), place, share);
        }
    }

    // Lets a row fall to what it is worth to open the theatre, and by no more than if all that there is had been asked
    // for.
    fn lower_to(&self, prices: &mut Prices, row: Row, worth: u64, most: u64) {
        let mut left = most;
        for pass in 0..PASSES {
            let now = self.level_of(prices, row);
            if now.sum <= worth || left == 0 {
                return;
            }
            let by = ((now.sum - worth) / now.slope.max(1)).max(1).min(left);
            self.lower(prices, row, by);
            left = left.saturating_sub(by);
        }
    }

    // The squares of what a row is asked for too much or too little, summed. A theatre that isn't worth to be opened has
    // none too little.
    fn size_of(&self, rates: &Rates, prices: &Prices, row: Row) -> u64 {
        let asked = at(self.hours.as_slice(), row.place);
        let supply = self.rounds.saturating_mul(row.minutes) / HOUR;
        let worth = rates.theatre.saturating_add(LITTLE);
        let mut sum = 0;
        if asked > supply || self.level_of(prices, row).sum > worth {
            sum = squared(difference(asked, supply));
        }
        for i in row.first..row.end {
            let share = at(self.shares.as_slice(), self.live_at(i));
            sum = sum.saturating_add(squared(share) / 4);
        }
        sum
    }

    /// The same of all theatres and days.
    pub fn size(&self, inst: &Instance, rates: &Rates, prices: &Prices) -> u64 {
        let mut sum: u64 = 0;
        for t in 0..inst.theatres() {
            for d in 0..inst.days() {
                let row = self.row_of(inst, t, d);
                sum = sum.saturating_add(self.size_of(rates, prices, row));
            }
        }
        sum
    }

    /// Moves the prices of theatres, and the shares.
    pub fn step(&self, inst: &Instance, rates: &Rates, prices: &mut Prices, step: Step) {
        let most = moved_by(self.rounds, step);
        for t in 0..inst.theatres() {
            for d in 0..inst.days() {
                let row = self.row_of(inst, t, d);
                self.raise(prices, row, step);
                self.lower_to(prices, row, rates.theatre, most);
            }
        }
    }
}
