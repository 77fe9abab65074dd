//! What is dear at prices at which what all persons need is worth more than all that there is. It is a hint: nothing
//! rests on it.

ghost use Rattle.std.specs.Prelude.{◌≤◌, IfOk, length};

use crate::incomes::all_beds;
use crate::numbers::put;
use crate::prices::{Prices, at, place};
use crate::scratch::zeros;
use ih_tables::{Instance, SurgeonNo, TheatreNo};
use ih_validate::{Resource, limit_of};
use std::alloc::{AllocError, Global};

// No more are told.
const MOST_TOLD: u32 = 10;

// Less than this share of what the dearest comes to isn't told.
const SHARE_TOLD: u64 = 16;

// A day goes with the dearest beside it where it comes to this share of that.
const SHARE_JOINED: u64 = 4;

/// What may be scarce on a day.
#[derive(Clone, Copy, Debug, PartialEq, Eq)]
pub enum Thing {
    /// The beds of all rooms.
    Beds,
    /// A surgeon's minutes.
    OfSurgeon(SurgeonNo),
    /// A theatre's minutes.
    OfTheatre(TheatreNo),
}

/// What is dear, on days in a row.
#[derive(Clone, Copy, Debug, PartialEq, Eq)]
pub struct Dear {
    pub thing: Thing,
    /// The first of the days.
    pub first: u32,
    /// The last of them.
    pub last: u32,
}

/// Prices at which what all persons need is worth more than all that there is. Nothing is promised of them.
#[derive(Drop)]
pub struct Scarcity {
    pub(crate) prices: Prices,
}

// How many beds or minutes there are of a thing on a day.
fn supply_of(inst: &Instance, thing: Thing, day: u32) -> u64 {
    match thing {
        Thing::Beds => all_beds(inst),
        Thing::OfSurgeon(s) if s.0 < inst.surgeons() => limit_of(inst, Resource::OfSurgeon(s), day),
        Thing::OfTheatre(t) if t.0 < inst.theatres() => limit_of(inst, Resource::OfTheatre(t), day),
        _ => 0,
    }
}

impl Prices {
    /// The price of a bed or a minute of a thing on a day.
    pub fn price_of(&self, inst: &Instance, thing: Thing, day: u32) -> u64 {
        match thing {
            Thing::Beds => self.bed_on(day),
            Thing::OfSurgeon(s) => self.surgeon_on(inst.days(), s.0, day),
            Thing::OfTheatre(t) => self.theatre_on(inst.days(), t.0, day),
        }
    }

    /// Makes it another.
    pub fn set_price(&mut self, inst: &Instance, thing: Thing, day: u32, price: u64) {
        match thing {
            Thing::Beds => put(self.bed.as_mut_slice(), day as usize, price),
            Thing::OfSurgeon(s) => put(
                self.surgeon.as_mut_slice(),
                place(inst.days(), s.0, day),
                price,
            ),
            Thing::OfTheatre(t) => put(
                self.theatre.as_mut_slice(),
                place(inst.days(), t.0, day),
                price,
            ),
        }
    }
}

/// What all things come to, in a row of days for each: beds, each surgeon, each theatre.
#[derive(Drop)]
pub struct Worths {
    surgeons: u32,
    rows: u32,
    days: u32,
    list: Vec<u64>,
}

/// A place among them.
#[derive(Clone, Copy)]
pub struct Spot {
    pub row: u32,
    pub day: u32,
    pub worth: u64,
}

impl Worths {
    /// All are 0.
    pub fn new(alloc: Global, inst: &Instance) -> Result<Worths, AllocError> {
        let surgeons = inst.surgeons();
        let rows = surgeons.saturating_add(inst.theatres()).saturating_add(1);
        Ok(Worths {
            surgeons,
            rows,
            days: inst.days(),
            list: zeros(alloc, (rows as usize).saturating_mul(inst.days() as usize))?,
        })
    }

    /// What a row is of.
    pub fn thing(&self, row: u32) -> Thing {
        if row == 0 {
            Thing::Beds
        } else if row <= self.surgeons {
            Thing::OfSurgeon(SurgeonNo(row - 1))
        } else {
            Thing::OfTheatre(TheatreNo((row - 1).saturating_sub(self.surgeons)))
        }
    }

    fn get(&self, row: u32, day: u32) -> u64 {
        at(self.list.as_slice(), place(self.days, row, day))
    }

    /// Writes an entry.
    pub fn set(&mut self, row: u32, day: u32, worth: u64) {
        put(self.list.as_mut_slice(), place(self.days, row, day), worth);
    }

    /// Writes what all things come to at prices.
    pub fn fill(&mut self, inst: &Instance, prices: &Prices) {
        for row in 0..self.rows {
            let thing = self.thing(row);
            for day in 0..self.days {
                let price = prices.price_of(inst, thing, day);
                let worth = price.saturating_mul(supply_of(inst, thing, day));
                self.set(row, day, worth);
            }
        }
    }

    // The first of the dearest.
    fn dearest(&self) -> Spot {
        let mut best = Spot {
            row: 0,
            day: 0,
            worth: 0,
        };
        for row in 0..self.rows {
            for day in 0..self.days {
                let worth = self.get(row, day);
                if worth > best.worth {
                    best = Spot { row, day, worth };
                }
            }
        }
        best
    }

    /// The first of the cheapest that aren't free, or one that is where all are.
    pub fn cheapest(&self) -> Spot {
        let mut best = Spot {
            row: 0,
            day: 0,
            worth: 0,
        };
        for row in 0..self.rows {
            for day in 0..self.days {
                let worth = self.get(row, day);
                if worth > 0 && (best.worth == 0 || worth < best.worth) {
                    best = Spot { row, day, worth };
                }
            }
        }
        best
    }

    // Takes out a day of a thing, with the days beside it that come to a share of it.
    fn take(&mut self, spot: Spot) -> Dear {
        let least = (spot.worth / SHARE_JOINED).max(1);
        let mut first = spot.day;
        for day in (0..spot.day).rev() {
            if self.get(spot.row, day) < least {
                break;
            }
            first = day;
        }
        let mut last = spot.day;
        for day in spot.day.saturating_add(1)..self.days {
            if self.get(spot.row, day) < least {
                break;
            }
            last = day;
        }
        for day in first..last.saturating_add(1) {
            self.set(spot.row, day, 0);
        }
        Dear {
            thing: self.thing(spot.row),
            first,
            last,
        }
    }
}

/// What is dear at the prices, the dearest first, by what all of it comes to on a day; ten at most.
pub fn dearest(alloc: Global, inst: &Instance, scarcity: &Scarcity) -> Result<Vec<Dear>, AllocError>
    ensures few { IfOk result (λ v. length v.items ≤ 10) }
{
    let mut worths = Worths::new(alloc, inst)?;
    worths.fill(inst, &scarcity.prices);
    let least = (worths.dearest().worth / SHARE_TOLD).max(1);
    let mut list = Vec::new(alloc);
    for told in 0..MOST_TOLD {
        let spot = worths.dearest();
        if spot.worth < least {
            break;
        }
        list.push(worths.take(spot))?;
    }
    Ok(list)
}
