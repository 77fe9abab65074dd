//! Rising prices: each round tries some, and the next goes by what was asked for too much. Nothing rests on it.

use crate::dealing::BoundWorker;
use crate::demand::{Demand, Spent};
use crate::moving::{Directions, Step, copy, occupants_by_day};
use crate::prices::{Prices, Rates, count_of_shares};
use crate::sharing::{Wanted, begin};
use ih_tables::Instance;
use std::alloc::{AllocError, Global};

/// How prices are to rise.
#[derive(Clone, Copy)]
pub struct Effort {
    /// How often prices are tried.
    pub rounds: u32,
    /// How many rounds begin without prices of workload.
    pub plain: u32,
    /// The value that is hoped for, in parts.
    pub target: u64,
    /// Whether any value above 0 will do.
    pub stop_above_0: bool,
}

const WHOLE: u64 = 1 << 20;

const PARTS: u64 = 4096;
// Rounds without a better value after which steps get shorter.
const PATIENCE: u32 = 12;
// No shorter steps are tried.
const SHORTEST: u64 = 128;

// How long steps are, as a share of WHOLE, and since when no better value was found.
#[derive(Clone, Copy)]
struct Pace {
    length: u64,
    idle: u32,
}

/// Prices on their way up.
#[derive(Drop)]
pub struct Climb {
    pub prices: Prices,
    /// Those of the best value so far.
    pub best_prices: Prices,
    best: u64,
    plain: u32,
    pace: Pace,
    demand: Demand,
    directions: Directions,
    wanted: Wanted,
    occupants: Vec<u64>,
    /// What the choices of the last rounds are worth on average.
    pub spent: Spent,
}

impl Climb {
    /// At the foot: the prices to begin with, and no round yet.
    pub fn new(
        alloc: Global,
        inst: &Instance,
        rates: &Rates,
        plain: u32,
    ) -> Result<Climb, AllocError> {
        let shares = count_of_shares(inst, rates);
        let mut prices = Prices::new(alloc, inst, shares)?;
        begin(inst, rates, &mut prices);
        Ok(Climb {
            prices,
            best_prices: Prices::new(alloc, inst, shares)?,
            best: 0,
            plain,
            pace: Pace {
                length: WHOLE,
                idle: 0,
            },
            demand: Demand::new(alloc, inst)?,
            directions: Directions::new(alloc, inst)?,
            wanted: Wanted::new(alloc, inst, shares)?,
            occupants: occupants_by_day(alloc, inst)?,
            spent: Spent::none(),
        })
    }

    // Adds up what all workers' persons ask for.
    fn gather(&mut self, workers: &[BoundWorker], round: u32) {
        self.demand.clear();
        for w in workers {
            self.demand.add_all(&w.demand);
        }
        let now = self.demand.spent;
        self.spent = if round == 0 {
            now
        } else {
            self.spent.drawn_to(&now)
        };
    }

    // Keeps the prices of a value that is the best so far.
    fn keep(&mut self, value: u64) {
        self.pace.idle = self.pace.idle.saturating_add(1);
        if value > self.best {
            if value > self.best.saturating_add(PARTS / 2) {
                self.pace.idle = 1;
            }
            self.best = value;
            copy(&self.prices, &mut self.best_prices);
        }
    }

    // Goes back to the best prices, with steps of that length. What was asked for at others is forgotten.
    fn go_back(&mut self, step_length: u64) {
        self.pace = Pace {
            length: step_length,
            idle: 0,
        };
        copy(&self.best_prices, &mut self.prices);
        self.forget();
    }

    // Drops what the last rounds asked for.
    fn forget(&mut self) {
        self.directions.forget();
        self.wanted.forget();
    }

    // Turns the directions by what is asked for; tells how far they go in all.
    fn turn(&mut self, inst: &Instance, rates: &Rates, with_work: bool) -> u64 {
        self.directions
            .turn(inst, &self.demand, self.occupants.as_slice());
        self.wanted.turn(inst, &self.demand, &self.prices);
        let size = self
            .directions
            .size(inst, &self.prices)
            .saturating_add(self.wanted.size(inst, rates, &self.prices))
            .saturating_mul(256);
        if !with_work {
            return size;
        }
        self.directions
            .turn_work(inst, rates, &self.demand, &self.prices);
        size.saturating_add(self.directions.size_of_work() / 3)
    }

    // Moves the prices by what is asked for; tells whether any direction was left.
    fn step(&mut self, inst: &Instance, rates: &Rates, with_work: bool, gap: u64) -> bool {
        let mut size = self.turn(inst, rates, with_work);
        if size == 0 {
            // Where the last rounds point to nothing, the demand of this one may.
            self.forget();
            size = self.turn(inst, rates, with_work);
        }
        if size == 0 {
            return false;
        }
        let reach = gap.saturating_mul(self.pace.length);
        let step = Step {
            by: reach >> 8,
            of: size,
        };
        self.directions.step(inst, &mut self.prices, step);
        self.wanted.step(inst, rates, &mut self.prices, step);
        if with_work {
            let step = Step {
                by: reach >> 11,
                of: size.saturating_mul(3),
            };
            self.directions.step_work(rates, &mut self.prices, step);
        }
        true
    }

    /// Goes on from a round with its value; tells whether another round may bring more.
    pub fn go_on(
        &mut self,
        inst: &Instance,
        rates: &Rates,
        effort: &Effort,
        round: u32,
        value: u64,
        workers: &[BoundWorker],
    ) -> bool {
        self.gather(workers, round);
        self.keep(value);
        if effort.stop_above_0 && value > 0 {
            return false;
        }
        if round == self.plain && round > 0 {
            self.go_back(WHOLE / 2);
            return true;
        }
        if self.pace.idle > PATIENCE {
            self.go_back(self.pace.length.saturating_mul(71) / 100);
            return self.pace.length >= SHORTEST;
        }
        let with_work = round >= self.plain && rates.load > 0;
        let gap = effort.target.saturating_sub(value).max(10 * PARTS);
        if self.step(inst, rates, with_work, gap) {
            return true;
        }
        self.plain = round.saturating_add(1);
        !with_work && rates.load > 0
    }
}
