//! What is asked for at prices, by the cheapest choice of each person: by it prices move. Nothing rests on it.

ghost use Rattle.std.specs.Prelude.{◌≡◌, ◌<◌, ◌≤◌};
ghost use Rattle.ih_tables.specs.Sizes.{patient_count, shift_count};

use crate::numbers::put;
use crate::prices::{Prices, Rates, at, opening, place};
use crate::scratch::{Scratch, zeros};
use crate::stays::{Stay, care_price, need_at};
use ih_plan::end_from;
use ih_tables::{Instance, NurseNo, PatientNo, Shift, TheatreNo};
use ih_validate::{Resource, limit_of};
use std::alloc::{AllocError, Global};

/// Amounts of what is scarce, in lists like those of its prices.
pub type Amounts = Prices;

/// What is asked for.
#[derive(Drop)]
pub struct Demand {
    pub amounts: Amounts,
    /// By patient, one more than the place of its theatre and day, or 0.
    pub chosen: Vec<u64>,
    /// What it is worth that patients wait and are left out, and what theatres cost at what it is worth to open them.
    pub spent: Spent,
}

/// What choices are worth, in parts.
#[derive(Clone, Copy)]
pub struct Spent {
    pub delay: u64,
    pub left_out: u64,
    pub theatres: u64,
}

// An average that goes on: a 64th of it is of the last number.
fn drawn(mean: u64, last: u64) -> u64 {
    mean.saturating_sub(mean / 64).saturating_add(last / 64)
}

impl Spent {
    /// Nothing.
    pub fn none() -> Spent {
        Spent {
            delay: 0,
            left_out: 0,
            theatres: 0,
        }
    }

    /// These, with a share of others.
    pub fn drawn_to(&self, other: &Spent) -> Spent {
        Spent {
            delay: drawn(self.delay, other.delay),
            left_out: drawn(self.left_out, other.left_out),
            theatres: drawn(self.theatres, other.theatres),
        }
    }

    fn add(&mut self, other: &Spent) {
        self.delay = self.delay.saturating_add(other.delay);
        self.left_out = self.left_out.saturating_add(other.left_out);
        self.theatres = self.theatres.saturating_add(other.theatres);
    }
}

/// Makes all numbers 0.
pub fn clear(list: &mut [u64]) {
    for x in list.iter_mut() {
        *x = 0;
    }
}

/// Adds to an entry of a list, where it has one there.
#[inline(always)]
pub fn add(list: &mut [u64], index: usize, by: u64) {
    if let Some(x) = list.get_mut(index) {
        *x = x.saturating_add(by);
    }
}

fn add_list(list: &mut [u64], other: &[u64]) {
    for i in 0..other.len() {
        add(list, i, other[i]);
    }
}

// The theatre in which surgery costs least on a day, of those that are available for so long.
fn cheapest_theatre(
    inst: &Instance,
    prices: &Prices,
    patient: PatientNo,
    minutes: u32,
    day: u32,
) -> u32
    requires { day < inst.now.draft.days }
{
    let mut least = u64::MAX;
    let mut best = 0;
    for t in 0..inst.theatres() {
        if limit_of(inst, Resource::OfTheatre(TheatreNo(t)), day) >= minutes as u64 {
            let cost = prices.cost_in(inst, patient, minutes, t, day);
            if cost < least {
                least = cost;
                best = t;
            }
        }
    }
    best
}

impl Demand {
    /// Nothing is asked for.
    pub fn new(alloc: Global, inst: &Instance) -> Result<Demand, AllocError> {
        Ok(Demand {
            amounts: Amounts::new(alloc, inst, 0)?,
            chosen: zeros(alloc, inst.patients() as usize)?,
            spent: Spent::none(),
        })
    }

    /// Takes out all that was asked for.
    pub fn clear(&mut self) {
        let amounts = &mut self.amounts;
        clear(amounts.bed.as_mut_slice());
        clear(amounts.surgeon.as_mut_slice());
        clear(amounts.theatre.as_mut_slice());
        clear(amounts.work.as_mut_slice());
        clear(self.chosen.as_mut_slice());
        self.spent = Spent::none();
    }

    /// Adds what another asks for.
    pub fn add_all(&mut self, other: &Demand) {
        let amounts = &mut self.amounts;
        let others = &other.amounts;
        add_list(amounts.bed.as_mut_slice(), others.bed.as_slice());
        add_list(amounts.surgeon.as_mut_slice(), others.surgeon.as_slice());
        add_list(amounts.theatre.as_mut_slice(), others.theatre.as_slice());
        add_list(amounts.work.as_mut_slice(), others.work.as_slice());
        add_list(self.chosen.as_mut_slice(), other.chosen.as_slice());
        self.spent.add(&other.spent);
    }

    // Lets a nurse serve the shift that it holds, and what else of the stay it may at no more than its number.
    fn serve(
        &mut self,
        inst: &Instance,
        rates: &Rates,
        prices: &Prices,
        stay: &Stay<'_>,
        held: u32,
        scratch: &mut Scratch,
    )
        requires horizon { stay.now.last ≤ shift_count inst.now.draft }
    {
        let n = at(scratch.holders.as_slice(), held as usize);
        for k in stay.first..stay.last {
            if n >= inst.nurses() as u64 || at(scratch.served.as_slice(), k as usize) == 1 {
                continue;
            }
            let nurse = NurseNo(n as u32);
            if inst.works(nurse, Shift(k)).is_none() {
                continue;
            }
            let price = care_price(inst, rates, prices, stay, nurse, k);
            if k == held || price <= at(scratch.numbers.as_slice(), k as usize) {
                put(scratch.served.as_mut_slice(), k as usize, 1);
                let load = need_at(stay.load, k - stay.first);
                add(
                    self.amounts.work.as_mut_slice(),
                    place(inst.shifts(), nurse.0, k),
                    load as u64,
                );
            }
        }
    }

    /// Adds the workload of a stay, by the nurses who hold its numbers, which were chosen last.
    pub fn add_care(
        &mut self,
        inst: &Instance,
        rates: &Rates,
        prices: &Prices,
        stay: &Stay<'_>,
        scratch: &mut Scratch,
    )
        requires horizon { stay.now.last ≤ shift_count inst.now.draft }
    {
        clear(scratch.served.as_mut_slice());
        for i in stay.first..stay.last {
            let held = stay.last - 1 - (i - stay.first);
            if at(scratch.served.as_slice(), held as usize) == 0 {
                self.serve(inst, rates, prices, stay, held, scratch);
            }
        }
    }

    /// Adds the bed and the minutes of a patient who is admitted on a day.
    pub fn add_stay(
        &mut self,
        inst: &Instance,
        rates: &Rates,
        prices: &Prices,
        patient: PatientNo,
        day: u32,
    )
        requires patient { patient.0 < patient_count inst.now.draft }
        requires day { day < inst.now.draft.days }
    {
        let q = inst.patient(patient);
        for d in day..end_from(inst, day, q.length_of_stay) {
            add(self.amounts.bed.as_mut_slice(), d as usize, 1);
        }
        let days = inst.days();
        let minutes = q.surgery_duration;
        let t = cheapest_theatre(inst, prices, patient, minutes, day);
        let chosen = place(days, t, day) as u64;
        put(
            self.chosen.as_mut_slice(),
            patient.0 as usize,
            chosen.saturating_add(1),
        );
        add(
            self.amounts.surgeon.as_mut_slice(),
            place(days, q.surgeon_id.0, day),
            minutes as u64,
        );
        add(
            self.amounts.theatre.as_mut_slice(),
            place(days, t, day),
            minutes as u64,
        );
        let wait = day.saturating_sub(q.surgery_release_day) as u64;
        let opening = opening(inst, rates, t, day);
        self.spent.add(&Spent {
            delay: rates.delay.saturating_mul(wait),
            left_out: 0,
            theatres: opening.saturating_mul(minutes as u64),
        });
    }

    /// Adds that a patient is left out.
    pub fn add_left_out(&mut self, rates: &Rates) {
        self.spent.left_out = self.spent.left_out.saturating_add(rates.left_out);
    }
}
