//! Prices of what is scarce, and what a unit of each cost is worth. All are in parts of a unit of cost: 4,096 make one.

ghost use Rattle.std.specs.Prelude.{◌≡◌, ◌+◌, ◌*◌, ◌^◌, ◌≤◌, ◌<◌, min, slice_index, []};
ghost use Rattle.ih_tables.specs.Sizes.{patient_count, theatre_count};
ghost use Rattle.ih_bound.specs.Tariffs.{tariff_of, weight};
ghost use Rattle.ih_bound.specs.Paid.{theatre_paid};

use crate::scratch::zeros;
use ih_tables::{Instance, PatientNo, TheatreNo};
use ih_validate::{Resource, limit_of};
use std::alloc::{AllocError, Global};

/// What a unit of each cost is worth: its weight in parts, or 0 where only feasibility is asked for.
#[derive(Clone, Copy, Debug)]
pub struct Rates {
    /// A level of missing skill, of one person in one shift.
    pub skill: u64,
    /// A nurse whom a person sees.
    pub nurse: u64,
    /// A unit of a nurse's workload above the maximum of a shift.
    pub load: u64,
    /// A theatre that is open on a day.
    pub theatre: u64,
    /// A day from release to admission.
    pub delay: u64,
    /// An optional patient who is left out.
    pub left_out: u64,
}

/// Prices, as lists that may be of any length: what a list doesn't have is free.
#[derive(Drop)]
pub struct Prices {
    /// Of a bed, by day.
    pub bed: Vec<u64>,
    /// Of a surgeon's minute, by surgeon and day: surgeon 0's days first.
    pub surgeon: Vec<u64>,
    /// Of a theatre's minute, by theatre and day.
    pub theatre: Vec<u64>,
    /// Of a unit of workload, by nurse and shift.
    pub work: Vec<u64>,
    /// What a patient pays besides minutes, by theatre, day and patient.
    pub share: Vec<u64>,
}

/// What stands at a place of a list, and 0 past its end.
#[inline(always)]
pub fn at(list: &[u64], index: usize) -> u64
    ensures { result ≡ slice_index list.now index }
{
    match list.get(index) {
        Some(x) => *x,
        None => 0,
    }
}

/// No bed is dearer.
pub const MOST_FOR_BED: u64 = 1 << 36;
/// No minute is dearer.
pub const MOST_FOR_MINUTE: u64 = 1 << 29;
/// No share is greater.
pub const MOST_FOR_SHARE: u64 = 1 << 29;
// No more shares have a place, so that lists stay below 16 MB.
const MOST_SHARES: usize = 1 << 21;

// The weight of a cost.
fn weight(inst: &Instance, index: usize) -> u64
    requires { index < 8 }
    ensures { result ≡ weight inst.now.draft index }
{
    inst.weights().w[index].unsigned_abs()
}

// The weight of a cost, in parts.
fn rate(inst: &Instance, index: usize) -> u64
    requires { index < 8 }
    ensures value { result ≡ 4096 * weight inst.now.draft index }
    ensures bound { result ≤ 409600000 }
{
    4096 * weight(inst, index)
}

impl Rates {
    ghost use Rattle.ih_bound.specs.Tariffs.{AreWeights};

    /// The weights of the instance.
    pub fn weights(inst: &Instance) -> Rates
        ensures { AreWeights inst.now.draft result }
    {
        Rates {
            skill: rate(inst, 1),
            nurse: rate(inst, 2),
            load: rate(inst, 3),
            theatre: rate(inst, 4),
            delay: rate(inst, 6),
            left_out: rate(inst, 7),
        }
    }

    /// All are 0.
    pub fn none() -> Rates
        ensures { (result.skill ≡ 0) × (result.nurse ≡ 0) × (result.load ≡ 0) × (result.theatre ≡ 0)
            × (result.delay ≡ 0) × (result.left_out ≡ 0) }
    {
        Rates {
            skill: 0,
            nurse: 0,
            load: 0,
            theatre: 0,
            delay: 0,
            left_out: 0,
        }
    }
}

impl Prices {
    ghost use Rattle.ih_bound.specs.Tariffs.{price_in};

    /// Nothing has a price. So many shares have a place.
    pub fn new(alloc: Global, inst: &Instance, shares: usize) -> Result<Prices, AllocError> {
        let days = inst.days() as usize;
        let shifts = inst.shifts() as usize;
        Ok(Prices {
            bed: zeros(alloc, days)?,
            surgeon: zeros(alloc, days * inst.surgeons() as usize)?,
            theatre: zeros(alloc, days * inst.theatres() as usize)?,
            work: zeros(alloc, shifts * inst.nurses() as usize)?,
            share: zeros(alloc, shares)?,
        })
    }

    /// Nothing has a price, and no list has an entry. It takes no memory.
    pub fn free(alloc: Global) -> Prices
        ensures { result.work.items ≡ [] }
    {
        Prices {
            bed: Vec::new(alloc),
            surgeon: Vec::new(alloc),
            theatre: Vec::new(alloc),
            work: Vec::new(alloc),
            share: Vec::new(alloc),
        }
    }

    /// The price of a bed on a day.
    #[inline(always)]
    pub fn bed_on(&self, day: u32) -> u64
        ensures { result ≡ price_in self.now.bed.items day (2 ^ 36) }
    {
        at(self.bed.as_slice(), day as usize).min(MOST_FOR_BED)
    }

    /// The price of a surgeon's minute on a day.
    #[inline(always)]
    pub fn surgeon_on(&self, days: u32, surgeon: u32, day: u32) -> u64
        ensures { result ≡ price_in self.now.surgeon.items (days * surgeon + day) (2 ^ 29) }
    {
        at(self.surgeon.as_slice(), place(days, surgeon, day)).min(MOST_FOR_MINUTE)
    }

    /// The price of a theatre's minute on a day.
    #[inline(always)]
    pub fn theatre_on(&self, days: u32, theatre: u32, day: u32) -> u64
        ensures { result ≡ price_in self.now.theatre.items (days * theatre + day) (2 ^ 29) }
    {
        at(self.theatre.as_slice(), place(days, theatre, day)).min(MOST_FOR_MINUTE)
    }

    /// The price of a unit of a nurse's workload in a shift, which is at most that of an overload.
    #[inline(always)]
    pub fn work_in(&self, rates: &Rates, shifts: u32, nurse: u32, shift: u32) -> u64
        ensures { result ≡ price_in self.now.work.items (shifts * nurse + shift) rates.now.load }
    {
        at(self.work.as_slice(), place(shifts, nurse, shift)).min(rates.load)
    }

    /// What a patient pays besides minutes in a theatre on a day.
    #[inline(always)]
    pub fn share_on(&self, inst: &Instance, theatre: u32, day: u32, patient: u32) -> u64
        requires theatre { theatre < theatre_count inst.now.draft }
        requires day { day < inst.now.draft.days }
        ensures { result ≡ price_in self.now.share.items
            (patient_count inst.now.draft * (inst.now.draft.days * theatre + day) + patient) (2 ^ 29) }
    {
        at(
            self.share.as_slice(),
            place_of_share(inst, theatre, day, patient),
        )
        .min(MOST_FOR_SHARE)
    }

    /// At most what a patient pays for so many minutes in a theatre on a day.
    #[inline(always)]
    pub fn cost_in(
        &self,
        inst: &Instance,
        patient: PatientNo,
        minutes: u32,
        theatre: u32,
        day: u32,
    ) -> u64
        requires theatre { theatre < theatre_count inst.now.draft }
        requires day { day < inst.now.draft.days }
        ensures { (rates : Rates) → result ≤ theatre_paid (tariff_of inst.now.draft rates self.now) patient.0 minutes
            theatre day }
    {
        (minutes as u64)
            .saturating_mul(self.theatre_on(inst.days(), theatre, day))
            .saturating_add(self.share_on(inst, theatre, day, patient.0))
    }
}

/// How many shares have a place: none where it is worth nothing to open a theatre, or where they were too many.
pub fn count_of_shares(inst: &Instance, rates: &Rates) -> usize {
    let all = (inst.patients() as usize)
        .saturating_mul(inst.theatres() as usize)
        .saturating_mul(inst.days() as usize);
    if rates.theatre == 0 || all > MOST_SHARES {
        0
    } else {
        all
    }
}

/// What it is worth to open a theatre, by minute of a day.
pub fn opening(inst: &Instance, rates: &Rates, theatre: u32, day: u32) -> u64 {
    if theatre >= inst.theatres() {
        return 0;
    }
    let minutes = limit_of(inst, Resource::OfTheatre(TheatreNo(theatre)), day);
    if minutes == 0 {
        0
    } else {
        rates.theatre / minutes
    }
}

/// Where entry `column` of row `row` stands.
#[inline(always)]
pub fn place(width: u32, row: u32, column: u32) -> usize
    ensures { result ≡ width * row + column }
{
    width as usize * row as usize + column as usize
}

/// Where the share of a patient in a theatre on a day stands.
#[inline(always)]
pub fn place_of_share(inst: &Instance, theatre: u32, day: u32, patient: u32) -> usize
    requires theatre { theatre < theatre_count inst.now.draft }
    requires day { day < inst.now.draft.days }
    ensures { result ≡ patient_count inst.now.draft * (inst.now.draft.days * theatre + day) + patient }
{
    inst.patients() as usize * place(inst.days(), theatre, day) + patient as usize
}
