//! What care costs each patient at least, whatever the prices.

ghost use Rattle.std.specs.Prelude.{◌≡◌, ◌<◌, ◌≤◌, ◌+◌, ◌*◌, [], IfOk, slice_index};
ghost use Rattle.ih_tables.specs.Sizes.{patient_count};
ghost use Rattle.ih_bound.specs.Least.{AreFloors, BoundsFloor};

use crate::people::{patient_care, window_end};
use crate::prices::{Prices, Rates, at, place};
use crate::scratch::{Scratch, zeros};
use ih_tables::{Instance, PatientNo};
use std::alloc::{AllocError, Global};

/// By patient and day: at most what the patient pays for care where it is admitted on the day.
#[derive(Drop)]
pub struct Floors {
    pub list: Vec<u64>,
}

// What a patient who is admitted on a day pays for care, at no price; 0 outside its window.
fn floor_of(
    inst: &Instance,
    rates: &Rates,
    free: &Prices,
    patient: PatientNo,
    day: u32,
    scratch: &mut Scratch,
) -> u64
    requires free { free.now.work.items ≡ [] }
    requires patient { patient.0 < patient_count inst.now.draft }
    requires day { day < inst.now.draft.days }
    ensures { BoundsFloor inst.now.draft rates.now patient.0 day result }
{
    if day < inst.patient(patient).surgery_release_day || day >= window_end(inst, patient) {
        return 0;
    }
    patient_care(inst, rates, free, patient, day, scratch)
}

impl Floors {
    /// All are 0.
    pub fn new(alloc: Global, inst: &Instance) -> Result<Floors, AllocError>
        ensures { IfOk result (λ f. (rates : Rates) → AreFloors inst.now.draft rates f.list.items) }
    {
        Ok(Floors {
            list: zeros(alloc, inst.days() as usize * inst.patients() as usize)?,
        })
    }

    /// That of a patient on a day.
    #[inline(always)]
    pub fn of(&self, inst: &Instance, patient: PatientNo, day: u32) -> u64
        ensures { result ≡ slice_index self.now.list.items (inst.now.draft.days * patient.0 + day) }
    {
        at(self.list.as_slice(), place(inst.days(), patient.0, day))
    }

    /// Raises those of the patients who are dealt to a worker.
    pub fn raise(
        &mut self,
        inst: &Instance,
        rates: &Rates,
        free: &Prices,
        workers: usize,
        worker: usize,
        scratch: &mut Scratch,
    )
        requires free { free.now.work.items ≡ [] }
        requires worker { worker < workers }
        requires floors { AreFloors inst.now.draft rates.now self.old.list.items }
        ensures { AreFloors inst.now.draft rates.now self.new.list.items }
    {
        for i in 0..inst.days() * inst.patients() {
            self.raise_at(inst, rates, free, i, workers, worker, scratch);
        }
    }

    // Raises that at a place, where its patient is dealt to the worker.
    fn raise_at(
        &mut self,
        inst: &Instance,
        rates: &Rates,
        free: &Prices,
        index: u32,
        workers: usize,
        worker: usize,
        scratch: &mut Scratch,
    )
        requires free { free.now.work.items ≡ [] }
        requires worker { worker < workers }
        requires place { index < inst.now.draft.days * patient_count inst.now.draft }
        requires floors { AreFloors inst.now.draft rates.now self.old.list.items }
        ensures { AreFloors inst.now.draft rates.now self.new.list.items }
    {
        let days = inst.days();
        let p = index / days;
        if p as usize % workers != worker {
            return;
        }
        let floor = floor_of(inst, rates, free, PatientNo(p), index % days, scratch);
        let place = index as usize;
        if place < self.list.len() {
            self.list[place] = floor;
        }
    }
}
