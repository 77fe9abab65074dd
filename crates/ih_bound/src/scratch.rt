//! What a worker writes on while it looks at a stay.

ghost use Rattle.std.specs.Prelude.{◌≡◌, ℕ, IfOk, slice_index};

use ih_tables::{Instance, PatientNo, Shift};
use std::alloc::{AllocError, Global};

/// Numbers of shifts, and what else their choice needs; of any lengths.
#[derive(Drop)]
pub struct Scratch {
    /// By shift.
    pub numbers: Vec<u64>,
    /// What care costs, by shift of the stay and place in its roster.
    pub costs: Vec<u64>,
    /// All shifts, those with the fewest nurses first.
    pub order: Vec<u64>,
    /// By nurse, how much more it may be spared.
    pub slack: Vec<u64>,
    /// By shift, the nurse whose slack ends where the number does.
    pub holders: Vec<u64>,
    /// By shift, 1 where it has a nurse already.
    pub served: Vec<u64>,
    /// The day on which the patient pays least, where one was found.
    pub day: Option<u32>,
    /// The day whose numbers were chosen last.
    pub numbered: Option<u32>,
    /// By patient, one more than the day on which it paid least before, or 0.
    pub hints: Vec<u64>,
}

/// So many zeros.
pub fn zeros(alloc: Global, count: usize) -> Result<Vec<u64>, AllocError>
    ensures { IfOk result (λ v. (i : ℕ) → slice_index v.items i ≡ 0) }
{
    let mut list = Vec::new(alloc);
    for _ in 0..count {
        list.push(0)?;
    }
    Ok(list)
}

// All shifts, those with the fewest nurses first; of others the first one first.
fn shifts_by_nurses(alloc: Global, inst: &Instance) -> Result<Vec<u64>, AllocError> {
    let mut list = Vec::new(alloc);
    for count in 0..inst.nurses() as usize + 1 {
        for k in 0..inst.shifts() {
            if inst.working(Shift(k)).len() == count {
                list.push(k as u64)?;
            }
        }
    }
    Ok(list)
}

impl Scratch {
    /// All numbers are 0.
    pub fn new(alloc: Global, inst: &Instance) -> Result<Scratch, AllocError> {
        let shifts = inst.shifts() as usize;
        let nurses = inst.nurses() as usize;
        Ok(Scratch {
            numbers: zeros(alloc, shifts)?,
            costs: zeros(alloc, shifts * nurses)?,
            order: shifts_by_nurses(alloc, inst)?,
            slack: zeros(alloc, nurses)?,
            holders: zeros(alloc, shifts)?,
            served: zeros(alloc, shifts)?,
            day: None,
            numbered: None,
            hints: zeros(alloc, inst.patients() as usize)?,
        })
    }

    /// Begins with a patient: the day on which it paid least before, where one is known.
    pub fn begin(&mut self, patient: PatientNo) -> Option<u32> {
        self.day = None;
        self.numbered = None;
        match self.hints.get(patient.0 as usize) {
            Some(0) => None,
            Some(after) => Some((*after - 1).min(1000) as u32),
            None => None,
        }
    }

    /// Ends with a patient.
    pub fn end(&mut self, patient: PatientNo) {
        let hint = match self.day {
            Some(day) => day as u64 + 1,
            None => 0,
        };
        if let Some(x) = self.hints.get_mut(patient.0 as usize) {
            *x = hint;
        }
    }
}
