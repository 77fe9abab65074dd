//! A timetable: who is admitted when and where, and who nurses which room in which shift.

use crate::moves::{Placement, Write};
use ih_tables::{Instance, NurseNo, PatientNo, RoomNo, Shift};
use std::alloc::{AllocError, Global};
use std::marker::Model;

/// A timetable: the stay of each patient, and the nurse of each room and shift. A patient has at most one stay, and a
/// room at most one nurse in a shift.
#[derive(Drop)]
pub struct Plan {
    stays: Vec<Option<Placement>>,
    cares: Vec<Option<NurseNo>>,
    shifts: u32,
}

impl Model for Plan {
    ghost use Rattle.ih_plan.specs.Timetable.{Timetable};

    ghost Value = { Timetable };

    ghost view = { λ p. record { stays = p.stays.items; cares = p.cares.items; shifts = p.shifts } };
}

impl Plan {
    ghost use Rattle.std.specs.Prelude.{◌≡◌, ◌<◌, length, IfOk};
    ghost use Rattle.ih_plan.specs.Timetable.{empty, stay_of, choice_of, care_place};
    ghost use Rattle.ih_plan.specs.Writes.{IsInside, put};

    /// The timetable in which nobody is admitted and no room has a nurse.
    pub fn empty(alloc: Global, inst: &Instance) -> Result<Plan, AllocError>
        ensures { IfOk result (λ p. p ≡ empty inst.now.draft) }
    {
        let shifts = inst.shifts();
        let stays = vec![in alloc; None; inst.patients() as usize]?;
        let cares = vec![in alloc; None; shifts as usize * inst.rooms() as usize]?;
        Ok(Plan {
            stays,
            cares,
            shifts,
        })
    }

    /// A second timetable with the same entries.
    pub fn try_clone(&self, alloc: Global) -> Result<Plan, AllocError>
        ensures { IfOk result (λ p. p ≡ self.now) }
    {
        let stays = Vec::from_slice(alloc, self.stays.as_slice())?;
        let cares = Vec::from_slice(alloc, self.cares.as_slice())?;
        Ok(Plan {
            stays,
            cares,
            shifts: self.shifts,
        })
    }

    /// Takes over all entries of a timetable of the same sizes. It takes no memory.
    pub fn copy_from(&mut self, other: &Plan)
        requires stays { length self.old.stays ≡ length other.now.stays }
        requires cares { length self.old.cares ≡ length other.now.cares }
        requires shifts { self.old.shifts ≡ other.now.shifts }
        ensures { self.new ≡ other.now }
    {
        self.stays
            .as_mut_slice()
            .copy_from_slice(other.stays.as_slice());
        self.cares
            .as_mut_slice()
            .copy_from_slice(other.cares.as_slice());
    }

    /// The placement of a patient, and none where the patient is not admitted.
    pub fn stay(&self, patient: PatientNo) -> Option<Placement>
        requires { patient.0 < length self.now.stays }
        ensures { result ≡ stay_of self.now patient.0 }
    {
        self.stays[patient.0 as usize]
    }

    // Where a room's nurse in a shift stands.
    fn place(&self, room: RoomNo, shift: Shift) -> usize
        requires { care_place self.now room.0 shift.0 < length self.now.cares }
        ensures { result ≡ care_place self.now room.0 shift.0 }
    {
        self.shifts as usize * room.0 as usize + shift.0 as usize
    }

    /// The nurse of a room in a shift, where the room has one.
    pub fn care(&self, room: RoomNo, shift: Shift) -> Option<NurseNo>
        requires { care_place self.now room.0 shift.0 < length self.now.cares }
        ensures { result ≡ choice_of self.now room.0 shift.0 }
    {
        self.cares[self.place(room, shift)]
    }

    /// Replaces the one entry that the write names; all others stay. It takes no memory.
    pub fn put(&mut self, write: &Write)
        requires { IsInside self.old write.now }
        ensures { self.new ≡ put write.now self.old }
    {
        match *write {
            Write::SetStay(patient, stay) => self.stays[patient.0 as usize] = stay,
            Write::SetCare(r, k, care) => {
                let place = self.place(r, k);
                self.cares[place] = care
            }
        }
    }
}
