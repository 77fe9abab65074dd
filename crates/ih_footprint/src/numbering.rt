//! The numbers of cells.

use ih_tables::{
    Cell, Day, Instance, NurseNo, PatientNo, PersonNo, RoomNo, Shift, SurgeonNo, TheatreNo,
};
use std::marker::Model;

/// How many there are of each kind of thing in an instance, from which its cells have their numbers: stays first, then
/// room days, theatre days, surgeon days, room shifts, nurse shifts and cares.
#[derive(Clone, Copy)]
pub struct Numbering {
    days: u32,
    patients: u32,
    occupants: u32,
    rooms: u32,
    theatres: u32,
    surgeons: u32,
    nurses: u32,
    // Where the numbers of the later kinds begin, so that this isn't worked out for each cell.
    first_theatre_day: u32,
    first_surgeon_day: u32,
    first_room_shift: u32,
    first_nurse_shift: u32,
    first_care: u32,
}

impl Model for Numbering {
    ghost use Rattle.std.proofs.Common.{refl};
    ghost use Rattle.ih_tables.specs.Sizes.{NumberingState};
    ghost use Rattle.ih_plan.specs.Cells.{theatre_days_from, surgeon_days_from, room_shifts_from, nurse_shifts_from};
    ghost use Rattle.ih_plan.specs.Cells.{cares_from};
    ghost use Rattle.ih_footprint.specs.Limits.{AreLaidOut, as_sizes};

    ghost Value = { NumberingState };

    ghost view = { λ n. as_sizes n.days n.patients n.occupants n.rooms n.theatres n.surgeons n.nurses };

    ghost inverse = { λ z. record {
      days = z.days;
      patients = z.patients;
      occupants = z.occupants;
      rooms = z.rooms;
      theatres = z.theatres;
      surgeons = z.surgeons;
      nurses = z.nurses;
      first_theatre_day = theatre_days_from z;
      first_surgeon_day = surgeon_days_from z;
      first_room_shift = room_shifts_from z;
      first_nurse_shift = nurse_shifts_from z;
      first_care = cares_from z;
    } };

    ghost invariant = { λ n. AreLaidOut (as_sizes n.days n.patients n.occupants n.rooms n.theatres n.surgeons n.nurses)
        n.first_theatre_day n.first_surgeon_day n.first_room_shift n.first_nurse_shift n.first_care };

    ghost inverse_ok = { λ a h. let firsts = h.1 in
        rw (firsts.theatre_days, firsts.surgeon_days, firsts.room_shifts, firsts.nurse_shifts, firsts.cares) refl };
}

impl Numbering {
    ghost use Rattle.std.specs.Prelude.{◌≡◌, ◌+◌, ◌*◌, ◌<◌};
    ghost use Rattle.ih_tables.specs.Sizes.{sizes_of};
    ghost use Rattle.ih_plan.specs.Cells.{room_days_from, room_shifts_from, count_in, number_in, cell_in, IsCellIn};
    ghost use Rattle.ih_footprint.specs.Limits.{AreLimited};

    /// The numbering of an instance's cells.
    pub fn of(inst: &Instance) -> Numbering
        ensures { result ≡ sizes_of inst.now.draft }
    {
        let days = inst.draft.days;
        let first_theatre_day = inst.patients() + inst.rooms() * days;
        let first_surgeon_day = first_theatre_day + inst.theatres() * days;
        let first_room_shift = first_surgeon_day + inst.surgeons() * days;
        let first_nurse_shift = first_room_shift + inst.rooms() * (3 * days);
        let first_care = first_nurse_shift + inst.nurses() * (3 * days);
        Numbering {
            days,
            patients: inst.patients(),
            occupants: inst.occupants(),
            rooms: inst.rooms(),
            theatres: inst.theatres(),
            surgeons: inst.surgeons(),
            nurses: inst.nurses(),
            first_theatre_day,
            first_surgeon_day,
            first_room_shift,
            first_nurse_shift,
            first_care,
        }
    }

    /// How many cells there are.
    pub fn count(&self) -> u32
        ensures count { result ≡ count_in self.now }
        ensures sizes { AreLimited self.now }
    {
        self.first_care + (self.patients + self.occupants)
    }

    /// The number of a cell, from which `cell` gives the cell back.
    #[inline(always)]
    pub fn number(&self, cell: Cell) -> u32
        requires { IsCellIn self.now cell }
        ensures number { result ≡ number_in self.now cell }
        ensures below { result < count_in self.now }
        ensures back { cell_in self.now result ≡ cell }
    {
        self.number_by_kind(cell)
    }

    #[inline(always)]
    fn number_by_kind(&self, cell: Cell) -> u32
        requires { IsCellIn self.now cell }
        ensures { result ≡ number_in self.now cell }
    {
        match cell {
            Cell::Stay(p) => p.0,
            Cell::RoomDay(r, d) => self.patients + r.0 * self.days + d.0,
            Cell::TheatreDay(t, d) => self.first_theatre_day + t.0 * self.days + d.0,
            Cell::SurgeonDay(s, d) => self.first_surgeon_day + s.0 * self.days + d.0,
            Cell::RoomShift(r, k) => self.first_room_shift + r.0 * (3 * self.days) + k.0,
            Cell::NurseShift(n, k) => self.first_nurse_shift + n.0 * (3 * self.days) + k.0,
            Cell::Care(x) => self.first_care + x.0,
        }
    }

    /// Where the numbers of a room's days begin.
    #[inline(always)]
    pub(crate) fn row_of_days(&self, room: RoomNo) -> u32
        requires { room.0 < self.now.rooms }
        ensures row { result ≡ room_days_from self.now + room.0 * self.now.days }
        ensures limited { AreLimited self.now }
    {
        self.patients + room.0 * self.days
    }

    /// Where those of its shifts begin.
    #[inline(always)]
    pub(crate) fn row_of_shifts(&self, room: RoomNo) -> u32
        requires { room.0 < self.now.rooms }
        ensures row { result ≡ room_shifts_from self.now + room.0 * (3 * self.now.days) }
        ensures limited { AreLimited self.now }
    {
        self.first_room_shift + room.0 * (3 * self.days)
    }

    /// The cell of a number, from which `number` gives the number back.
    pub fn cell(&self, number: u32) -> Cell
        requires { number < count_in self.now }
        ensures cell { result ≡ cell_in self.now number }
        ensures inside { IsCellIn self.now result }
        ensures back { number_in self.now result ≡ number }
    {
        self.cell_by_kind(number)
    }

    #[tactic(auto, unfolding(ih_plan::specs::Cells::cell_in))]
    fn cell_by_kind(&self, number: u32) -> Cell
        requires { number < count_in self.now }
        ensures { result ≡ cell_in self.now number }
    {
        if number < self.patients {
            return Cell::Stay(PatientNo(number));
        }
        if number < self.first_theatre_day {
            let m = number - self.patients;
            return Cell::RoomDay(RoomNo(m / self.days), Day(m % self.days));
        }
        if number < self.first_surgeon_day {
            let m = number - self.first_theatre_day;
            return Cell::TheatreDay(TheatreNo(m / self.days), Day(m % self.days));
        }
        if number < self.first_room_shift {
            let m = number - self.first_surgeon_day;
            return Cell::SurgeonDay(SurgeonNo(m / self.days), Day(m % self.days));
        }
        let shifts = 3 * self.days;
        if number < self.first_nurse_shift {
            let m = number - self.first_room_shift;
            return Cell::RoomShift(RoomNo(m / shifts), Shift(m % shifts));
        }
        if number < self.first_care {
            let m = number - self.first_nurse_shift;
            return Cell::NurseShift(NurseNo(m / shifts), Shift(m % shifts));
        }
        Cell::Care(PersonNo(number - self.first_care))
    }
}
