//! The ledger of room days.

ghost use Rattle.std.specs.Prelude.{◌≡◌, ◌<◌, ◌^◌, true, Some, None, IfOk};
ghost use Rattle.std.specs.Str.{bytes_eq};
ghost use Rattle.ih_tables.specs.declared.drafts.Draft.{Draft};
ghost use Rattle.ih_tables.specs.{Bills.IsWithin, Sizes.patient_count, Sizes.room_count};
ghost use Rattle.ih_tables.specs.{declared.cells.Cell.TheVariants.RoomDay};
ghost use Rattle.ih_plan.specs.Timetable.{Timetable, IsPlacement, empty, stay_of};
ghost use Rattle.ih_plan.specs.{declared.moves.Write.TheVariants.SetStay, Writes.put, Persons.person_of};
ghost use Rattle.ih_plan.specs.{Presence.covers, Cells.delta_at, Cells.part_at, BillOf.as_bill};
ghost use Rattle.ih_roomdays.specs.Ledger.{IsLedgerOf, MembersArePresent};

use crate::bills::{room_day_bill, room_day_change};
use crate::changes::{is_there, room_counts, without_and_with};
use crate::profiles::profiles_of;
use crate::room_lists::RoomLists;
use ih_plan::{Members, Placement, end_from, end_of};
use ih_tables::{Bill, Day, Instance, PatientNo, PersonNo, RoomNo};
use std::alloc::{AllocError, Global};
use std::marker::Model;

/// Who is in each room on each day of a timetable. After `new` it takes no memory.
#[derive(Drop)]
pub struct RoomDays {
    rows: RoomLists,
}

impl Model for RoomDays {
    ghost use Rattle.ih_roomdays.specs.{declared.room_lists.RoomLists.RoomLists, RoomLists.AreRoomLists};

    ghost Value = { RoomLists };

    ghost view = { λ a. a.rows };

    ghost invariant = { λ a. AreRoomLists a.rows };
}

impl RoomDays {
    /// The ledger of the empty timetable: the occupants alone are in rooms.
    pub fn new(alloc: Global, inst: &Instance) -> Result<RoomDays, AllocError>
        ensures { IfOk result (λ ledger. IsLedgerOf inst.now.draft (empty inst.now.draft) ledger) }
    {
        let patients = inst.patients();
        let profiles = profiles_of(alloc, inst)?;
        let mut rows = RoomLists::new(alloc, inst.rooms(), inst.days(), inst.persons(), profiles)?;
        for o in 0..inst.occupants() {
            let occupant = inst.occupant(o);
            let to = end_from(inst, 0, occupant.length_of_stay);
            rows.enter(occupant.room_id.0, patients + o, 0, to);
        }
        Ok(RoomDays { rows })
    }

    /// The patient is admitted; nobody else's stay changes.
    pub fn enter(&mut self, inst: &Instance, patient: PatientNo, at: Placement)
        requires patient { patient.0 < patient_count inst.now.draft }
        requires placement { IsPlacement inst.now.draft at }
        requires stands { (P : Timetable) × IsLedgerOf inst.now.draft P self.old × (stay_of P patient.0 ≡ None) }
        ensures { (P : Timetable) → IsLedgerOf inst.now.draft P self.old → stay_of P patient.0 ≡ None
            → IsLedgerOf inst.now.draft (put (SetStay patient (Some at)) P) self.new }
    {
        let to = end_of(inst, patient, at);
        self.rows.enter(at.room.0, patient.0, at.day.0, to);
    }

    /// The patient isn't admitted any more; nobody else's stay changes.
    pub fn leave(&mut self, inst: &Instance, patient: PatientNo, at: Placement)
        requires patient { patient.0 < patient_count inst.now.draft }
        requires stands { (P : Timetable) × IsLedgerOf inst.now.draft P self.old × (stay_of P patient.0 ≡ Some at) }
        ensures { (P : Timetable) → IsLedgerOf inst.now.draft P self.old → stay_of P patient.0 ≡ Some at
            → IsLedgerOf inst.now.draft (put (SetStay patient None) P) self.new }
    {
        let to = end_of(inst, patient, at);
        self.rows.leave(at.room.0, patient.0, at.day.0, to);
    }

    /// The part of the bill that the room has on the day: mixed genders, persons above the capacity, and the spread of
    /// ages.
    pub fn cell_bill(&self, inst: &Instance, room: RoomNo, day: Day) -> Bill
        requires room { room.0 < room_count inst.now.draft }
        requires day { day.0 < inst.now.draft.days }
        requires stands { (P : Timetable) × IsLedgerOf inst.now.draft P self.now }
        ensures value { (P : Timetable) → IsLedgerOf inst.now.draft P self.now
            → result ≡ as_bill (part_at inst.now.draft P (RoomDay room day)) }
        ensures within { IsWithin (10 ^ 11) result }
    {
        let head = room.0 * self.rows.days + day.0;
        room_day_bill(room_counts(inst, room, self.rows.crowds[head as usize].occupancy))
    }

    /// How much more a placement's room breaks and costs on one of its days with the patient there than without, whose
    /// stay is `old` so far.
    pub fn day_delta(
        &self,
        inst: &Instance,
        patient: PatientNo,
        old: Option<Placement>,
        at: Placement,
        day: Day,
    ) -> Bill
        requires patient { patient.0 < patient_count inst.now.draft }
        requires placement { IsPlacement inst.now.draft at }
        requires day { day.0 < inst.now.draft.days }
        requires counted { covers at.day.0 (person_of inst.now.draft patient.0).length_of_stay day.0 ≡ true }
        requires stands { (P : Timetable) × IsLedgerOf inst.now.draft P self.now × (stay_of P patient.0 ≡ old) }
        ensures delta { (P : Timetable) → IsLedgerOf inst.now.draft P self.now → stay_of P patient.0 ≡ old
            → result ≡ delta_at inst.now.draft P patient at (RoomDay at.room day) }
        ensures within { IsWithin (10 ^ 11) result }
    {
        let was = is_there(inst, patient, old, at.room, day);
        let (without, with) = without_and_with(inst, &self.rows, at.room, day, patient, was);
        room_day_change(with, without)
    }

    /// Whether two persons have one gender, by a table, without a look at the instance.
    #[inline(always)]
    pub fn same_gender(&self, person: PersonNo, other: PersonNo) -> bool
        requires first { person.0 < self.now.persons }
        requires second { other.0 < self.now.persons }
        ensures { (I : Draft) (P : Timetable) → IsLedgerOf I P self.now
            → result ≡ bytes_eq (person_of I person.0).gender (person_of I other.0).gender }
    {
        self.rows.profiles.same_gender(person.0, other.0)
    }
}

impl Members for RoomDays {
    ghost use Rattle.ih_roomdays.specs.RoomLists.{persons_at};

    ghost rooms = { λ v. v.rooms };

    ghost days = { λ v. v.days };

    ghost persons = { λ v. persons_at v };

    fn count(&self, room: RoomNo, day: Day) -> u32 {
        self.rows.links[day.0 as usize].len(room.0)
    }

    fn member(&self, room: RoomNo, day_no: Day, index: u32) -> PersonNo {
        let day = &self.rows.links[day_no.0 as usize];
        let mut at = day.first(room.0);
        for _ in 0..index {
            at = match at {
                Some(x) => day.next(x),
                None => None,
            };
        }
        match at {
            None => PersonNo(0),
            Some(x) => PersonNo(x),
        }
    }
}

/// A ledger that stands for a timetable tells who is present in each room on each day.
pub fn members_are_present(_inst: &Instance)
    ensures { MembersArePresent _inst.now.draft }
{}
