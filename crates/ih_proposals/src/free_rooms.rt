//! The rooms that have a bed for one more, kept as words by gender and day: the rooms that fit a stay are an AND over its
//! days. Nothing rests on them but what is tried.

ghost use Rattle.std.specs.Prelude.{◌≡◌, ◌<◌};
ghost use Rattle.ih_tables.specs.Sizes.{patient_count, person_count};
ghost use Rattle.ih_plan.specs.Timetable.{Timetable};
ghost use Rattle.ih_roomdays.specs.Ledger.{IsLedgerOf};
ghost use Rattle.ih_proposals.specs.RoomDays.{IsRoomDay};

use crate::room_days::{RoomDay, person_at};
use ih_costs::Ledgers;
use ih_plan::{Members, Move, Placement};
use ih_roomdays::RoomDays;
use ih_tables::{Day, Instance, PatientNo, PersonNo, RoomNo};
use ih_validate::is_incompatible;
use std::alloc::{AllocError, Global};

/// Rooms, a bit for each: an instance has at most 128.
pub type RoomSet = u128;

// On wards with more genders no words are kept.
const MOST_GENDERS: usize = 4;

/// The room alone.
#[inline(always)]
pub fn only(room: RoomNo) -> RoomSet {
    1u128 << (room.0 % 128)
}

// What is kept of a patient.
#[derive(Clone, Copy)]
struct Guest {
    // The gender, by its place in the list of genders, or the place behind the last one.
    gender: usize,
    // The rooms that suit.
    suiting: RoomSet,
    // The stay when the words were told last.
    stay: Option<Placement>,
}

/// The rooms that have a bed for one person more of a gender on a day: no other gender is there.
#[derive(Drop)]
pub struct FreeRooms {
    // A person of each gender.
    genders: Vec<PersonNo>,
    guests: Vec<Guest>,
    // The words of the first gender first, rising by day.
    words: Vec<RoomSet>,
}

// Whether two persons have one gender. Not where one of them isn't of the instance.
fn are_alike(inst: &Instance, rooms: &RoomDays, person: PersonNo, other: PersonNo) -> bool
    requires { (P : Timetable) × IsLedgerOf inst.now.draft P rooms.now }
{
    person.0 < inst.persons() && other.0 < inst.persons() && rooms.same_gender(person, other)
}

// The place of the person's gender in the list, or the place behind the last one.
fn place_of_gender(
    inst: &Instance,
    rooms: &RoomDays,
    genders: &[PersonNo],
    person: PersonNo,
) -> usize
    requires { (P : Timetable) × IsLedgerOf inst.now.draft P rooms.now }
{
    let mut place = 0;
    for other in genders {
        if are_alike(inst, rooms, person, *other) {
            return place;
        }
        place = place.saturating_add(1);
    }
    place
}

// A person of each gender of patients, up to the most that words are kept for.
fn genders_of(alloc: Global, inst: &Instance, rooms: &RoomDays) -> Result<Vec<PersonNo>, AllocError>
    requires { (P : Timetable) × IsLedgerOf inst.now.draft P rooms.now }
{
    let mut genders = Vec::new(alloc);
    for p in 0..inst.patients() {
        let place = place_of_gender(inst, rooms, genders.as_slice(), PersonNo(p));
        if place == genders.len() && place < MOST_GENDERS {
            genders.push(PersonNo(p))?;
        }
    }
    Ok(genders)
}

// The rooms that suit a patient.
fn suiting_rooms(inst: &Instance, patient: PatientNo) -> RoomSet
    requires { patient.0 < patient_count inst.now.draft }
{
    let mut suiting = 0;
    for r in 0..inst.rooms() {
        if !is_incompatible(inst.patient(patient), RoomNo(r)) {
            suiting |= only(RoomNo(r));
        }
    }
    suiting
}

// All patients, none of whom is admitted so far.
fn guests_of(
    alloc: Global,
    inst: &Instance,
    rooms: &RoomDays,
    genders: &[PersonNo],
) -> Result<Vec<Guest>, AllocError>
    requires { (P : Timetable) × IsLedgerOf inst.now.draft P rooms.now }
{
    let mut guests = Vec::new(alloc);
    for p in 0..inst.patients() {
        guests.push(Guest {
            gender: place_of_gender(inst, rooms, genders, PersonNo(p)),
            suiting: suiting_rooms(inst, PatientNo(p)),
            stay: None,
        })?;
    }
    Ok(guests)
}

// Whether the room has a bed on the day for one more of the person's gender, and nobody of another one.
fn has_bed_for(inst: &Instance, rooms: &RoomDays, person: PersonNo, there: RoomDay) -> bool
    requires stands { (P : Timetable) × IsLedgerOf inst.now.draft P rooms.now }
    requires there { IsRoomDay inst.now.draft there }
{
    let count = rooms.count(there.room, there.day);
    if inst.room(there.room).capacity <= count {
        return false;
    }
    for i in 0..count {
        if !are_alike(inst, rooms, person, person_at(inst, rooms, there, i)) {
            return false;
        }
    }
    true
}

impl FreeRooms {
    /// The words of the timetable of these ledgers.
    pub fn new(
        alloc: Global,
        inst: &Instance,
        ledgers: &Ledgers<'_>,
    ) -> Result<FreeRooms, AllocError>
        requires { ledgers.now.instance ≡ inst.now.draft }
    {
        let rooms = ledgers.room_days();
        let genders = genders_of(alloc, inst, rooms)?;
        let guests = guests_of(alloc, inst, rooms, genders.as_slice())?;
        let words = vec![in alloc; 0; genders.len().saturating_mul(inst.days() as usize)]?;
        let mut free = FreeRooms {
            genders,
            guests,
            words,
        };
        free.follow_all(inst, ledgers);
        Ok(free)
    }

    // Where the word of a gender and a day stands.
    #[inline(always)]
    fn place(inst: &Instance, gender: usize, day: Day) -> usize {
        gender
            .saturating_mul(inst.days() as usize)
            .saturating_add(day.0 as usize)
    }

    #[inline(always)]
    fn word(&self, inst: &Instance, gender: usize, day: Day) -> RoomSet {
        match self
            .words
            .as_slice()
            .get(FreeRooms::place(inst, gender, day))
        {
            Some(word) => *word,
            None => 0,
        }
    }

    // Tells whether the room is free for the gender on the day.
    fn tell(&mut self, inst: &Instance, gender: usize, there: RoomDay, is_free: bool) {
        let place = FreeRooms::place(inst, gender, there.day);
        if let Some(word) = self.words.as_mut_slice().get_mut(place) {
            if is_free {
                *word |= only(there.room);
            } else {
                *word &= !only(there.room);
            }
        }
    }

    // Tells a room anew for a day.
    fn look(&mut self, inst: &Instance, rooms: &RoomDays, there: RoomDay)
        requires stands { (P : Timetable) × IsLedgerOf inst.now.draft P rooms.now }
        requires there { IsRoomDay inst.now.draft there }
    {
        for gender in 0..self.genders.len() {
            let is_free = match self.genders.as_slice().get(gender) {
                Some(person) => has_bed_for(inst, rooms, *person, there),
                None => false,
            };
            self.tell(inst, gender, there, is_free);
        }
    }

    // Tells the room of a patient's stay anew for each of its days.
    fn look_over(
        &mut self,
        inst: &Instance,
        rooms: &RoomDays,
        patient: PatientNo,
        stay: Option<Placement>,
    )
        requires stands { (P : Timetable) × IsLedgerOf inst.now.draft P rooms.now }
        requires patient { patient.0 < patient_count inst.now.draft }
    {
        let Some(at) = stay else {
            return;
        };
        if at.room.0 >= inst.rooms() {
            return;
        }
        let length = inst.patient(patient).length_of_stay;
        for d in at.day.0..at.day.0.saturating_add(length).min(inst.days()) {
            let there = RoomDay {
                room: at.room,
                day: Day(d),
            };
            self.look(inst, rooms, there);
        }
    }

    fn stay(&self, patient: PatientNo) -> Option<Placement> {
        match self.guests.as_slice().get(patient.0 as usize) {
            Some(guest) => guest.stay,
            None => None,
        }
    }

    fn set_stay(&mut self, patient: PatientNo, stay: Option<Placement>) {
        if let Some(guest) = self.guests.as_mut_slice().get_mut(patient.0 as usize) {
            guest.stay = stay;
        }
    }

    // Follows one patient to where the ledgers have it.
    fn follow_one(&mut self, inst: &Instance, ledgers: &Ledgers<'_>, patient: PatientNo)
        requires { ledgers.now.instance ≡ inst.now.draft }
    {
        if patient.0 >= inst.patients() {
            return;
        }
        let old = self.stay(patient);
        let new = ledgers.plan().stay(patient);
        if new == old {
            return;
        }
        self.set_stay(patient, new);
        self.look_over(inst, ledgers.room_days(), patient, old);
        self.look_over(inst, ledgers.room_days(), patient, new);
    }

    /// Follows the ledgers, which made these moves.
    pub fn follow(&mut self, inst: &Instance, ledgers: &Ledgers<'_>, moves: &[Move])
        requires { ledgers.now.instance ≡ inst.now.draft }
    {
        for mv in moves {
            match *mv {
                Move::Place(p, _) | Move::Withdraw(p) | Move::SetDay(p, _) | Move::SetRoom(p, _) =>
                    self.follow_one(inst, ledgers, p),
                Move::SwapRooms(p, q) => {
                    self.follow_one(inst, ledgers, p);
                    self.follow_one(inst, ledgers, q);
                }
                _ => {}
            }
        }
    }

    /// Follows the ledgers to any timetable, in time of the whole of it.
    pub fn follow_all(&mut self, inst: &Instance, ledgers: &Ledgers<'_>)
        requires { ledgers.now.instance ≡ inst.now.draft }
    {
        for p in 0..inst.patients() {
            self.set_stay(PatientNo(p), ledgers.plan().stay(PatientNo(p)));
        }
        for r in 0..inst.rooms() {
            for d in 0..inst.days() {
                let there = RoomDay {
                    room: RoomNo(r),
                    day: Day(d),
                };
                self.look(inst, ledgers.room_days(), there);
            }
        }
    }

    /// The rooms that suit the patient and have a bed on each day of a stay from a day on, beside all who are there; none
    /// where no words are kept for the patient.
    pub fn rooms_for(&self, inst: &Instance, patient: PatientNo, day: Day) -> Option<RoomSet>
        requires { patient.0 < patient_count inst.now.draft }
    {
        let guest = *self.guests.as_slice().get(patient.0 as usize)?;
        if guest.gender >= self.genders.len() {
            return None;
        }
        let mut left = guest.suiting;
        let length = inst.patient(patient).length_of_stay;
        for d in day.0..day.0.saturating_add(length).min(inst.days()) {
            left &= self.word(inst, guest.gender, Day(d));
        }
        Some(left)
    }
}
