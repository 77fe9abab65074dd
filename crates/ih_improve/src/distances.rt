//! How far a timetable is from the start: the number of changes, kept along as moves are tried. Nothing that is promised
//! rests on it: where a round ends, changes are counted anew.

ghost use Rattle.ih_plan.specs.Timetable.{IsPlanOf};

use ih_plan::{Move, Placement, Plan, Write, bit, end_from, nurse_at};
use ih_tables::{Instance, NurseNo, PatientNo, RoomNo, Shift};
use std::alloc::{AllocError, Global};

// So many entries an attempt overwrites at most: each of eight moves has at most 21 writes.
const LONGEST: usize = 168;

// The entries of a timetable.
#[derive(Drop)]
struct Entries {
    stays: Vec<Option<Placement>>,
    // By room and shift.
    cares: Vec<Option<NurseNo>>,
}

/// The timetable where a worker stands, beside the start, with the number of changes.
#[derive(Drop)]
pub(crate) struct Distance {
    start: Entries,
    here: Entries,
    // How many persons are in each room on each day.
    persons: Vec<u32>,
    changes: u32,
    // What the attempt overwrote, in order, and how many entries that are.
    overwritten: Vec<Write>,
    count: usize,
}

// Where something of a room stands, of which each room has so many.
fn place_of(of_each: u32, room: RoomNo, number: u32) -> usize {
    (of_each as usize)
        .saturating_mul(room.0 as usize)
        .saturating_add(number as usize)
}

impl Entries {
    // None, for an instance of this size.
    fn new(alloc: Global, patients: u32, cares: usize) -> Result<Entries, AllocError> {
        Ok(Entries {
            stays: vec![in alloc; None; patients as usize]?,
            cares: vec![in alloc; None; cares]?,
        })
    }

    fn stay(&self, patient: PatientNo) -> Option<Placement> {
        self.stays
            .as_slice()
            .get(patient.0 as usize)
            .copied()
            .flatten()
    }

    fn care(&self, place: usize) -> Option<NurseNo> {
        self.cares.as_slice().get(place).copied().flatten()
    }

    fn set_stay(&mut self, patient: PatientNo, stay: Option<Placement>) {
        let place = patient.0 as usize;
        if place < self.stays.len() {
            self.stays[place] = stay;
        }
    }

    fn set_care(&mut self, place: usize, care: Option<NurseNo>) {
        if place < self.cares.len() {
            self.cares[place] = care;
        }
    }
}

impl Distance {
    /// From the start to itself. Where changes don't count nothing is kept, and no memory is taken.
    pub(crate) fn new(
        alloc: Global,
        inst: &Instance,
        start: &Plan,
        is_counted: bool,
    ) -> Result<Distance, AllocError>
        requires { IsPlanOf inst.now.draft start.now }
    {
        let rooms = if is_counted { inst.rooms() } else { 0 };
        let patients = if is_counted { inst.patients() } else { 0 };
        let longest = if is_counted { LONGEST } else { 0 };
        let cares = place_of(inst.shifts(), RoomNo(rooms), 0);
        let room_days = place_of(inst.days(), RoomNo(rooms), 0);
        let mut distance = Distance {
            start: Entries::new(alloc, patients, cares)?,
            here: Entries::new(alloc, patients, cares)?,
            persons: vec![in alloc; 0; room_days]?,
            changes: 0,
            overwritten: vec![in alloc; Write::SetStay(PatientNo(0), None); longest]?,
            count: 0,
        };
        if is_counted {
            distance.begin(inst, start);
        }
        Ok(distance)
    }

    // Takes over the start, where nothing was taken over before.
    fn begin(&mut self, inst: &Instance, start: &Plan)
        requires { IsPlanOf inst.now.draft start.now }
    {
        for o in 0..inst.occupants() {
            let occupant = inst.occupant(o);
            let end = end_from(inst, 0, occupant.length_of_stay);
            self.enter(inst, occupant.room_id, 0, end);
        }
        self.go_to(inst, start);
        for p in 0..inst.patients() {
            self.start
                .set_stay(PatientNo(p), self.here.stay(PatientNo(p)));
        }
        for place in 0..self.here.cares.len() {
            self.start.set_care(place, self.here.care(place));
        }
        self.changes = 0;
    }

    /// How many changes there are.
    pub(crate) fn changes(&self) -> u32 {
        self.changes
    }

    /// Goes to a timetable, in time of the whole of it.
    pub(crate) fn go_to(&mut self, inst: &Instance, plan: &Plan)
        requires { IsPlanOf inst.now.draft plan.now }
    {
        for p in 0..inst.patients() {
            self.set_stay(inst, PatientNo(p), plan.stay(PatientNo(p)));
        }
        for r in 0..inst.rooms() {
            for k in 0..inst.shifts() {
                let care = nurse_at(inst, plan, RoomNo(r), Shift(k));
                self.set_care(inst, RoomNo(r), Shift(k), care);
            }
        }
    }

    /// Makes moves in a row.
    pub(crate) fn play(&mut self, inst: &Instance, moves: &[Move]) {
        self.count = 0;
        for mv in moves {
            self.make(inst, mv);
        }
    }

    /// Takes the moves back that were made last.
    pub(crate) fn take_back(&mut self, inst: &Instance) {
        let count = self.count;
        for i in 0..count {
            match self.overwritten.as_slice().get(count - 1 - i).copied() {
                Some(Write::SetStay(patient, stay)) => self.set_stay(inst, patient, stay),
                Some(Write::SetCare(room, shift, care)) => self.set_care(inst, room, shift, care),
                None => {}
            }
        }
        self.count = 0;
    }

    fn make(&mut self, inst: &Instance, mv: &Move) {
        match *mv {
            Move::Idle => {}
            Move::Place(p, at) => self.set_stay(inst, p, Some(at)),
            Move::Withdraw(p) => self.set_stay(inst, p, None),
            Move::Nurse(r, k, n) => self.set_care(inst, r, k, Some(n)),
            Move::NurseRun(n, r, d, len) => {
                let first = d.0.saturating_mul(3);
                let end = d.0.saturating_add(len).saturating_mul(3);
                self.set_run(inst, n, r, first, end.min(inst.shifts()));
            }
            Move::SwapNurses(k, a, b) => {
                let of_a = self.here.care(place_of(inst.shifts(), a, k.0));
                let of_b = self.here.care(place_of(inst.shifts(), b, k.0));
                self.set_care(inst, a, k, of_b);
                self.set_care(inst, b, k, of_a);
            }
            Move::SetDay(p, _)
            | Move::SetRoom(p, _)
            | Move::SetTheatre(p, _)
            | Move::SwapRooms(p, _) => {
                if let Some(at) = self.here.stay(p) {
                    self.change_stay(inst, mv, at);
                }
            }
        }
    }

    // Makes a move that changes a part of a placement, which is this one.
    fn change_stay(&mut self, inst: &Instance, mv: &Move, at: Placement) {
        let (day, room, theatre) = (at.day, at.room, at.theatre);
        match *mv {
            Move::SetDay(p, day) => {
                self.set_stay(inst, p, Some(Placement { day, room, theatre }));
            }
            Move::SetRoom(p, room) => {
                self.set_stay(inst, p, Some(Placement { day, room, theatre }));
            }
            Move::SetTheatre(p, theatre) => {
                self.set_stay(inst, p, Some(Placement { day, room, theatre }));
            }
            Move::SwapRooms(p, q) => {
                if let Some(other) = self.here.stay(q) {
                    let own = Placement {
                        day,
                        room: other.room,
                        theatre,
                    };
                    let moved = Placement {
                        day: other.day,
                        room,
                        theatre: other.theatre,
                    };
                    self.set_stay(inst, p, Some(own));
                    self.set_stay(inst, q, Some(moved));
                }
            }
            _ => {}
        }
    }

    // The nurse takes the room in the shifts from the first to before the end that the nurse works.
    fn set_run(&mut self, inst: &Instance, nurse: NurseNo, room: RoomNo, first: u32, end: u32) {
        if nurse.0 >= inst.nurses() {
            return;
        }
        for k in first..end {
            if k < inst.shifts() && inst.works(nurse, Shift(k)).is_some() {
                self.set_care(inst, room, Shift(k), Some(nurse));
            }
        }
    }

    fn set_stay(&mut self, inst: &Instance, patient: PatientNo, stay: Option<Placement>) {
        let was = self.here.stay(patient);
        if patient.0 >= inst.patients() || was == stay {
            return;
        }
        self.note(Write::SetStay(patient, was));
        let first = self.start.stay(patient);
        self.count_change(was != first, stay != first);
        let length = inst.patient(patient).length_of_stay;
        if let Some(at) = was {
            self.leave(inst, at.room, at.day.0, end_from(inst, at.day.0, length));
        }
        self.here.set_stay(patient, stay);
        if let Some(at) = stay {
            self.enter(inst, at.room, at.day.0, end_from(inst, at.day.0, length));
        }
    }

    fn set_care(&mut self, inst: &Instance, room: RoomNo, shift: Shift, care: Option<NurseNo>) {
        let place = place_of(inst.shifts(), room, shift.0);
        let was = self.here.care(place);
        if was == care {
            return;
        }
        self.note(Write::SetCare(room, shift, was));
        if self.persons_in(inst, room, shift.0 / 3) > 0 {
            let first = self.start.care(place);
            self.count_change(was != first, care != first);
        }
        self.here.set_care(place, care);
    }

    fn note(&mut self, write: Write) {
        if self.count < self.overwritten.len() {
            self.overwritten[self.count] = write;
            self.count += 1;
        }
    }

    fn count_change(&mut self, was_one: bool, is_one: bool) {
        let more = self.changes.saturating_add(bit(is_one));
        self.changes = more.saturating_sub(bit(was_one));
    }

    fn persons_in(&self, inst: &Instance, room: RoomNo, day: u32) -> u32 {
        let place = place_of(inst.days(), room, day);
        self.persons.as_slice().get(place).copied().unwrap_or(0)
    }

    fn set_persons(&mut self, inst: &Instance, room: RoomNo, day: u32, count: u32) {
        let place = place_of(inst.days(), room, day);
        if place < self.persons.len() {
            self.persons[place] = count;
        }
    }

    // In how many shifts of the day the room has another nurse than in the start.
    fn other_nurses(&self, inst: &Instance, room: RoomNo, day: u32) -> u32 {
        let mut count = 0u32;
        for j in 0..3 {
            let place = place_of(inst.shifts(), room, day.saturating_mul(3).saturating_add(j));
            let is_other = self.here.care(place) != self.start.care(place);
            count = count.saturating_add(bit(is_other));
        }
        count
    }

    // A person comes to the room for these days. Where nobody was there, the nurses count from now on.
    fn enter(&mut self, inst: &Instance, room: RoomNo, from: u32, to: u32) {
        for day in from..to {
            let before = self.persons_in(inst, room, day);
            self.set_persons(inst, room, day, before.saturating_add(1));
            if before == 0 {
                let more = self.other_nurses(inst, room, day);
                self.changes = self.changes.saturating_add(more);
            }
        }
    }

    // A person leaves the room for these days. Where nobody is left, the nurses don't count any more.
    fn leave(&mut self, inst: &Instance, room: RoomNo, from: u32, to: u32) {
        for day in from..to {
            let before = self.persons_in(inst, room, day);
            self.set_persons(inst, room, day, before.saturating_sub(1));
            if before == 1 {
                let less = self.other_nurses(inst, room, day);
                self.changes = self.changes.saturating_sub(less);
            }
        }
    }
}
