//! What is said of a handover, part by part: of whom, how much and how.

ghost use Rattle.std.specs.Prelude.{◌≡◌, ◌<◌, ◌≤◌, ◌++◌, OnOk, [], codes};
ghost use Rattle.std.specs.Option.{option_map_or};
ghost use Rattle.ih_carry.specs.Losses.{is_lost_by, loss_text};

use crate::handovers::Handover;
use crate::ids::{is_occupant, nurse_id, patient_id, patient_with, person_id};
use crate::losses::Loss;
use crate::texts::{Put, put, put_number};
use ih_plan::{Placement, bit, nurse_at};
use ih_tables::{NurseNo, PatientNo, RoomNo, Shift};

/// A part of what is said.
#[derive(Clone, Copy, Debug, PartialEq, Eq)]
pub enum Part {
    /// Patients whom only the next ward knows.
    New,
    /// Patients whom the next ward doesn't know.
    Gone,
    /// Patients whose stays aren't kept.
    Dropped,
    /// Nurses who lose rooms and shifts for this reason.
    Lost(Loss),
    /// Persons who should be occupants of the next ward.
    Lying,
}

// Whether it isn't kept, for this reason.
fn is_lost_by(loss: Loss, handed: Result<NurseNo, Loss>) -> bool
    ensures { result ≡ is_lost_by loss handed }
{
    match handed {
        Ok(_) => false,
        Err(why) => why.is(loss),
    }
}

impl<'a> Handover<'a> {
    ghost use Rattle.ih_tables.specs.Sizes.{nurse_count, patient_count, person_count, room_count, shift_count};
    ghost use Rattle.ih_carry.specs.Account.{has_gone, is_lost, is_lying, is_new, is_no_occupant, is_there, line_if};
    ghost use Rattle.ih_carry.specs.Account.{lost, lost_in, part_number, part_size, said_of};
    ghost use Rattle.ih_carry.specs.declared.parts.Part.TheVariants.{Dropped, Lost as Losing};
    ghost use Rattle.ih_carry.specs.Handovers.{handover_of};

    // Whether the ward doesn't know the patient of the next one.
    fn is_new(&self, patient: PatientNo) -> bool
        requires { patient.0 < patient_count self.now.next.now.draft }
        ensures { result ≡ is_new (handover_of self.now) patient.0 }
    {
        patient_with(self.ward, patient_id(self.next, patient)).is_none()
    }

    // Whether the next ward has neither a patient nor an occupant with the patient's id.
    fn has_gone(&self, patient: PatientNo) -> bool
        requires { patient.0 < patient_count self.now.ward.now.draft }
        ensures { result ≡ has_gone (handover_of self.now) patient.0 }
    {
        let id = patient_id(self.ward, patient);
        patient_with(self.next, id).is_none() && !is_occupant(self.next, id)
    }

    // Whether the nurse has the room in the shift, and loses it for this reason.
    fn is_lost(&self, nurse: NurseNo, loss: Loss, room: RoomNo, shift: Shift) -> bool
        requires nurse { nurse.0 < nurse_count self.now.ward.now.draft }
        requires room { room.0 < room_count self.now.ward.now.draft }
        requires shift { shift.0 < shift_count self.now.ward.now.draft }
        ensures { result ≡ is_lost (handover_of self.now) nurse.0 loss room.0 shift.0 }
    {
        match nurse_at(self.ward, self.plan, room, shift) {
            None => false,
            Some(m) => m.0 == nurse.0 && is_lost_by(loss, self.handed(room, shift, nurse)),
        }
    }

    // In how many shifts the nurse loses the room so.
    #[tactic(auto, using(ih_plan::proofs::SumLemmas::sum_steps), unfolding(crate::specs::Account::lost_in))]
    fn lost_in(&self, nurse: NurseNo, loss: Loss, room: RoomNo) -> u32
        requires nurse { nurse.0 < nurse_count self.now.ward.now.draft }
        requires room { room.0 < room_count self.now.ward.now.draft }
        ensures value { result ≡ lost_in (handover_of self.now) nurse.0 loss room.0 }
        ensures bound { result ≤ 168 }
    {
        let mut count = 0;
        for k in 0..self.ward.shifts() {
            count += bit(self.is_lost(nurse, loss, room, Shift(k)));
        }
        count
    }

    // How many rooms and shifts the nurse loses so.
    #[tactic(auto, using(ih_plan::proofs::SumLemmas::sum_steps), unfolding(crate::specs::Account::lost))]
    fn lost(&self, nurse: NurseNo, loss: Loss) -> u32
        requires { nurse.0 < nurse_count self.now.ward.now.draft }
        ensures value { result ≡ lost (handover_of self.now) nurse.0 loss }
        ensures bound { result ≤ 21504 }
    {
        let mut count = 0;
        for r in 0..self.ward.rooms() {
            count += self.lost_in(nurse, loss, RoomNo(r));
        }
        count
    }

    // Whether a stay of so many days was begun before the day of the handover, and has that day.
    fn is_lying(&self, stay: Option<Placement>, len: u32) -> bool
        ensures { result ≡ is_lying (handover_of self.now) stay len }
    {
        match stay {
            None => false,
            Some(at) => {
                at.day.0 < self.days && (self.days as u64) < at.day.0 as u64 + len as u64
            }
        }
    }

    // Whether the person came before the day of the handover, and is there on it.
    #[tactic(auto, unfolding(ih_plan::specs::Persons::person_of))]
    fn is_there(&self, person: u32) -> bool
        requires { person < person_count self.now.ward.now.draft }
        ensures { result ≡ is_there (handover_of self.now) person }
    {
        let patients = self.ward.patients();
        if person < patients {
            let len = self.ward.patient(PatientNo(person)).length_of_stay;
            self.is_lying(self.plan.stay(PatientNo(person)), len)
        } else {
            self.days < self.ward.occupant(person - patients).length_of_stay
        }
    }

    // Whether the person is there, and no occupant of the next ward.
    fn is_no_occupant(&self, person: u32) -> bool
        requires { person < person_count self.now.ward.now.draft }
        ensures { result ≡ is_no_occupant (handover_of self.now) person }
    {
        self.is_there(person) && !is_occupant(self.next, person_id(self.ward, person))
    }

    /// Of how many a part may say something.
    pub fn part_size(&self, part: Part) -> u32
        ensures value { result ≡ part_size (handover_of self.now) part }
        ensures bound { result ≤ 2560 }
    {
        match part {
            Part::New | Part::Dropped => self.next.patients(),
            Part::Gone => self.ward.patients(),
            Part::Lost(_) => self.ward.nurses(),
            Part::Lying => self.ward.persons(),
        }
    }

    /// How much there is to say of one of them.
    pub fn part_number(&self, part: Part, item: u32) -> u32
        requires { item < part_size (handover_of self.now) part }
        ensures value { result ≡ part_number (handover_of self.now) part item }
        ensures bound { result ≤ 21504 }
    {
        match part {
            Part::New => bit(self.is_new(PatientNo(item))),
            Part::Gone => bit(self.has_gone(PatientNo(item))),
            Part::Dropped => bit(self.lost_stay(PatientNo(item)).is_some()),
            Part::Lost(loss) => self.lost(NurseNo(item), loss),
            Part::Lying => bit(self.is_no_occupant(item)),
        }
    }

    // Appends a patient whose stay isn't kept, with the reason.
    fn put_dropped(&self, out: &mut Vec<u8>, patient: PatientNo) -> Put
        requires { patient.0 < patient_count self.now.next.now.draft }
        ensures { OnOk result (out.new.items ≡ out.old.items ++ said_of (handover_of self.now) Dropped patient.0 0) }
    {
        put(out, "dropped: ")?;
        put(out, patient_id(self.next, patient))?;
        put(out, ", ")?;
        put_reason(out, self.lost_stay(patient))?;
        put(out, "\n")
    }

    // Appends how much a nurse loses, with the reason.
    fn put_lost(&self, out: &mut Vec<u8>, nurse: NurseNo, loss: Loss, number: u32) -> Put
        requires { nurse.0 < nurse_count self.now.ward.now.draft }
        ensures { OnOk result
            (out.new.items ≡ out.old.items ++ said_of (handover_of self.now) (Losing loss) nurse.0 number) }
    {
        put(out, "nurse ")?;
        put(out, nurse_id(self.ward, nurse))?;
        put(out, ": ")?;
        put_number(out, number, " dropped, ")?;
        put(out, loss.text())?;
        put(out, "\n")
    }

    // Appends a line on one of a part, of whom there is so much to say.
    fn put_said(&self, out: &mut Vec<u8>, part: Part, item: u32, number: u32) -> Put
        requires { item < part_size (handover_of self.now) part }
        ensures { OnOk result (out.new.items ≡ out.old.items ++ said_of (handover_of self.now) part item number) }
    {
        match part {
            Part::New => put_named(out, "new: ", patient_id(self.next, PatientNo(item))),
            Part::Gone => put_named(out, "gone: ", patient_id(self.ward, PatientNo(item))),
            Part::Dropped => self.put_dropped(out, PatientNo(item)),
            Part::Lost(loss) => self.put_lost(out, NurseNo(item), loss, number),
            Part::Lying => put_named(out, "no occupant: ", person_id(self.ward, item)),
        }
    }

    /// Appends a line, where there is something to say.
    pub fn put_line(&self, out: &mut Vec<u8>, part: Part, item: u32, number: u32) -> Put
        requires { item < part_size (handover_of self.now) part }
        ensures { OnOk result (out.new.items ≡ out.old.items ++ line_if (handover_of self.now) part item number) }
    {
        if number == 0 {
            Ok(())
        } else {
            self.put_said(out, part, item, number)
        }
    }
}

// Appends a reason, where there is one.
fn put_reason(out: &mut Vec<u8>, loss: Option<Loss>) -> Put
    ensures { OnOk result (out.new.items ≡ out.old.items ++ option_map_or loss_text loss []) }
{
    match loss {
        Some(loss) => put(out, loss.text()),
        None => Ok(()),
    }
}

// Appends what is said of someone.
fn put_named(out: &mut Vec<u8>, what: &str, id: &str) -> Put
    ensures { OnOk result (out.new.items ≡ out.old.items ++ (what.now ++ (id.now ++ codes "\n"))) }
{
    put(out, what)?;
    put(out, id)?;
    put(out, "\n")
}
