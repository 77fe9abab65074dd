//! A ward with its timetable and the ward that comes next: which choices it keeps.

ghost use Rattle.ih_plan.specs.Timetable.{IsPlanOf};

use crate::ids::{
    nurse_id, nurse_with, patient_id, patient_with, room_id, room_with, theatre_id, theatre_with,
};
use crate::losses::Loss;
use ih_plan::{Placement, Plan, nurse_at};
use ih_tables::{Day, Instance, NurseNo, PatientNo, RoomNo, Shift, TheatreNo};

/// A ward with its timetable, and the ward that comes next: after something happened, or some days later. Patients,
/// rooms, theatres and nurses are the same where they have one id, shifts where they have one place in the day.
#[derive(Drop)]
pub struct Handover<'a> {
    pub ward: &'a Instance,
    pub plan: &'a Plan,
    pub next: &'a Instance,
    /// The day of the ward that is day 0 of the next one.
    pub days: u32,
    pub ghost fits: { IsPlanOf ward.now.draft plan.now },
}

impl<'a> Handover<'a> {
    ghost use Rattle.std.specs.Prelude.{◌≡◌, ◌<◌, ◌+◌, IfOk, IfSome};
    ghost use Rattle.ih_tables.specs.Sizes.{nurse_count, patient_count, room_count, shift_count, theatre_count};
    ghost use Rattle.ih_plan.specs.Timetable.{IsPlacement};
    ghost use Rattle.ih_carry.specs.Handovers.{day_in, handed, handover_of, kept_nurse, kept_stay, known_nurse};
    ghost use Rattle.ih_carry.specs.Handovers.{known_stay, lost_stay, nurse_in, nurse_of, placed, room_in, theatre_in};

    // A day of the ward, in the next one.
    fn day_in(&self, day: Day) -> Result<Day, Loss>
        ensures value { result ≡ day_in (handover_of self.now) day.0 }
        ensures days { IfOk result (λ d. self.now.days + d.0 ≡ day.0) }
        ensures inside { IfOk result (λ d. d.0 < self.now.next.now.draft.days) }
    {
        if day.0 < self.days {
            Err(Loss::Before)
        } else if day.0 - self.days < self.next.days() {
            Ok(Day(day.0 - self.days))
        } else {
            Err(Loss::Past)
        }
    }

    // A room of the ward, in the next one.
    fn room_in(&self, room: RoomNo) -> Result<RoomNo, Loss>
        requires { room.0 < room_count self.now.ward.now.draft }
        ensures value { result ≡ room_in (handover_of self.now) room.0 }
        ensures inside { IfOk result (λ r. r.0 < room_count self.now.next.now.draft) }
    {
        match room_with(self.next, room_id(self.ward, room)) {
            Some(room) => Ok(room),
            None => Err(Loss::RoomGone),
        }
    }

    // A theatre of the ward, in the next one.
    fn theatre_in(&self, theatre: TheatreNo) -> Result<TheatreNo, Loss>
        requires { theatre.0 < theatre_count self.now.ward.now.draft }
        ensures value { result ≡ theatre_in (handover_of self.now) theatre.0 }
        ensures inside { IfOk result (λ t. t.0 < theatre_count self.now.next.now.draft) }
    {
        match theatre_with(self.next, theatre_id(self.ward, theatre)) {
            Some(theatre) => Ok(theatre),
            None => Err(Loss::TheatreGone),
        }
    }

    // A placement in the ward, in the next one.
    #[tactic(auto, unfolding(crate::specs::Handovers::placed))]
    fn placed(&self, at: Placement) -> Result<Placement, Loss>
        requires { IsPlacement self.now.ward.now.draft at }
        ensures value { result ≡ placed (handover_of self.now) at }
        ensures inside { IfOk result (IsPlacement self.now.next.now.draft) }
    {
        let day = self.day_in(at.day)?;
        let room = self.room_in(at.room)?;
        let theatre = self.theatre_in(at.theatre)?;
        Ok(Placement { day, room, theatre })
    }

    // The stay in the ward of a patient of the next one.
    #[tactic(auto, using(crate::proofs::Known::stay_steps))]
    fn known_stay(&self, patient: PatientNo) -> Option<Placement>
        requires { patient.0 < patient_count self.now.next.now.draft }
        ensures value { result ≡ known_stay (handover_of self.now) patient.0 }
        ensures inside { IfSome result (IsPlacement self.now.ward.now.draft) }
    {
        match patient_with(self.ward, patient_id(self.next, patient)) {
            Some(known) => self.plan.stay(known),
            None => None,
        }
    }

    /// The stay that a patient of the next ward keeps.
    pub fn kept_stay(&self, patient: PatientNo) -> Option<Placement>
        requires { patient.0 < patient_count self.now.next.now.draft }
        ensures value { result ≡ kept_stay (handover_of self.now) patient.0 }
        ensures inside { IfSome result (IsPlacement self.now.next.now.draft) }
    {
        match self.known_stay(patient) {
            Some(at) => self.placed(at).ok(),
            None => None,
        }
    }

    /// Why a patient of the next ward loses the stay, where the ward had one.
    pub fn lost_stay(&self, patient: PatientNo) -> Option<Loss>
        requires { patient.0 < patient_count self.now.next.now.draft }
        ensures { result ≡ lost_stay (handover_of self.now) patient.0 }
    {
        match self.known_stay(patient) {
            Some(at) => self.placed(at).err(),
            None => None,
        }
    }

    // A nurse of the ward, for a shift of the next one.
    #[tactic(auto, unfolding(crate::specs::Handovers::nurse_in))]
    fn nurse_in(&self, shift: Shift, nurse: NurseNo) -> Result<NurseNo, Loss>
        requires shift { shift.0 < shift_count self.now.next.now.draft }
        requires nurse { nurse.0 < nurse_count self.now.ward.now.draft }
        ensures value { result ≡ nurse_in (handover_of self.now) shift.0 nurse.0 }
        ensures inside { IfOk result (λ n. n.0 < nurse_count self.now.next.now.draft) }
    {
        match nurse_with(self.next, nurse_id(self.ward, nurse)) {
            Some(nurse) => match self.next.works(nurse, shift) {
                Some(_) => Ok(nurse),
                None => Err(Loss::OffDuty),
            },
            None => Err(Loss::NurseGone),
        }
    }

    // The nurse in the ward of a room and shift of the next one.
    fn known_nurse(&self, room: RoomNo, shift: Shift) -> Option<NurseNo>
        requires { room.0 < room_count self.now.next.now.draft }
        ensures value { result ≡ known_nurse (handover_of self.now) room.0 shift.0 }
        ensures inside { IfSome result (λ n. n.0 < nurse_count self.now.ward.now.draft) }
    {
        match room_with(self.ward, room_id(self.next, room)) {
            Some(room) => self.nurse_of(room, shift.0 as u64 + 3 * self.days as u64),
            None => None,
        }
    }

    // The nurse of a room in a shift of the ward; shifts past the last have none.
    fn nurse_of(&self, room: RoomNo, shift: u64) -> Option<NurseNo>
        requires { room.0 < room_count self.now.ward.now.draft }
        ensures value { result ≡ nurse_of (handover_of self.now) room.0 shift }
        ensures inside { IfSome result (λ n. n.0 < nurse_count self.now.ward.now.draft) }
    {
        if shift < self.ward.shifts() as u64 {
            nurse_at(self.ward, self.plan, room, Shift(shift as u32))
        } else {
            None
        }
    }

    /// The nurse that a room of the next ward keeps in a shift.
    #[tactic(auto, unfolding(crate::specs::Handovers::kept_nurse))]
    pub fn kept_nurse(&self, room: RoomNo, shift: Shift) -> Option<NurseNo>
        requires room { room.0 < room_count self.now.next.now.draft }
        requires shift { shift.0 < shift_count self.now.next.now.draft }
        ensures value { result ≡ kept_nurse (handover_of self.now) room.0 shift.0 }
        ensures inside { IfSome result (λ n. n.0 < nurse_count self.now.next.now.draft) }
    {
        match self.known_nurse(room, shift) {
            Some(nurse) => self.nurse_in(shift, nurse).ok(),
            None => None,
        }
    }

    /// A nurse of a room and shift of the ward, as the nurse of that room and shift in the next one.
    #[tactic(auto, unfolding(crate::specs::Handovers::handed))]
    pub fn handed(&self, room: RoomNo, shift: Shift, nurse: NurseNo) -> Result<NurseNo, Loss>
        requires room { room.0 < room_count self.now.ward.now.draft }
        requires shift { shift.0 < shift_count self.now.ward.now.draft }
        requires nurse { nurse.0 < nurse_count self.now.ward.now.draft }
        ensures { result ≡ handed (handover_of self.now) room.0 shift.0 nurse.0 }
    {
        let _day = self.day_in(Day(shift.0 / 3))?;
        let _room = self.room_in(room)?;
        self.nurse_in(Shift(shift.0 - 3 * self.days), nurse)
    }
}
