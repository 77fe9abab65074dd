//! What a proposal looks at.

ghost use Rattle.std.specs.Prelude.{◌≡◌, ◌≤◌};

use crate::free_rooms::FreeRooms;
use ih_costs::Ledgers;
use ih_plan::{Placement, nurse_at};
use ih_roomdays::RoomDays;
use ih_tables::bill_numbers::{
    CONTINUITY_OF_CARE, EXCESS_WORKLOAD, NURSE_PRESENCE, NURSE_SKILL, OPEN_THEATRE,
    SURGEON_OVERRUN, SURGEON_TRANSFER, THEATRE_OVERRUN, UNCOVERED_ROOM,
};
use ih_tables::{Bill, Instance, NurseNo, PatientNo, RoomNo, Shift};
use ih_theatres::Theatres;

// Wards with more persons are large.
const MOST_PERSONS: u32 = 128;

/// Whether the ward has so few persons that an attempt may look at all who are there on a day.
pub fn is_small(inst: &Instance) -> bool {
    inst.persons() <= MOST_PERSONS
}

/// A timetable of an instance, by its ledgers, and what a broken rule weighs in a score.
#[derive(Drop)]
pub struct Situation<'a> {
    pub inst: &'a Instance,
    pub ledgers: &'a Ledgers<'a>,
    pub hard: u32,
    /// The rooms with a bed there, where they are kept.
    pub free: Option<&'a FreeRooms>,
    pub ghost ledgers_fit: { ledgers.now.instance ≡ inst.now.draft },
    pub ghost hard_fits: { hard ≤ 1000000 },
}

impl<'a> Situation<'a> {
    ghost use Rattle.std.specs.Prelude.{◌<◌, ◌^◌, ◌<ℤ◌, neg_ℤ, pos, IfSome};
    ghost use Rattle.ih_tables.specs.Sizes.{patient_count, room_count, shift_count, nurse_count};
    ghost use Rattle.ih_tables.specs.Bills.{IsWithin};
    ghost use Rattle.ih_plan.specs.Timetable.{Timetable, IsPlacement, stay_of};
    ghost use Rattle.ih_roomdays.specs.Ledger.{IsLedgerOf as AreRoomDaysOf};
    ghost use Rattle.ih_theatres.specs.Ledger.{IsLedgerOf as AreTheatresOf};

    /// The situation at the timetable of these ledgers.
    pub fn new(
        inst: &'a Instance,
        hard: u32,
        ledgers: &'a Ledgers<'a>,
        free: Option<&'a FreeRooms>,
    ) -> Situation<'a>
        requires instance { ledgers.now.instance ≡ inst.now.draft }
        requires hard { hard ≤ 1000000 }
        ensures { result.inst.now ≡ inst.now }
    {
        Situation {
            inst,
            ledgers,
            hard,
            free,
        }
    }

    /// The stay of a patient, where the patient is admitted.
    #[inline(always)]
    pub fn stay(&self, patient: PatientNo) -> Option<Placement>
        requires { patient.0 < patient_count self.now.inst.now.draft }
        ensures value { stay_of self.now.ledgers.now.plan patient.0 ≡ result }
        ensures inside { IfSome result (IsPlacement self.now.inst.now.draft) }
    {
        self.ledgers.plan().stay(patient)
    }

    /// The nurse of a room in a shift, where it has one.
    #[inline(always)]
    pub fn nurse(&self, room: RoomNo, shift: Shift) -> Option<NurseNo>
        requires room { room.0 < room_count self.now.inst.now.draft }
        requires shift { shift.0 < shift_count self.now.inst.now.draft }
        ensures { IfSome result (λ n. n.0 < nurse_count self.now.inst.now.draft) }
    {
        nurse_at(self.inst, self.ledgers.plan(), room, shift)
    }

    /// Who is in each room on each day.
    #[inline(always)]
    pub fn room_days(&self) -> &RoomDays
        ensures { (P : Timetable) × AreRoomDaysOf self.now.inst.now.draft P result.now }
    {
        self.ledgers.room_days()
    }

    /// Who has surgery in each theatre on each day.
    #[inline(always)]
    pub fn theatres(&self) -> &Theatres
        ensures { AreTheatresOf self.now.inst.now.draft self.now.ledgers.now.plan result.now }
    {
        self.ledgers.theatres()
    }

    /// The score of a bill, or of a change of one: the weighted costs, and `hard` for each unit of a broken hard rule.
    #[inline(always)]
    pub fn score(&self, bill: &Bill) -> i64
        requires { IsWithin (10 ^ 11) bill.now }
        ensures low { neg_ℤ (pos (10 ^ 18)) <ℤ result }
        ensures high { result <ℤ pos (10 ^ 18) }
    {
        self.inst.score_of(self.hard, bill)
    }

    /// The score of a change of nursing: its other numbers aren't looked at.
    #[inline(always)]
    pub fn score_of_care(&self, bill: &Bill) -> i64 {
        let weights = &self.inst.weights().w;
        let broken = bill.v[NURSE_PRESENCE].saturating_add(bill.v[UNCOVERED_ROOM]);
        i64::from(self.hard)
            .saturating_mul(broken)
            .saturating_add(weights[NURSE_SKILL].saturating_mul(bill.s[NURSE_SKILL]))
            .saturating_add(weights[CONTINUITY_OF_CARE].saturating_mul(bill.s[CONTINUITY_OF_CARE]))
            .saturating_add(weights[EXCESS_WORKLOAD].saturating_mul(bill.s[EXCESS_WORKLOAD]))
    }

    /// The score of a change of surgery: its other numbers aren't looked at.
    #[inline(always)]
    pub fn score_of_surgery(&self, bill: &Bill) -> i64 {
        let weights = &self.inst.weights().w;
        let broken = bill.v[SURGEON_OVERRUN].saturating_add(bill.v[THEATRE_OVERRUN]);
        i64::from(self.hard)
            .saturating_mul(broken)
            .saturating_add(weights[OPEN_THEATRE].saturating_mul(bill.s[OPEN_THEATRE]))
            .saturating_add(weights[SURGEON_TRANSFER].saturating_mul(bill.s[SURGEON_TRANSFER]))
    }
}
