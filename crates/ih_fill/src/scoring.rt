//! A timetable, and what writes would add to its score.

ghost use Rattle.std.specs.Prelude.{◌≡◌, ◌≤◌, ◌^◌};
ghost use Rattle.ih_tables.specs.Bills.{IsWithin};
ghost use Rattle.ih_fill.specs.Fill.{without_uncovered};

use crate::candidates::Candidate;
use ih_costs::Ledgers;
use ih_plan::{Placement, Plan, Write};
use ih_tables::bill_numbers::UNCOVERED_ROOM;
use ih_tables::{Bill, Day, Instance, NurseNo, PatientNo, RoomNo, Shift};
use std::alloc::{AllocError, Global};
use std::marker::Model;

/// A timetable, and ledgers that tell what a write would add to its score. After `new` no call takes memory.
#[derive(Drop)]
pub struct Scorer<'a> {
    inst: &'a Instance,
    hard: u32,
    // Whether rooms without nurses count in what a stay adds.
    counts_uncovered: bool,
    ledgers: Ledgers<'a>,
}

impl<'a> Model for Scorer<'a> {
    ghost use Rattle.std.specs.Prelude.{◌≡◌, ◌≤◌};
    ghost use Rattle.ih_fill.specs.ScorerState.{ScorerState, IsScoring};

    ghost Value = { ScorerState };

    ghost view = { λ f. record {
      instance = f.inst.now.draft;
      hard = f.hard;
      counts_uncovered = f.counts_uncovered;
      plan = f.ledgers.plan;
    } };

    ghost invariant = { λ f. IsScoring f.inst.now.draft f.hard f.ledgers };
}

// A bill in which rooms without nurses don't count.
fn without_uncovered(bill: &Bill) -> Bill
    requires { IsWithin (10 ^ 11) bill.now }
    ensures value { result ≡ without_uncovered bill.now }
    ensures within { IsWithin (10 ^ 11) result }
{
    let mut v = bill.v;
    v[UNCOVERED_ROOM] = 0;
    Bill { v, s: bill.s }
}

impl<'a> Scorer<'a> {
    ghost use Rattle.std.specs.Prelude.{◌≡◌, ◌≤◌, ◌<◌, Some, None, true, not, IfOk};
    ghost use Rattle.ih_tables.specs.Sizes.{patient_count, room_count, nurse_count, shift_count};
    ghost use Rattle.ih_plan.specs.{declared.moves.Write.TheVariants.SetStay, declared.moves.Write.TheVariants.SetCare};
    ghost use Rattle.ih_plan.specs.{Timetable.IsPlanOf, Timetable.IsPlacement, Writes.put, Writes.IsWriteOf};
    ghost use Rattle.ih_plan.specs.{Presence.present, Presence.day_of, Costs.is_empty, BillOf.change_of_bill};
    ghost use Rattle.ih_fill.specs.ScorerState.{stay_value, care_value, view_of};
    ghost use Rattle.ih_fill.specs.{Fill.write_score, Candidates.valued};

    /// What scores a timetable. `hard` is the weight of a broken rule; `counts_uncovered` says whether rooms without
    /// nurses count in what a stay adds.
    pub fn new(
        alloc: Global,
        inst: &'a Instance,
        hard: u32,
        counts_uncovered: bool,
        plan: &Plan,
    ) -> Result<Scorer<'a>, AllocError>
        requires plan { IsPlanOf inst.now.draft plan.now }
        requires hard { hard ≤ 1000000 }
        ensures { IfOk result
            (λ f. f ≡ record {
              instance = inst.entry.now.draft;
              hard = hard;
              counts_uncovered = counts_uncovered;
              plan = plan.now;
            }) }
    {
        let ledgers = Ledgers::new(alloc, inst, plan)?;
        Ok(Scorer {
            inst,
            hard,
            counts_uncovered,
            ledgers,
        })
    }

    /// The timetable, which fits the instance.
    pub fn plan(&self) -> &Plan
        ensures value { result.now ≡ self.now.plan }
        ensures fits { IsPlanOf self.now.instance self.now.plan }
    {
        self.ledgers.plan()
    }

    /// A fact for the caller's proof: the timetable fits the instance.
    pub fn fits(&self)
        ensures { IsPlanOf self.now.instance self.now.plan }
    {
        let _ = self.ledgers.plan();
    }

    /// Whether the room has a person in the shift.
    pub fn is_occupied(&self, room: RoomNo, shift: Shift) -> bool
        requires room { room.0 < room_count self.now.instance }
        requires shift { shift.0 < shift_count self.now.instance }
        ensures { result ≡ not (is_empty (present self.now.instance self.now.plan room.0 (day_of shift.0))) }
    {
        self.ledgers.is_occupied(room, Day(shift.0 / 3))
    }

    /// What a write would add to the bill, number by number.
    pub fn price(&self, write: &Write) -> Bill
        requires { IsWriteOf self.now.instance write.now }
        ensures { result ≡ change_of_bill self.now.instance self.now.plan (put write.now self.now.plan) }
    {
        self.ledgers.price_write(write)
    }

    // What a write would add to the score, where rooms without nurses count or don't.
    fn score(&self, write: &Write, counts_uncovered: bool) -> i64
        requires { IsWriteOf self.now.instance write.now }
        ensures { result ≡ write_score self.now.instance self.now.hard
            (view_of counts_uncovered) self.now.plan write.now }
    {
        let price = self.ledgers.price_write(write);
        if counts_uncovered {
            self.inst.score_of(self.hard, &price)
        } else {
            self.inst.score_of(self.hard, &without_uncovered(&price))
        }
    }

    // A write as a candidate.
    fn valued(&self, write: Write, counts_uncovered: bool) -> Candidate
        requires { IsWriteOf self.now.instance write }
        ensures { result ≡ valued
            (write_score self.now.instance self.now.hard (view_of counts_uncovered) self.now.plan) write }
    {
        let value = self.score(&write, counts_uncovered);
        Candidate { write, value }
    }

    /// That a patient is out, as a candidate.
    pub fn left_out(&self, patient: PatientNo) -> Candidate
        requires { patient.0 < patient_count self.now.instance }
        ensures { result ≡ valued (stay_value self.now) (SetStay patient None) }
    {
        self.valued(Write::SetStay(patient, None), self.counts_uncovered)
    }

    /// A patient's stay as a candidate.
    pub fn stay(&self, patient: PatientNo, at: Placement) -> Candidate
        requires patient { patient.0 < patient_count self.now.instance }
        requires placed { IsPlacement self.now.instance at }
        ensures { result ≡ valued (stay_value self.now) (SetStay patient (Some at)) }
    {
        self.valued(Write::SetStay(patient, Some(at)), self.counts_uncovered)
    }

    /// That a room has no nurse in a shift, as a candidate.
    pub fn no_nurse(&self, room: RoomNo, shift: Shift) -> Candidate
        requires room { room.0 < room_count self.now.instance }
        requires shift { shift.0 < shift_count self.now.instance }
        ensures { result ≡ valued (care_value self.now) (SetCare room shift None) }
    {
        self.valued(Write::SetCare(room, shift, None), true)
    }

    /// A room's nurse in a shift as a candidate.
    pub fn care(&self, room: RoomNo, shift: Shift, nurse: NurseNo) -> Candidate
        requires room { room.0 < room_count self.now.instance }
        requires shift { shift.0 < shift_count self.now.instance }
        requires nurse { nurse.0 < nurse_count self.now.instance }
        ensures { result ≡ valued (care_value self.now) (SetCare room shift (Some nurse)) }
    {
        self.valued(Write::SetCare(room, shift, Some(nurse)), true)
    }

    /// Makes a write.
    pub fn put(&mut self, write: &Write)
        requires { IsWriteOf self.old.instance write.now }
        ensures { self.new ≡ record self.old { plan = put write.now self.old.plan } }
    {
        self.ledgers.put(write);
    }
}
