//! The ledger of nurses.

ghost use Rattle.std.specs.Prelude.{◌≡◌, ◌<◌, None, Some, IfOk};
ghost use Rattle.ih_tables.specs.declared.cells.Cell.TheVariants.{RoomShift, NurseShift, Care};
ghost use Rattle.ih_tables.specs.Sizes.{patient_count, person_count, room_count, shift_count, nurse_count};
ghost use Rattle.ih_tables.specs.{declared.drafts.Draft.Draft, declared.ids.NurseNo.NurseNo};
ghost use Rattle.ih_plan.specs.Timetable.{Timetable, IsPlacement, stay_of, empty};
ghost use Rattle.ih_plan.specs.{declared.moves.Write.TheVariants.SetStay, declared.moves.Write.TheVariants.SetCare};
ghost use Rattle.ih_plan.specs.{Writes.put};
ghost use Rattle.ih_nurses.specs.Ledger.{IsLedgerOf, TellsPart, plan_of};

use crate::bills::{NursingCosts, bill_of};
use crate::counts::{add_shift_span, move_counts, take_shift_span};
use crate::loads::{NurseLoad, load, move_load, overload};
use crate::presence::{enter_days, leave_days};
use crate::room_sums::room_sums;
use crate::rooms::{choice_costs, workload_in};
use crate::seen::distinct_nurses_over;
use crate::shift_spans::{placed_shift_span, shift_span_of};
use crate::start::{no_counts, no_loads, occupants_here};
use crate::stays::{add_stay, take_stay};
use ih_links::CompactLinks;
use ih_plan::{Placement, Plan, Write, end_of, nurse_at};
use ih_tables::{Bill, Instance, NurseNo, PatientNo, PersonNo, RoomNo, Shift};
use std::alloc::{AllocError, Global};

/// The ledger of nurses: it stands for a timetable, and tells each cell's part of the bill of nursing.
#[derive(Drop)]
pub struct Nurses {
    // The timetable itself.
    pub(crate) plan: Plan,
    // For each day, the persons in each room.
    pub(crate) here: Vec<CompactLinks>,
    // The load of each nurse in each shift: those of nurse 0 first, rising by shift.
    pub(crate) loads: Vec<NurseLoad>,
    // How many counted shifts of each person's stay each nurse has: the counts of person 0 first, rising by nurse.
    pub(crate) counts: Vec<u8>,
}

impl Nurses {
    /// The ledger of the empty timetable: the occupants alone are in rooms, and no room has a nurse. All later calls
    /// take no memory.
    pub fn new(alloc: Global, inst: &Instance) -> Result<Nurses, AllocError>
        ensures { IfOk result (λ ledger. IsLedgerOf inst.now.draft (empty inst.now.draft) ledger) }
    {
        let plan = Plan::empty(alloc, inst)?;
        let here = occupants_here(alloc, inst)?;
        let loads = no_loads(alloc, inst)?;
        let counts = no_counts(alloc, inst)?;
        Ok(Nurses {
            plan,
            here,
            loads,
            counts,
        })
    }

    /// The timetable for which the ledger stands.
    pub fn plan(&self) -> &Plan
        ensures value { result.now ≡ plan_of self.now }
        ensures stands { (I : Draft) (P : Timetable) → IsLedgerOf I P self.now → result.now ≡ P }
    {
        &self.plan
    }

    /// Enters a patient who isn't admitted. It takes no memory.
    pub fn enter(&mut self, inst: &Instance, patient: PatientNo, at: Placement)
        requires patient { patient.0 < patient_count inst.now.draft }
        requires placement { IsPlacement inst.now.draft at }
        requires stands { (P : Timetable) × IsLedgerOf inst.now.draft P self.old × (stay_of P patient.0 ≡ None) }
        ensures { (P : Timetable) → IsLedgerOf inst.now.draft P self.old
            → IsLedgerOf inst.now.draft (put (SetStay patient (Some at)) P) self.new }
    {
        let end = end_of(inst, patient, at);
        enter_days(
            inst,
            self.here.as_mut_slice(),
            at.room,
            at.day.0,
            end,
            patient.0,
        );
        add_stay(inst, &self.plan, self.loads.as_mut_slice(), patient, at);
        let shifts = placed_shift_span(inst, patient, at);
        add_shift_span(
            inst,
            &self.plan,
            self.counts.as_mut_slice(),
            patient.0,
            shifts,
        );
        self.plan.put(&Write::SetStay(patient, Some(at)));
    }

    /// Takes out a patient who is admitted there. It takes no memory.
    pub fn leave(&mut self, inst: &Instance, patient: PatientNo, at: Placement)
        requires patient { patient.0 < patient_count inst.now.draft }
        requires placement { IsPlacement inst.now.draft at }
        requires stands { (P : Timetable) × IsLedgerOf inst.now.draft P self.old × (stay_of P patient.0 ≡ Some at) }
        ensures { (P : Timetable) → IsLedgerOf inst.now.draft P self.old
            → IsLedgerOf inst.now.draft (put (SetStay patient None) P) self.new }
    {
        let end = end_of(inst, patient, at);
        leave_days(
            inst,
            self.here.as_mut_slice(),
            at.room,
            at.day.0,
            end,
            patient.0,
        );
        take_stay(inst, &self.plan, self.loads.as_mut_slice(), patient, at);
        let shifts = placed_shift_span(inst, patient, at);
        take_shift_span(
            inst,
            &self.plan,
            self.counts.as_mut_slice(),
            patient.0,
            shifts,
        );
        self.plan.put(&Write::SetStay(patient, None));
    }

    /// Replaces the nurse of a room in a shift. It goes over the persons who are in the room on that day, and takes no
    /// memory.
    pub fn set_care(&mut self, inst: &Instance, room: RoomNo, shift: Shift, nurse: Option<NurseNo>)
        requires room { room.0 < room_count inst.now.draft }
        requires shift { shift.0 < shift_count inst.now.draft }
        requires nurse { (n : NurseNo) → nurse ≡ Some n → n.0 < nurse_count inst.now.draft }
        requires stands { (P : Timetable) × IsLedgerOf inst.now.draft P self.old }
        ensures { (P : Timetable) → IsLedgerOf inst.now.draft P self.old
            → IsLedgerOf inst.now.draft (put (SetCare room shift nurse) P) self.new }
    {
        let persons = &self.here[(shift.0 / 3) as usize];
        let load = workload_in(inst, &self.plan, persons, room, shift);
        let old = nurse_at(inst, &self.plan, room, shift);
        move_load(inst, self.loads.as_mut_slice(), old, nurse, shift, load);
        let counts = self.counts.as_mut_slice();
        move_counts(inst, &self.plan, counts, persons, room, shift, nurse);
        self.plan.put(&Write::SetCare(room, shift, nurse));
    }

    /// A room's part of the bill in a shift: whether its nurse doesn't work the shift, whether persons are present
    /// without a nurse, and the required skill above the nurse's. Each number is at most 10^11.
    pub fn room_shift_bill(&self, inst: &Instance, room: RoomNo, shift: Shift) -> Bill
        requires room { room.0 < room_count inst.now.draft }
        requires shift { shift.0 < shift_count inst.now.draft }
        requires stands { (P : Timetable) × IsLedgerOf inst.now.draft P self.now }
        ensures { TellsPart inst.now.draft self.now (RoomShift room shift) result }
    {
        let persons = &self.here[(shift.0 / 3) as usize];
        let nurse = nurse_at(inst, &self.plan, room, shift);
        let counts = self.counts.as_slice();
        // One choice alone: it stands as the old one and as the new one.
        let sums = room_sums(inst, &self.plan, counts, persons, room, shift, nurse, nurse);
        bill_of(choice_costs(inst, persons, room, shift, nurse, sums.new_missing))
    }

    /// A nurse's part of the bill in a shift: the workload above the maximum, where the shift is worked. Each number is
    /// at most 10^11.
    pub fn nurse_shift_bill(&self, inst: &Instance, nurse: NurseNo, shift: Shift) -> Bill
        requires nurse { nurse.0 < nurse_count inst.now.draft }
        requires shift { shift.0 < shift_count inst.now.draft }
        requires stands { (P : Timetable) × IsLedgerOf inst.now.draft P self.now }
        ensures { TellsPart inst.now.draft self.now (NurseShift nurse shift) result }
    {
        let load = load(inst, self.loads.as_slice(), nurse, shift);
        bill_of(NursingCosts {
            off: 0,
            uncovered: 0,
            missing_skill: 0,
            nurses_seen: 0,
            overload: overload(load, load.work),
        })
    }

    /// A person's part of the bill: the distinct nurses of its stay. Each number is at most 10^11.
    pub fn care_bill(&self, inst: &Instance, person: PersonNo) -> Bill
        requires person { person.0 < person_count inst.now.draft }
        requires stands { (P : Timetable) × IsLedgerOf inst.now.draft P self.now }
        ensures { TellsPart inst.now.draft self.now (Care person) result }
    {
        bill_of(NursingCosts {
            off: 0,
            uncovered: 0,
            missing_skill: 0,
            nurses_seen: distinct_nurses_over(
                inst,
                &self.plan,
                shift_span_of(inst, &self.plan, person.0),
            ),
            overload: 0,
        })
    }
}
