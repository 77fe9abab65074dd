//! What another choice of nurse for a room's shift would change, told by one walk over the persons who are there.

ghost use Rattle.std.specs.Prelude.{◌≡◌, ◌≢◌, ◌<◌, ◌≤◌, ◌+◌, Some, sum_by, option_map, IfSome};
ghost use Rattle.ih_tables.specs.declared.ids.NurseNo.{NurseNo};
ghost use Rattle.ih_tables.specs.Sizes.{room_count, shift_count, nurse_count};
ghost use Rattle.ih_plan.specs.Timetable.{Timetable, care_of, choice_of};
ghost use Rattle.ih_plan.specs.Presence.{present, day_of, workload_of};
ghost use Rattle.ih_nurses.specs.Choice.{excess_of, seen_by, increase_by_choice};
ghost use Rattle.ih_nurses.specs.Deltas.{off_in, uncovered_in, missing_in};
ghost use Rattle.ih_nurses.specs.Ledger.{IsLedgerOf, plan_of};

use crate::Nurses;
use crate::loads::excess_change;
use crate::room_sums::room_sums;
use crate::rooms::{nurse_off, uncovered};
use ih_plan::{increase, nurse_at};
use ih_tables::{Instance, NurseNo, RoomNo, Shift};

/// What another choice of nurse for a room's shift, or none, changes in the bill.
#[derive(Clone, Copy)]
pub struct ChoiceDelta {
    /// Nurses who don't work the shift.
    pub off: i64,
    /// Occupied rooms without a nurse.
    pub uncovered: i64,
    /// Required skill above the nurse's.
    pub missing_skill: i64,
    /// The distinct nurses of each person in the room, added up.
    pub nurses_seen: i64,
    /// Workload above the maximum, of the nurse whose shift it is and the one whose it would be.
    pub overload: i64,
}

impl Nurses {
    // What another choice of nurse changes in the workload above the maximum of the two nurses, where the persons in
    // the room make this workload.
    #[inline(always)]
    fn loads_change(
        &self,
        inst: &Instance,
        room: RoomNo,
        shift: Shift,
        old: Option<NurseNo>,
        new: Option<NurseNo>,
        work: u32,
    ) -> i64
        requires room { room.0 < room_count inst.now.draft }
        requires shift { shift.0 < shift_count inst.now.draft }
        requires old { old ≡ choice_of (plan_of self.now) room.0 shift.0 }
        requires old_nurse { IfSome old (λ n. n.0 < nurse_count inst.now.draft) }
        requires nurse { (n : NurseNo) → new ≡ Some n → n.0 < nurse_count inst.now.draft }
        requires stands { (P : Timetable) × IsLedgerOf inst.now.draft P self.now }
        requires other { (P : Timetable) → IsLedgerOf inst.now.draft P self.now
            → care_of P room.0 shift.0 ≢ option_map (λ (n : NurseNo). n.0) new }
        requires work { work ≡ sum_by (workload_of inst.now.draft (plan_of self.now) shift.0)
            (present inst.now.draft (plan_of self.now) room.0 (day_of shift.0)) }
        requires bound { work ≤ 256000000 }
        ensures { (P : Timetable) → IsLedgerOf inst.now.draft P self.now
            → result ≡ increase_by_choice P room shift new
            (λ Q. excess_of inst.now.draft Q shift.0 (care_of P room.0 shift.0)
            + excess_of inst.now.draft Q shift.0 (option_map (λ (n : NurseNo). n.0) new)) }
    {
        let loads = self.loads.as_slice();
        let gone = excess_change(inst, loads, old, shift, work, 0);
        let come = excess_change(inst, loads, new, shift, 0, work);
        gone + come
    }

    /// What another choice of nurse, or none, for a room's shift would change. It goes once over the persons who are in
    /// the room on that day.
    #[inline(always)]
    pub fn choice_delta(
        &self,
        inst: &Instance,
        room: RoomNo,
        shift: Shift,
        new: Option<NurseNo>,
    ) -> ChoiceDelta
        requires room { room.0 < room_count inst.now.draft }
        requires shift { shift.0 < shift_count inst.now.draft }
        requires nurse { (n : NurseNo) → new ≡ Some n → n.0 < nurse_count inst.now.draft }
        requires stands { (P : Timetable) × IsLedgerOf inst.now.draft P self.now }
        requires other { (P : Timetable) → IsLedgerOf inst.now.draft P self.now
            → care_of P room.0 shift.0 ≢ option_map (λ (n : NurseNo). n.0) new }
        ensures off { (P : Timetable) → IsLedgerOf inst.now.draft P self.now
            → result.off ≡ increase_by_choice P room shift new (λ Q. off_in inst.now.draft Q room shift) }
        ensures uncovered { (P : Timetable) → IsLedgerOf inst.now.draft P self.now
            → result.uncovered ≡ increase_by_choice P room shift new (λ Q. uncovered_in inst.now.draft Q room shift) }
        ensures missing_skill { (P : Timetable) → IsLedgerOf inst.now.draft P self.now
            → result.missing_skill ≡ increase_by_choice P room shift new (λ Q. missing_in inst.now.draft Q room shift) }
        ensures nurses_seen { (P : Timetable) → IsLedgerOf inst.now.draft P self.now
            → result.nurses_seen ≡ increase_by_choice P room shift new
            (λ Q. seen_by inst.now.draft Q (present inst.now.draft P room.0 (day_of shift.0))) }
        ensures overload { (P : Timetable) → IsLedgerOf inst.now.draft P self.now
            → result.overload ≡ increase_by_choice P room shift new
            (λ Q. excess_of inst.now.draft Q shift.0 (care_of P room.0 shift.0)
            + excess_of inst.now.draft Q shift.0 (option_map (λ (n : NurseNo). n.0) new)) }
    {
        let persons = &self.here[(shift.0 / 3) as usize];
        let old = nurse_at(inst, &self.plan, room, shift);
        let counts = self.counts.as_slice();
        let sums = room_sums(inst, &self.plan, counts, persons, room, shift, new, old);
        ChoiceDelta {
            off: increase(nurse_off(inst, new, shift), nurse_off(inst, old, shift)),
            uncovered: increase(uncovered(persons, room, new), uncovered(persons, room, old)),
            missing_skill: increase(sums.new_missing, sums.old_missing),
            nurses_seen: increase(sums.come, sums.gone),
            overload: self.loads_change(inst, room, shift, old, new, sums.work),
        }
    }
}
