//! How many different nurses each person sees.

ghost use Rattle.std.specs.Prelude.{◌≡◌, ◌<◌, ◌≤◌, ◌-◌, ◌+◌, ◌*◌, map};
ghost use Rattle.std.specs.List.{range_with_len};
ghost use Rattle.ih_tables.specs.Sizes.{person_count, room_count, shift_count};
ghost use Rattle.ih_plan.specs.{Timetable.IsPlanOf, Timetable.care_of, Presence.shifts_of, Presence.room_of};
ghost use Rattle.ih_plan.specs.{Costs.nurse_for, Costs.distinct_nurses, BillOf.nurses_seen};

use crate::marks::{count_marked, mark};
use crate::shifts::nurse_at;
use crate::summing::sum_below;
use ih_plan::{Plan, counted_shifts};
use ih_tables::{Instance, PatientNo, RoomNo};

#[tactic(auto, using(ih_plan::proofs::ListSteps::range_steps))]
fn seen_in(inst: &Instance, plan: &Plan, room: RoomNo, from: u32, len: u32) -> u64
    requires plan { IsPlanOf inst.now.draft plan.now }
    requires room { room.0 < room_count inst.now.draft }
    requires shifts { from + len ≤ shift_count inst.now.draft }
    ensures count { result ≡ distinct_nurses inst.now.draft (map (care_of plan.now room.0) (range_with_len from len)) }
    ensures bound { result ≤ 512 }
{
    let mut seen = [false; 512];
    for j in 0..len {
        mark(&mut seen, nurse_at(inst, plan, room, from + j));
    }
    count_marked(&seen, inst.nurses())
}

#[tactic(auto, using(ih_plan::proofs::ListSteps::none_steps), unfolding(ih_plan::specs::Presence::admission_of, ih_plan::specs::Presence::shifts_of, ih_plan::specs::Persons::person_of))]
fn nurses_of(inst: &Instance, plan: &Plan, person: u32) -> u64
    requires plan { IsPlanOf inst.now.draft plan.now }
    requires person { person < person_count inst.now.draft }
    ensures value { result
        ≡ distinct_nurses inst.now.draft
        (map (nurse_for plan.now (room_of inst.now.draft plan.now person)) (shifts_of inst.now.draft plan.now person)) }
    ensures bound { result ≤ 512 }
{
    let patients = inst.patients();
    if person < patients {
        let a = inst.patient(PatientNo(person));
        match plan.stay(PatientNo(person)) {
            None => 0,
            Some(at) => {
                let count = counted_shifts(inst, at.day.0, a.length_of_stay);
                seen_in(inst, plan, at.room, 3 * at.day.0, count)
            }
        }
    } else {
        let o = inst.occupant(person - patients);
        let count = counted_shifts(inst, 0, o.length_of_stay);
        seen_in(inst, plan, o.room_id, 0, count)
    }
}

/// The number of different nurses each person sees, summed over the occupants and the admitted patients. Shifts after
/// the last day don't count.
#[tactic(auto, unfolding(ih_plan::specs::BillOf::nurses_seen))]
pub fn nurses_seen(inst: &Instance, plan: &Plan) -> u64
    requires { IsPlanOf inst.now.draft plan.now }
    ensures value { result ≡ nurses_seen inst.now.draft plan.now }
    ensures bound { result ≤ 512 * 2560 }
{
    sum_below(inst.persons(), 512, |x| nurses_of(inst, plan, x))
}
