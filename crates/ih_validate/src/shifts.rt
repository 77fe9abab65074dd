//! What the rooms cost, shift by shift: nurses off duty, occupied rooms without a nurse, and missing skill.

ghost use Rattle.std.specs.Prelude.{◌≡◌, ◌<◌, ◌≤◌, ◌-◌, ◌+◌, ◌*◌, ◌&&◌, not, map, is_none, sum_by, IfSome, All};
ghost use Rattle.std.specs.Prelude.{length};
ghost use Rattle.ih_tables.specs.Sizes.{person_count, room_count, shift_count, nurse_count};
ghost use Rattle.ih_plan.specs.Costs.{not_working, skill_missing, skill_level, is_empty};
ghost use Rattle.ih_plan.specs.{Timetable.IsPlanOf, Timetable.care_of, Presence.present, Presence.skill_of};
ghost use Rattle.ih_plan.specs.{BillOf.nurses_off, Sums.sum_below, Sums.bit};
ghost use Rattle.ih_validate.specs.Rooms.{bare_shift, skill_gap};

use crate::summing::{bit, sum_below};
use ih_plan::{Plan, skill_of};
use ih_tables::{Instance, NurseNo, RoomNo, Shift};

/// The number of the room's nurse in the shift, where it has one.
pub fn nurse_at(inst: &Instance, plan: &Plan, room: RoomNo, shift: u32) -> Option<u32>
    requires plan { IsPlanOf inst.now.draft plan.now }
    requires room { room.0 < room_count inst.now.draft }
    requires shift { shift < shift_count inst.now.draft }
    ensures care { result ≡ care_of plan.now room.0 shift }
    ensures nurse { IfSome result (λ n. n < nurse_count inst.now.draft) }
{
    match plan.care(room, Shift(shift)) {
        None => None,
        Some(n) => Some(n.0),
    }
}

fn is_off(inst: &Instance, plan: &Plan, room: RoomNo, shift: u32) -> bool
    requires plan { IsPlanOf inst.now.draft plan.now }
    requires room { room.0 < room_count inst.now.draft }
    requires shift { shift < shift_count inst.now.draft }
    ensures { result ≡ not_working inst.now.draft shift (care_of plan.now room.0 shift) }
{
    match nurse_at(inst, plan, room, shift) {
        None => false,
        Some(n) => inst.works(NurseNo(n), Shift(shift)).is_none(),
    }
}

fn is_uncovered(inst: &Instance, plan: &Plan, room: RoomNo, shift: u32, here: &[u32]) -> bool
    requires plan { IsPlanOf inst.now.draft plan.now }
    requires room { room.0 < room_count inst.now.draft }
    requires shift { shift < shift_count inst.now.draft }
    ensures { result ≡ (is_none (care_of plan.now room.0 shift) && not (is_empty here.now)) }
{
    nurse_at(inst, plan, room, shift).is_none() && !here.is_empty()
}

fn skill_below(inst: &Instance, plan: &Plan, here: &[u32], shift: u32, level: u32) -> u64
    requires plan { IsPlanOf inst.now.draft plan.now }
    requires persons { All (λ x. x < person_count inst.now.draft) here.now }
    requires few { length here.now ≤ 2560 }
    ensures sum { result ≡ sum_by (λ n. n - level) (map (skill_of inst.now.draft plan.now shift) here.now) }
    ensures bound { result ≤ 2560000 }
{
    let mut sum = 0;
    for x in here {
        sum += skill_of(inst, plan, *x, shift).saturating_sub(level) as u64;
    }
    sum
}

fn skill_level(inst: &Instance, nurse: NurseNo) -> u32
    requires { nurse.0 < nurse_count inst.now.draft }
    ensures { result ≡ skill_level inst.now.draft nurse.0 }
{
    inst.nurse(nurse).skill_level
}

fn skill_missing(inst: &Instance, plan: &Plan, room: RoomNo, shift: u32, here: &[u32]) -> u64
    requires plan { IsPlanOf inst.now.draft plan.now }
    requires room { room.0 < room_count inst.now.draft }
    requires shift { shift < shift_count inst.now.draft }
    requires persons { All (λ x. x < person_count inst.now.draft) here.now }
    requires few { length here.now ≤ 2560 }
    ensures sum { result ≡ skill_missing inst.now.draft (care_of plan.now room.0 shift)
        (map (skill_of inst.now.draft plan.now shift) here.now) }
    ensures bound { result ≤ 2560000 }
{
    match nurse_at(inst, plan, room, shift) {
        None => 0,
        Some(n) => skill_below(inst, plan, here, shift, skill_level(inst, NurseNo(n))),
    }
}

/// In how many rooms and shifts the nurse doesn't work the shift.
#[tactic(auto, unfolding(ih_plan::specs::BillOf::nurses_off))]
pub fn nurses_off(inst: &Instance, plan: &Plan) -> u64
    requires { IsPlanOf inst.now.draft plan.now }
    ensures value { result ≡ nurses_off inst.now.draft plan.now }
    ensures bound { result ≤ 21504 }
{
    sum_below(inst.rooms(), 168, |r| {
        sum_below(inst.shifts(), 1, |k| bit(is_off(inst, plan, RoomNo(r), k)))
    })
}

/// The shifts of a day in which the room is occupied and has no nurse.
pub fn uncovered_on(inst: &Instance, plan: &Plan, room: RoomNo, day: u32, here: &[u32]) -> u64
    requires plan { IsPlanOf inst.now.draft plan.now }
    requires room { room.0 < room_count inst.now.draft }
    requires day { day < inst.now.draft.days }
    requires here { here.now ≡ present inst.now.draft plan.now room.0 day }
    ensures sum { result ≡ sum_below 3 (λ j. bare_shift inst.now.draft plan.now room.0 (3 * day + j)) }
    ensures bound { result ≤ 3 }
{
    sum_below(
        3,
        1,
        |j| bit(is_uncovered(inst, plan, room, 3 * day + j, here)),
    )
}

/// The required skill above the nurses', for each person who is here in each shift of the day.
#[tactic(auto, using(ih_plan::proofs::SumLemmas::sum_steps))]
pub fn missing_skill_on(inst: &Instance, plan: &Plan, room: RoomNo, day: u32, here: &[u32]) -> u64
    requires plan { IsPlanOf inst.now.draft plan.now }
    requires room { room.0 < room_count inst.now.draft }
    requires day { day < inst.now.draft.days }
    requires here { here.now ≡ present inst.now.draft plan.now room.0 day }
    requires few { length here.now ≤ 2560 }
    ensures sum { result ≡ sum_below 3 (λ j. skill_gap inst.now.draft plan.now room.0 (3 * day + j)) }
    ensures bound { result ≤ 7680000 }
{
    let mut sum = 0;
    for j in 0..3 {
        sum += skill_missing(inst, plan, room, 3 * day + j, here);
    }
    sum
}
