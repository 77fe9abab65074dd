//! What rooms cost by who is in them. All persons are looked through once for each room, and then the room's own for
//! each day.

ghost use Rattle.std.specs.Prelude.{◌≡◌, ◌≤◌, ◌<◌};
ghost use Rattle.ih_tables.specs.Sizes.{room_count, shift_count};
ghost use Rattle.ih_plan.specs.BillOf.{gender_mixes, over_capacity, uncovered, mixed_ages, missing_skill};
ghost use Rattle.ih_plan.specs.{Timetable.IsPlanOf, Sums.sum_below};
ghost use Rattle.ih_validate.specs.Members.{residents_of};
ghost use Rattle.ih_validate.specs.Rooms.{gender_mix, crowding, age_mix, bare_shift, skill_gap};

use crate::days::{age_spread, genders_differ};
use crate::number_lists::NumberList;
use crate::presence::{list_present, list_residents};
use crate::shifts::{missing_skill_on, uncovered_on};
use crate::summing::bit;
use ih_plan::Plan;
use ih_tables::{Instance, RoomNo};

/// What the rooms cost by who is in them.
#[derive(Drop)]
pub struct RoomCosts {
    /// Rooms and days with two genders.
    pub gender_mixes: u64,
    /// Persons above each room's capacity of a day.
    pub over_capacity: u64,
    /// Occupied rooms and shifts without a nurse.
    pub uncovered: u64,
    /// Oldest minus youngest age group, by room and day.
    pub mixed_ages: u64,
    /// Required skill above the nurse's.
    pub missing_skill: u64,
}

fn nothing() -> RoomCosts
    ensures { result
        ≡ record { gender_mixes = 0; over_capacity = 0; uncovered = 0; mixed_ages = 0; missing_skill = 0 } }
{
    RoomCosts {
        gender_mixes: 0,
        over_capacity: 0,
        uncovered: 0,
        mixed_ages: 0,
        missing_skill: 0,
    }
}

// The costs of one room: its persons are looked through once a day.
fn costs_of(
    inst: &Instance,
    plan: &Plan,
    room: RoomNo,
    residents: &[u32],
    here: &mut NumberList,
) -> RoomCosts
    requires plan { IsPlanOf inst.now.draft plan.now }
    requires room { room.0 < room_count inst.now.draft }
    requires residents { residents.now ≡ residents_of inst.now.draft plan.now room.0 }
    ensures gender_mixes { result.gender_mixes
        ≡ sum_below inst.now.draft.days (gender_mix inst.now.draft plan.now room.0) }
    ensures over_capacity { result.over_capacity
        ≡ sum_below inst.now.draft.days (crowding inst.now.draft plan.now room.0) }
    ensures uncovered { result.uncovered
        ≡ sum_below (shift_count inst.now.draft) (bare_shift inst.now.draft plan.now room.0) }
    ensures mixed_ages { result.mixed_ages ≡ sum_below inst.now.draft.days (age_mix inst.now.draft plan.now room.0) }
    ensures missing_skill { result.missing_skill
        ≡ sum_below (shift_count inst.now.draft) (skill_gap inst.now.draft plan.now room.0) }
    ensures few_mixes { result.gender_mixes ≤ 56 }
    ensures few_over { result.over_capacity ≤ 143360 }
    ensures few_uncovered { result.uncovered ≤ 168 }
    ensures few_ages { result.mixed_ages ≤ 3584 }
    ensures few_skills { result.missing_skill ≤ 430080000 }
{
    let capacity = inst.room(room).capacity as u64;
    let mut costs = nothing();
    for d in 0..inst.days() {
        list_present(inst, plan, residents, room, d, here);
        let here = here.as_slice();
        costs.gender_mixes += bit(genders_differ(inst, here));
        costs.over_capacity += (here.len() as u64).saturating_sub(capacity);
        costs.uncovered += uncovered_on(inst, plan, room, d, here);
        costs.mixed_ages += age_spread(inst, here);
        costs.missing_skill += missing_skill_on(inst, plan, room, d, here);
    }
    costs
}

/// The costs of all rooms.
#[tactic(auto, using(ih_plan::proofs::SumLemmas::sum_steps), unfolding(ih_plan::specs::BillOf::gender_mixes, ih_plan::specs::BillOf::over_capacity, ih_plan::specs::BillOf::uncovered, ih_plan::specs::BillOf::mixed_ages, ih_plan::specs::BillOf::missing_skill))]
pub fn room_costs(inst: &Instance, plan: &Plan) -> RoomCosts
    requires { IsPlanOf inst.now.draft plan.now }
    ensures gender_mixes { result.gender_mixes ≡ gender_mixes inst.now.draft plan.now }
    ensures over_capacity { result.over_capacity ≡ over_capacity inst.now.draft plan.now }
    ensures uncovered { result.uncovered ≡ uncovered inst.now.draft plan.now }
    ensures mixed_ages { result.mixed_ages ≡ mixed_ages inst.now.draft plan.now }
    ensures missing_skill { result.missing_skill ≡ missing_skill inst.now.draft plan.now }
    ensures few_mixes { result.gender_mixes ≤ 7168 }
    ensures few_over { result.over_capacity ≤ 18350080 }
    ensures few_uncovered { result.uncovered ≤ 21504 }
    ensures few_ages { result.mixed_ages ≤ 458752 }
    ensures few_skills { result.missing_skill ≤ 55050240000 }
{
    let mut residents = NumberList::new();
    let mut here = NumberList::new();
    let mut costs = nothing();
    for r in 0..inst.rooms() {
        let r = RoomNo(r);
        list_residents(inst, plan, r, &mut residents);
        let of_room = costs_of(inst, plan, r, residents.as_slice(), &mut here);
        costs.gender_mixes += of_room.gender_mixes;
        costs.over_capacity += of_room.over_capacity;
        costs.uncovered += of_room.uncovered;
        costs.mixed_ages += of_room.mixed_ages;
        costs.missing_skill += of_room.missing_skill;
    }
    costs
}
