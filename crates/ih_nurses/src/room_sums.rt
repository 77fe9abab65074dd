//! What the persons in a room give to the bill with each of two choices of nurse, added up by one walk over their list.

ghost use Rattle.std.specs.Prelude.{◌≡◌, ◌<◌, ◌≤◌, ◌-◌, ◌*◌, ◌∷◌, [], ℕ, length, map, sum_by, option_map, IfSome};
ghost use Rattle.ih_tables.specs.{declared.ids.NurseNo.NurseNo, Sizes.person_count, Sizes.nurse_count};
ghost use Rattle.ih_links.specs.Lists.{list_of, AreNodes};
ghost use Rattle.ih_plan.specs.{Timetable.IsPlanOf, Presence.workload_of, Presence.skill_of, Costs.skill_missing};
ghost use Rattle.ih_nurses.specs.Counts.{has_just};

use crate::counts::count;
use ih_links::CompactLinks;
use ih_plan::{Plan, care_need_of};
use ih_tables::{Instance, NurseNo, RoomNo, Shift};

/// What the persons in a room give with a new choice of nurse and with the old one.
#[derive(Clone, Copy)]
pub struct RoomSums {
    /// The workload of the persons.
    pub work: u32,
    /// The skill that they require above the new nurse's.
    pub new_missing: u32,
    /// The skill that they require above the old nurse's.
    pub old_missing: u32,
    /// How many of them don't have the new nurse in any shift.
    pub come: u32,
    /// How many of them have the old nurse in just one shift.
    pub gone: u32,
}

// The skill of a choice of nurse. Nobody requires more than that of no nurse.
#[inline(always)]
fn level_of(inst: &Instance, nurse: Option<NurseNo>) -> u32
    requires { IfSome nurse (λ n. n.0 < nurse_count inst.now.draft) }
    ensures { (skill : ℕ) → skill ≤ 1000
        → skill - result ≡ skill_missing inst.now.draft (option_map (λ (n : NurseNo). n.0) nurse) (skill ∷ []) }
{
    match nurse {
        None => u32::MAX,
        Some(a) => inst.nurse(a).skill_level,
    }
}

// 1 where there is a nurse who has so many counted shifts of a person's stay, and 0 where not.
#[inline(always)]
fn has_just(inst: &Instance, counts: &[u8], shifts: u8, nurse: Option<NurseNo>, person: u32) -> u32
    requires table { length counts.now ≡ person_count inst.now.draft * nurse_count inst.now.draft }
    requires nurse { IfSome nurse (λ n. n.0 < nurse_count inst.now.draft) }
    requires person { person < person_count inst.now.draft }
    ensures value { result ≡ has_just inst.now.draft counts.now shifts nurse person }
    ensures bound { result ≤ 1 }
{
    match nurse {
        None => 0,
        Some(a) => {
            if count(inst, counts, person, a) == shifts {
                1
            } else {
                0
            }
        }
    }
}

/// What the persons in a room's list give with a new choice of nurse for a shift and with the old one.
#[inline(always)]
pub fn room_sums(
    inst: &Instance,
    plan: &Plan,
    counts: &[u8],
    persons: &CompactLinks,
    room: RoomNo,
    shift: Shift,
    new: Option<NurseNo>,
    old: Option<NurseNo>,
) -> RoomSums
    requires plan { IsPlanOf inst.now.draft plan.now }
    requires table { length counts.now ≡ person_count inst.now.draft * nurse_count inst.now.draft }
    requires room { room.0 < length persons.now.lists }
    requires persons { persons.now.nodes ≡ person_count inst.now.draft }
    requires new { IfSome new (λ n. n.0 < nurse_count inst.now.draft) }
    requires old { IfSome old (λ n. n.0 < nurse_count inst.now.draft) }
    ensures work { result.work ≡ sum_by (workload_of inst.now.draft plan.now shift.0) (list_of persons.now room.0) }
    ensures new_missing { result.new_missing ≡ skill_missing inst.now.draft (option_map (λ (n : NurseNo). n.0) new)
        (map (skill_of inst.now.draft plan.now shift.0) (list_of persons.now room.0)) }
    ensures old_missing { result.old_missing ≡ skill_missing inst.now.draft (option_map (λ (n : NurseNo). n.0) old)
        (map (skill_of inst.now.draft plan.now shift.0) (list_of persons.now room.0)) }
    ensures come { result.come ≡ sum_by (has_just inst.now.draft counts.now 0 new) (list_of persons.now room.0) }
    ensures gone { result.gone ≡ sum_by (has_just inst.now.draft counts.now 1 old) (list_of persons.now room.0) }
    ensures bound { result.work ≤ 256000000 }
    ensures nodes { AreNodes (person_count inst.now.draft) (list_of persons.now room.0) }
{
    let new_level = level_of(inst, new);
    let old_level = level_of(inst, old);
    let mut work = 0;
    let mut new_missing = 0;
    let mut old_missing = 0;
    let mut come = 0;
    let mut gone = 0;
    let mut at = persons.first(room.0);
    while let Some(x) = at {
        let asked = care_need_of(inst, plan, x, shift.0);
        work += asked.workload;
        new_missing += asked.skill.saturating_sub(new_level);
        old_missing += asked.skill.saturating_sub(old_level);
        come += has_just(inst, counts, 0, new, x);
        gone += has_just(inst, counts, 1, old, x);
        at = persons.next(x);
    }
    RoomSums {
        work,
        new_missing,
        old_missing,
        come,
        gone,
    }
}
