//! What the persons in a room and its nurse give, by a walk over the persons' list.

ghost use Rattle.std.specs.Prelude.{◌≡◌, ◌<◌, ◌≤◌, length, sum_by, option_map, is_none, not, ◌&&◌, IfSome};
ghost use Rattle.ih_tables.specs.declared.ids.NurseNo.{NurseNo};
ghost use Rattle.ih_tables.specs.Sizes.{person_count, nurse_count, shift_count};
ghost use Rattle.ih_links.specs.Lists.{list_of, without, AreNodes};
ghost use Rattle.ih_plan.specs.Costs.{not_working, is_empty};
ghost use Rattle.ih_plan.specs.{Timetable.IsPlanOf, Presence.workload_of, Sums.bit};

use crate::bills::NursingCosts;
use ih_links::CompactLinks;
use ih_plan::{Plan, care_need_of};
use ih_tables::{Instance, NurseNo, RoomNo, Shift};

/// The workload of the persons in a room's list in a shift.
#[inline(always)]
pub fn workload_in(
    inst: &Instance,
    plan: &Plan,
    persons: &CompactLinks,
    room: RoomNo,
    shift: Shift,
) -> u32
    requires plan { IsPlanOf inst.now.draft plan.now }
    requires room { room.0 < length persons.now.lists }
    requires persons { persons.now.nodes ≡ person_count inst.now.draft }
    ensures sum { result ≡ sum_by (workload_of inst.now.draft plan.now shift.0) (list_of persons.now room.0) }
    ensures bound { result ≤ 256000000 }
    ensures nodes { AreNodes (person_count inst.now.draft) (list_of persons.now room.0) }
{
    let mut sum = 0;
    let mut at = persons.first(room.0);
    while let Some(x) = at {
        let asked = care_need_of(inst, plan, x, shift.0);
        sum += asked.workload;
        at = persons.next(x);
    }
    sum
}

/// 1 where persons are in a room's list and there is no nurse, and 0 where not.
pub fn uncovered(persons: &CompactLinks, room: RoomNo, nurse: Option<NurseNo>) -> u32
    requires room { room.0 < length persons.now.lists }
    ensures value { result
        ≡ bit (is_none (option_map (λ (n : NurseNo). n.0) nurse) && not (is_empty (list_of persons.now room.0))) }
    ensures nodes { AreNodes persons.now.nodes (list_of persons.now room.0) }
{
    let occupied = persons.first(room.0).is_some();
    if nurse.is_none() && occupied { 1 } else { 0 }
}

/// Whether anybody but a person is in a room's list.
#[inline(always)]
pub fn has_others(persons: &CompactLinks, room: RoomNo, person: u32) -> bool
    requires room { room.0 < length persons.now.lists }
    ensures value { result ≡ not (is_empty (without person (list_of persons.now room.0))) }
    ensures nodes { AreNodes persons.now.nodes (list_of persons.now room.0) }
{
    match persons.first(room.0) {
        None => false,
        Some(y) => {
            if y == person {
                persons.next(y).is_some()
            } else {
                true
            }
        }
    }
}

/// 1 where there is a nurse, who doesn't work the shift, and 0 where not.
pub fn nurse_off(inst: &Instance, nurse: Option<NurseNo>, shift: Shift) -> u32
    requires nurse { IfSome nurse (λ n. n.0 < nurse_count inst.now.draft) }
    requires shift { shift.0 < shift_count inst.now.draft }
    ensures { result ≡ bit (not_working inst.now.draft shift.0 (option_map (λ (n : NurseNo). n.0) nurse)) }
{
    match nurse {
        None => 0,
        Some(a) => match inst.works(a, shift) {
            None => 1,
            Some(_) => 0,
        },
    }
}

/// What a room costs in a shift with a choice of nurse, whose persons lack so much skill of that nurse.
#[inline(always)]
pub fn choice_costs(
    inst: &Instance,
    persons: &CompactLinks,
    room: RoomNo,
    shift: Shift,
    nurse: Option<NurseNo>,
    missing_skill: u32,
) -> NursingCosts
    requires room { room.0 < length persons.now.lists }
    requires nurse { IfSome nurse (λ n. n.0 < nurse_count inst.now.draft) }
    requires shift { shift.0 < shift_count inst.now.draft }
    ensures off { result.off ≡ bit (not_working inst.now.draft shift.0 (option_map (λ (n : NurseNo). n.0) nurse)) }
    ensures uncovered { result.uncovered
        ≡ bit (is_none (option_map (λ (n : NurseNo). n.0) nurse) && not (is_empty (list_of persons.now room.0))) }
    ensures missing_skill { result.missing_skill ≡ missing_skill }
    ensures seen { result.nurses_seen ≡ 0 }
    ensures overload { result.overload ≡ 0 }
    ensures nodes { AreNodes persons.now.nodes (list_of persons.now room.0) }
{
    NursingCosts {
        off: nurse_off(inst, nurse, shift),
        uncovered: uncovered(persons, room, nurse),
        missing_skill,
        nurses_seen: 0,
        overload: 0,
    }
}
