//! How many changes there are.

ghost use Rattle.std.specs.Prelude.{◌≡◌, ◌+◌, ◌<◌, ◌≤◌};
ghost use Rattle.ih_tables.specs.Sizes.{room_count, shift_count};
ghost use Rattle.ih_plan.specs.{Sums.count_below, Timetable.IsPlanOf};
ghost use Rattle.ih_changes.specs.Changes.{changed_cares, changed_stays, counted, has_new_nurse};

use crate::differences::{has_another, is_changed, is_occupied};
use ih_plan::{Plan, bit};
use ih_tables::{Instance, PatientNo, RoomNo, Shift};

/// How many choices of a timetable differ from those of an older one.
#[derive(Clone, Copy, Debug, PartialEq, Eq)]
pub struct Changes {
    /// Patients who have another day, room or theatre, or are admitted in one of the timetables alone.
    pub patients: u32,
    /// Shifts of rooms in which another nurse looks after somebody.
    pub nurses: u32,
}

// How many patients' stays differ.
#[tactic(auto, using(ih_plan::proofs::SumLemmas::sum_steps), unfolding(crate::specs::Changes::changed_stays))]
fn changed_stays(inst: &Instance, older: &Plan, plan: &Plan) -> u32
    requires older { IsPlanOf inst.now.draft older.now }
    requires plan { IsPlanOf inst.now.draft plan.now }
    ensures { result ≡ changed_stays inst.now.draft older.now plan.now }
{
    let mut count = 0;
    for p in 0..inst.patients() {
        count += bit(is_changed(inst, older, plan, PatientNo(p)));
    }
    count
}

// Whether the room has another nurse in the shift, while somebody is there.
fn has_new_nurse(inst: &Instance, older: &Plan, plan: &Plan, room: RoomNo, shift: Shift) -> bool
    requires older { IsPlanOf inst.now.draft older.now }
    requires plan { IsPlanOf inst.now.draft plan.now }
    requires room { room.0 < room_count inst.now.draft }
    requires shift { shift.0 < shift_count inst.now.draft }
    ensures { result ≡ has_new_nurse inst.now.draft older.now plan.now room.0 shift.0 }
{
    has_another(inst, older, plan, room, shift) && is_occupied(inst, plan, room, shift.0 / 3)
}

// In how many shifts of a room the nurse differs, while somebody is there.
#[tactic(auto, using(ih_plan::proofs::SumLemmas::sum_steps))]
fn changed_cares_in(inst: &Instance, older: &Plan, plan: &Plan, room: RoomNo) -> u32
    requires older { IsPlanOf inst.now.draft older.now }
    requires plan { IsPlanOf inst.now.draft plan.now }
    requires room { room.0 < room_count inst.now.draft }
    ensures count { result ≡ count_below (shift_count inst.now.draft)
        (has_new_nurse inst.now.draft older.now plan.now room.0) }
    ensures few { result ≤ 168 }
{
    let mut count = 0;
    for k in 0..inst.shifts() {
        count += bit(has_new_nurse(inst, older, plan, room, Shift(k)));
    }
    count
}

// In how many shifts of occupied rooms the nurse differs.
#[tactic(auto, using(ih_plan::proofs::SumLemmas::sum_steps), unfolding(crate::specs::Changes::changed_cares))]
fn changed_cares(inst: &Instance, older: &Plan, plan: &Plan) -> u32
    requires older { IsPlanOf inst.now.draft older.now }
    requires plan { IsPlanOf inst.now.draft plan.now }
    ensures { result ≡ changed_cares inst.now.draft older.now plan.now }
{
    let mut count = 0;
    for r in 0..inst.rooms() {
        count += changed_cares_in(inst, older, plan, RoomNo(r));
    }
    count
}

/// How many choices of the timetable differ from those of the older one: each patient and each shift of an occupied room
/// counts once. In time of the whole timetable; it takes no memory.
pub fn count_changes(inst: &Instance, older: &Plan, plan: &Plan) -> Changes
    requires older { IsPlanOf inst.now.draft older.now }
    requires plan { IsPlanOf inst.now.draft plan.now }
    ensures value { result ≡ counted inst.now.draft older.now plan.now }
    ensures few { result.patients + result.nurses ≤ 23552 }
{
    Changes {
        patients: changed_stays(inst, older, plan),
        nurses: changed_cares(inst, older, plan),
    }
}
