//! Where a person is and what care it needs, by its number (patients come first, then occupants); a room's nurse.

ghost use Rattle.std.specs.Prelude.{◌≡◌, ◌<◌, ◌≤◌, ◌+◌, ◌-◌, ◌*◌, IfSome};
ghost use Rattle.std.specs.Str.{bytes_eq};
ghost use Rattle.ih_tables.specs.Sizes.{person_count, patient_count, room_count, shift_count, nurse_count};
ghost use Rattle.ih_plan.specs.Timetable.{IsPlanOf, IsPlacement, choice_of};
ghost use Rattle.ih_plan.specs.Presence.{is_present, room_of, entry_of, workload_of, skill_of, end_from, end_of};
ghost use Rattle.ih_plan.specs.{Persons.person_of, Costs.is_number};

use crate::moves::Placement;
use crate::plans::Plan;
use ih_tables::{Instance, NurseNo, PatientNo, RoomNo, Shift};

/// Whether the room is the person's, on whatever days.
#[tactic(auto, unfolding(crate::specs::Presence::admission_of))]
#[inline(always)]
pub fn stays_in(inst: &Instance, plan: &Plan, room: RoomNo, person: u32) -> bool
    requires plan { IsPlanOf inst.now.draft plan.now }
    requires person { person < person_count inst.now.draft }
    ensures { result ≡ is_number (room_of inst.now.draft plan.now person) room.0 }
{
    let patients = inst.patients();
    if person < patients {
        match plan.stay(PatientNo(person)) {
            None => false,
            Some(at) => at.room.0 == room.0,
        }
    } else {
        inst.occupant(person - patients).room_id.0 == room.0
    }
}

/// Whether the person is in the room on the day.
#[tactic(auto, unfolding(crate::specs::Presence::admission_of, crate::specs::Persons::person_of))]
#[inline(always)]
pub fn is_present(inst: &Instance, plan: &Plan, room: RoomNo, day: u32, person: u32) -> bool
    requires plan { IsPlanOf inst.now.draft plan.now }
    requires person { person < person_count inst.now.draft }
    ensures { result ≡ is_present inst.now.draft plan.now room.0 day person }
{
    let patients = inst.patients();
    if person < patients {
        let a = inst.patient(PatientNo(person));
        match plan.stay(PatientNo(person)) {
            None => false,
            Some(at) => {
                at.room.0 == room.0
                    && at.day.0 <= day
                    && (day as u64) < at.day.0 as u64 + a.length_of_stay as u64
            }
        }
    } else {
        let o = inst.occupant(person - patients);
        o.room_id.0 == room.0 && day < o.length_of_stay
    }
}

#[tactic(auto, unfolding(crate::specs::Persons::person_of))]
#[inline(always)]
fn gender(inst: &Instance, person: u32) -> &str
    requires { person < person_count inst.now.draft }
    ensures { result.now ≡ (person_of inst.now.draft person).gender }
{
    let patients = inst.patients();
    if person < patients {
        inst.patient(PatientNo(person)).gender.as_str()
    } else {
        inst.occupant(person - patients).gender.as_str()
    }
}

/// Whether two persons have one gender.
#[tactic(auto, unfolding(crate::specs::Persons::person_of))]
#[inline(always)]
pub fn same_gender(inst: &Instance, person: u32, other: u32) -> bool
    requires first { person < person_count inst.now.draft }
    requires second { other < person_count inst.now.draft }
    ensures { result ≡ bytes_eq (person_of inst.now.draft person).gender (person_of inst.now.draft other).gender }
{
    gender(inst, person) == gender(inst, other)
}

/// The person's age group.
#[tactic(auto, unfolding(crate::specs::Persons::person_of))]
#[inline(always)]
pub fn age_group(inst: &Instance, person: u32) -> u32
    requires { person < person_count inst.now.draft }
    ensures value { result ≡ (person_of inst.now.draft person).age_group }
    ensures bound { result < 64 }
{
    let patients = inst.patients();
    if person < patients {
        inst.patient(PatientNo(person)).age_group
    } else {
        inst.occupant(person - patients).age_group
    }
}

// Which entry of the person's vectors is the shift's.
#[tactic(auto, unfolding(crate::specs::Presence::admission_of, crate::specs::Presence::entry_of))]
#[inline(always)]
fn entry_of(inst: &Instance, plan: &Plan, person: u32, shift: u32) -> u32
    requires plan { IsPlanOf inst.now.draft plan.now }
    requires person { person < person_count inst.now.draft }
    ensures { result ≡ entry_of inst.now.draft plan.now person shift }
{
    let patients = inst.patients();
    if person < patients {
        match plan.stay(PatientNo(person)) {
            None => 0,
            Some(at) => (shift as u64).saturating_sub(3 * at.day.0 as u64) as u32,
        }
    } else {
        let _occupant = inst.occupant(person - patients);
        shift
    }
}

/// The care that a person needs in a shift.
#[derive(Clone, Copy)]
pub struct CareNeed {
    pub workload: u32,
    pub skill: u32,
}

/// The care that the person needs in the shift, by one look-up of the person.
#[tactic(auto, unfolding(crate::specs::Persons::person_of))]
#[inline(always)]
pub fn care_need_of(inst: &Instance, plan: &Plan, person: u32, shift: u32) -> CareNeed
    requires plan { IsPlanOf inst.now.draft plan.now }
    requires person { person < person_count inst.now.draft }
    ensures workload { result.workload ≡ workload_of inst.now.draft plan.now shift person }
    ensures skill { result.skill ≡ skill_of inst.now.draft plan.now shift person }
    ensures workload_bound { result.workload ≤ 100000 }
    ensures skill_bound { result.skill ≤ 1000 }
{
    let at = entry_of(inst, plan, person, shift) as usize;
    let patients = inst.patients();
    if person < patients {
        let a = inst.patient(PatientNo(person));
        CareNeed {
            workload: a.workload_produced.as_slice().get(at).copied().unwrap_or(0),
            skill: a
                .skill_level_required
                .as_slice()
                .get(at)
                .copied()
                .unwrap_or(0),
        }
    } else {
        let o = inst.occupant(person - patients);
        CareNeed {
            workload: o.workload_produced.as_slice().get(at).copied().unwrap_or(0),
            skill: o
                .skill_level_required
                .as_slice()
                .get(at)
                .copied()
                .unwrap_or(0),
        }
    }
}

/// The workload that the person makes in the shift.
#[inline(always)]
pub fn workload_of(inst: &Instance, plan: &Plan, person: u32, shift: u32) -> u32
    requires plan { IsPlanOf inst.now.draft plan.now }
    requires person { person < person_count inst.now.draft }
    ensures value { result ≡ workload_of inst.now.draft plan.now shift person }
    ensures bound { result ≤ 100000 }
{
    care_need_of(inst, plan, person, shift).workload
}

/// The skill that the person requires in the shift.
#[inline(always)]
pub fn skill_of(inst: &Instance, plan: &Plan, person: u32, shift: u32) -> u32
    requires plan { IsPlanOf inst.now.draft plan.now }
    requires person { person < person_count inst.now.draft }
    ensures value { result ≡ skill_of inst.now.draft plan.now shift person }
    ensures bound { result ≤ 1000 }
{
    care_need_of(inst, plan, person, shift).skill
}

/// The day after the last counted one of a stay of so many days from a day on: days past the horizon aren't counted.
#[inline(always)]
pub fn end_from(inst: &Instance, day: u32, len: u32) -> u32
    ensures value { result ≡ end_from inst.now.draft day len }
    ensures days { result ≤ inst.now.draft.days }
{
    (day as u64 + len as u64).min(inst.days() as u64) as u32
}

/// The day after the last counted one of a patient's stay with this placement: days past the horizon aren't counted.
#[tactic(auto, unfolding(crate::specs::Persons::person_of))]
#[inline(always)]
pub fn end_of(inst: &Instance, patient: PatientNo, at: Placement) -> u32
    requires patient { patient.0 < patient_count inst.now.draft }
    requires placement { IsPlacement inst.now.draft at }
    ensures value { result ≡ end_of inst.now.draft patient.0 at }
    ensures order { at.day.0 ≤ result }
    ensures days { result ≤ inst.now.draft.days }
{
    end_from(inst, at.day.0, inst.patient(patient).length_of_stay)
}

/// How many shifts of a stay of so many days from a day on are counted.
#[inline(always)]
pub fn counted_shifts(inst: &Instance, day: u32, len: u32) -> u32
    requires day { day < inst.now.draft.days }
    requires len { len ≤ 100 }
    ensures count { result ≡ 3 * (end_from inst.now.draft day len - day) }
    ensures inside { 3 * day + result ≤ shift_count inst.now.draft }
{
    3 * (end_from(inst, day, len) - day)
}

/// The room's nurse in the shift, where it has one.
#[inline(always)]
pub fn nurse_at(inst: &Instance, plan: &Plan, room: RoomNo, shift: Shift) -> Option<NurseNo>
    requires plan { IsPlanOf inst.now.draft plan.now }
    requires room { room.0 < room_count inst.now.draft }
    requires shift { shift.0 < shift_count inst.now.draft }
    ensures choice { result ≡ choice_of plan.now room.0 shift.0 }
    ensures nurse { IfSome result (λ a. a.0 < nurse_count inst.now.draft) }
{
    plan.care(room, shift)
}
