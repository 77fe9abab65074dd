//! Whether plain data is a valid instance.

ghost use Rattle.std.specs.Prelude.{◌≡◌, ◌≢◌, ◌<◌, ◌≤◌, ◌≤ℤ◌, ◌+◌, ◌*◌, ◌↔◌, pos, Some, IsTrue, IsSome, All, AllPairs};
ghost use Rattle.std.specs.Prelude.{Any, ℕ, length};
ghost use Rattle.ih_tables.specs.Valid.{Between, IsListed, IsName, IsNurse, IsOccupant, IsPatient, IsValid, IsVector};
ghost use Rattle.ih_tables.specs.Valid.{IsWorked, vector_len};
ghost use Rattle.ih_tables.specs.{Sizes.room_count, Works.shift_of};

use crate::bills::Weights;
use crate::checks::{are_at_most, between, is_listed, is_name, is_vector};
use crate::drafts::{Draft, Nurse, Occupant, Patient, Room, Surgeon, Theatre, WorkedShift};
use crate::ids::RoomNo;

fn are_weights(weights: &[i64]) -> bool
    ensures { IsTrue result ↔ All (λ x. (pos 0 ≤ℤ x) × (x ≤ℤ pos 100000)) weights.now }
{
    weights.iter().all(|x| 0 <= *x && *x <= 100_000)
}

fn have_minutes(days: u32, surgeons: &[Surgeon]) -> bool
    ensures { IsTrue result ↔ All (λ s. IsVector days 100000 s.max_surgery_time) surgeons.now }
{
    surgeons.iter().all(|s| is_vector(days as usize, 100_000, s.max_surgery_time.as_slice()))
}

fn have_availability(days: u32, theatres: &[Theatre]) -> bool
    ensures { IsTrue result ↔ All (λ t. IsVector days 100000 t.availability) theatres.now }
{
    theatres.iter().all(|t| is_vector(days as usize, 100_000, t.availability.as_slice()))
}

fn have_capacity(rooms: &[Room]) -> bool
    ensures { IsTrue result ↔ All (λ r. r.capacity ≤ 1000) rooms.now }
{
    rooms.iter().all(|r| r.capacity <= 1000)
}

fn is_worked(inst: &Draft, worked: &WorkedShift) -> bool
    ensures { IsTrue result ↔ IsWorked inst.now worked.now }
{
    worked.day.0 < inst.days && worked.shift < 3 && worked.max_load <= 100_000
}

fn are_worked(inst: &Draft, worked: &[WorkedShift]) -> bool
    ensures { IsTrue result ↔ All (IsWorked inst.now) worked.now }
{
    worked.iter().all(|w| is_worked(inst, w))
}

fn shift_of(worked: &WorkedShift) -> u64
    ensures { result ≡ shift_of worked.now }
{
    3 * worked.day.0 as u64 + worked.shift as u64
}

fn works_shift(worked: &[WorkedShift], shift: u64) -> bool
    ensures { IsTrue result ↔ Any (λ w. shift_of w ≡ shift) worked.now }
{
    worked.iter().any(|w| shift_of(w) == shift)
}

fn are_worked_once(worked: &[WorkedShift]) -> bool
    ensures { IsTrue result ↔ AllPairs (λ a b. shift_of a ≢ shift_of b) worked.now }
{
    for (i, w) in worked.iter().enumerate() {
        if works_shift(&worked[..i], shift_of(w)) {
            return false;
        }
    }
    true
}

fn is_nurse(inst: &Draft, nurse: &Nurse) -> bool
    ensures { IsTrue result ↔ IsNurse inst.now nurse.now }
{
    let shifts = nurse.working_shifts.as_slice();
    nurse.skill_level <= 1000 && are_worked(inst, shifts) && are_worked_once(shifts)
}

fn are_nurses(inst: &Draft, nurses: &[Nurse]) -> bool
    ensures { IsTrue result ↔ All (IsNurse inst.now) nurses.now }
{
    nurses.iter().all(|n| is_nurse(inst, n))
}

// What must hold of the gender, the age group and the length of stay of any person.
fn is_person(inst: &Draft, gender: &str, age_group: u32, length_of_stay: u32) -> bool
    ensures { IsTrue result ↔ (IsName gender.now
        × (age_group < length inst.now.age_groups)
        × Between 1 100 length_of_stay) }
{
    is_name(gender)
        && (age_group as usize) < inst.age_groups.as_slice().len()
        && between(1, 100, length_of_stay as usize)
}

// Whether these are what a person asks of a nurse, shift by shift of a stay: the workload, and the skill required.
fn is_asked(inst: &Draft, length_of_stay: u32, workload: &[u32], skill: &[u32]) -> bool
    ensures { IsTrue result ↔ (IsVector (vector_len inst.now length_of_stay) 100000 workload.now
        × IsVector (vector_len inst.now length_of_stay) 1000 skill.now) }
{
    let entries = 3 * length_of_stay.min(inst.days) as usize;
    is_vector(entries, 100_000, workload) && is_vector(entries, 1000, skill)
}

fn is_occupant(inst: &Draft, occupant: &Occupant) -> bool
    ensures { IsTrue result ↔ IsOccupant inst.now occupant.now }
{
    let stay = occupant.length_of_stay;
    let workload = occupant.workload_produced.as_slice();
    is_person(inst, occupant.gender.as_str(), occupant.age_group, stay)
        && is_asked(
            inst,
            stay,
            workload,
            occupant.skill_level_required.as_slice(),
        )
        && (occupant.room_id.0 as usize) < inst.rooms.as_slice().len()
}

fn are_occupants(inst: &Draft, occupants: &[Occupant]) -> bool
    ensures { IsTrue result ↔ All (IsOccupant inst.now) occupants.now }
{
    occupants.iter().all(|o| is_occupant(inst, o))
}

fn is_due_right(mandatory: bool, due: Option<u32>) -> bool
    ensures { IsTrue result ↔ ((IsSome due ↔ IsTrue mandatory) × ((d : ℕ) → due ≡ Some d → d ≤ 1000)) }
{
    match due {
        Some(d) => mandatory && d <= 1000,
        None => !mandatory,
    }
}

fn are_rooms(inst: &Draft, rooms: &[RoomNo]) -> bool
    ensures { IsTrue result ↔ All (λ r. r.0 < room_count inst.now) rooms.now }
{
    let count = inst.rooms.as_slice().len();
    rooms.iter().all(|r| (r.0 as usize) < count)
}

fn is_patient(inst: &Draft, patient: &Patient) -> bool
    ensures { IsTrue result ↔ IsPatient inst.now patient.now }
{
    let stay = patient.length_of_stay;
    let workload = patient.workload_produced.as_slice();
    is_person(inst, patient.gender.as_str(), patient.age_group, stay)
        && patient.surgery_release_day <= 1000
        && is_due_right(patient.mandatory, patient.surgery_due_day)
        && patient.surgery_duration <= 100_000
        && (patient.surgeon_id.0 as usize) < inst.surgeons.as_slice().len()
        && patient.incompatible_room_ids.as_slice().len() <= 1024
        && are_rooms(inst, patient.incompatible_room_ids.as_slice())
        && is_asked(
            inst,
            stay,
            workload,
            patient.skill_level_required.as_slice(),
        )
}

fn are_patients(inst: &Draft, patients: &[Patient]) -> bool
    ensures { IsTrue result ↔ All (IsPatient inst.now) patients.now }
{
    patients.iter().all(|p| is_patient(inst, p))
}

// Days, skill levels, shift types, age groups and weights.
fn has_settings(inst: &Draft) -> bool
    ensures { IsTrue result ↔ (Between 1 56 inst.now.days
        × Between 1 1000 inst.now.skill_levels
        × IsListed 3 3 (λ t. t) inst.now.shift_types
        × IsListed 0 64 (λ t. t) inst.now.age_groups
        × All (λ w. (pos 0 ≤ℤ w) × (w ≤ℤ pos 100000)) inst.now.weights.w) }
{
    between(1, 56, inst.days as usize)
        && between(1, 1000, inst.skill_levels as usize)
        && is_listed(3, 3, inst.shift_types.as_slice())
        && is_listed(0, 64, inst.age_groups.as_slice())
        && are_weights(&inst.weights.w)
}

// Surgeons and operating theatres.
fn has_surgery(inst: &Draft) -> bool
    ensures { IsTrue result ↔ (IsListed 0 128 (λ s. s.id) inst.now.surgeons
        × All (λ s. IsVector inst.now.days 100000 s.max_surgery_time) inst.now.surgeons
        × IsListed 0 64 (λ t. t.id) inst.now.operating_theaters
        × All (λ t. IsVector inst.now.days 100000 t.availability) inst.now.operating_theaters) }
{
    let surgeons = inst.surgeons.as_slice();
    let theatres = inst.operating_theaters.as_slice();
    is_listed(0, 128, surgeons)
        && have_minutes(inst.days, surgeons)
        && is_listed(0, 64, theatres)
        && have_availability(inst.days, theatres)
}

// Rooms and nurses.
fn has_wards(inst: &Draft) -> bool
    ensures { IsTrue result ↔ (IsListed 1 128 (λ r. r.id) inst.now.rooms
        × All (λ r. r.capacity ≤ 1000) inst.now.rooms
        × IsListed 0 512 (λ n. n.id) inst.now.nurses
        × All (IsNurse inst.now) inst.now.nurses) }
{
    let rooms = inst.rooms.as_slice();
    let nurses = inst.nurses.as_slice();
    is_listed(1, 128, rooms)
        && have_capacity(rooms)
        && is_listed(0, 512, nurses)
        && are_nurses(inst, nurses)
}

// Occupants and patients.
fn has_persons(inst: &Draft) -> bool
    ensures { IsTrue result ↔ (IsListed 0 512 (λ o. o.id) inst.now.occupants
        × All (IsOccupant inst.now) inst.now.occupants
        × IsListed 0 2048 (λ p. p.id) inst.now.patients
        × All (IsPatient inst.now) inst.now.patients) }
{
    let occupants = inst.occupants.as_slice();
    let patients = inst.patients.as_slice();
    is_listed(0, 512, occupants)
        && are_occupants(inst, occupants)
        && is_listed(0, 2048, patients)
        && are_patients(inst, patients)
}

impl Draft {
    /// Whether all is in its limits, each vector has just the entries that are read, a due day is
    /// there exactly for mandatory patients, shift types, age groups and the ids of each list are
    /// distinct, no nurse works one shift twice, and references are in range.
    pub fn is_valid(&self) -> bool
        ensures { IsTrue result ↔ IsValid self.now }
    {
        has_settings(self) && has_surgery(self) && has_wards(self) && has_persons(self)
    }
}
