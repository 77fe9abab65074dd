//! The things that may have a slip: how many they are, and what they are called.

ghost use Rattle.std.specs.Prelude.{◌≡◌, ◌<◌};
ghost use Rattle.ih_tables.specs.Sizes.{person_count};
ghost use Rattle.ih_warnings.specs.Slips.{cost_name, count_of, gender_of, name_of};

use crate::slips::Slip;
use ih_tables::bill_numbers::{
    CONTINUITY_OF_CARE, EXCESS_WORKLOAD, MIXED_AGE, NURSE_SKILL, OPEN_THEATRE, PATIENT_DELAY,
    SURGEON_TRANSFER,
};
use ih_tables::{Instance, NurseNo, PatientNo, RoomNo, SurgeonNo, TheatreNo};

/// Of how many things it may be.
pub fn count_of(inst: &Instance, slip: Slip) -> u32
    ensures { result ≡ count_of inst.now.draft slip }
{
    match slip {
        Slip::RespeltAgeGroup => inst.draft.age_groups.as_slice().len() as u32,
        Slip::RespeltGender => inst.persons(),
        Slip::NoWeight => 8,
        Slip::IdleSurgeon => inst.surgeons(),
        Slip::ShutTheatre => inst.theatres(),
        Slip::UselessRoom => inst.rooms(),
        Slip::IdleNurse => inst.nurses(),
        Slip::RoomlessPatient => inst.patients(),
        Slip::EarlyPatient => inst.patients(),
    }
}

// What a cost is called.
fn cost_name(cost: usize) -> &'static str
    ensures { result.now ≡ cost_name cost }
{
    if cost == MIXED_AGE {
        "mixed ages"
    } else if cost == NURSE_SKILL {
        "missing skill"
    } else if cost == CONTINUITY_OF_CARE {
        "different nurses"
    } else if cost == EXCESS_WORKLOAD {
        "excess workload"
    } else if cost == OPEN_THEATRE {
        "open theatres"
    } else if cost == SURGEON_TRANSFER {
        "surgeons' transfers"
    } else if cost == PATIENT_DELAY {
        "waiting days"
    } else {
        "patients left out"
    }
}

// The person's gender.
#[tactic(auto, unfolding(ih_plan::specs::Persons::person_of))]
fn gender_of(inst: &Instance, person: u32) -> &str
    requires { person < person_count inst.now.draft }
    ensures { result.now ≡ gender_of inst.now.draft person }
{
    let patients = inst.patients();
    if person < patients {
        inst.patient(PatientNo(person)).gender.as_str()
    } else {
        inst.occupant(person - patients).gender.as_str()
    }
}

/// What a thing is called.
pub fn name_of(inst: &Instance, slip: Slip, index: u32) -> &str
    requires { index < count_of inst.now.draft slip }
    ensures { result.now ≡ name_of inst.now.draft slip index }
{
    match slip {
        Slip::RespeltAgeGroup => inst.draft.age_groups.as_slice()[index as usize].as_str(),
        Slip::RespeltGender => gender_of(inst, index),
        Slip::NoWeight => cost_name(index as usize),
        Slip::IdleSurgeon => inst.surgeon(SurgeonNo(index)).id.as_str(),
        Slip::ShutTheatre => inst.theatre(TheatreNo(index)).id.as_str(),
        Slip::UselessRoom => inst.room(RoomNo(index)).id.as_str(),
        Slip::IdleNurse => inst.nurse(NurseNo(index)).id.as_str(),
        Slip::RoomlessPatient => inst.patient(PatientNo(index)).id.as_str(),
        Slip::EarlyPatient => inst.patient(PatientNo(index)).id.as_str(),
    }
}
