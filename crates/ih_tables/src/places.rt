//! Places in a file.

ghost use Rattle.std.specs.Prelude.{Some};
ghost use Rattle.ih_tables.specs.Places.{fault_name, refusal_text, key_name, step_text, item_text, section_text};
ghost use Rattle.ih_tables.specs.Places.{place_text};

use crate::refusals::{Fault, Key, Place, Refusal, Step};
use std::fmt;

impl Key {
    ghost use Rattle.std.specs.Prelude.{◌≡◌};
    ghost use Rattle.ih_tables.specs.Places.{key_name};

    /// The key, as files spell it.
    pub fn name(self) -> &'static str
        ensures { result.now ≡ key_name self }
    {
        match self {
            Key::Days => "days",
            Key::SkillLevels => "skill_levels",
            Key::ShiftTypes => "shift_types",
            Key::AgeGroups => "age_groups",
            Key::Weights => "weights",
            Key::RoomMixedAge => "room_mixed_age",
            Key::RoomNurseSkill => "room_nurse_skill",
            Key::ContinuityOfCare => "continuity_of_care",
            Key::NurseEccessiveWorkload => "nurse_eccessive_workload",
            Key::NurseExcessiveWorkload => "nurse_excessive_workload",
            Key::OpenOperatingTheater => "open_operating_theater",
            Key::SurgeonTransfer => "surgeon_transfer",
            Key::PatientDelay => "patient_delay",
            Key::UnscheduledOptional => "unscheduled_optional",
            Key::Surgeons => "surgeons",
            Key::Id => "id",
            Key::MaxSurgeryTime => "max_surgery_time",
            Key::OperatingTheaters => "operating_theaters",
            Key::Availability => "availability",
            Key::Rooms => "rooms",
            Key::Capacity => "capacity",
            Key::Nurses => "nurses",
            Key::SkillLevel => "skill_level",
            Key::WorkingShifts => "working_shifts",
            Key::Day => "day",
            Key::Shift => "shift",
            Key::MaxLoad => "max_load",
            Key::Occupants => "occupants",
            Key::Gender => "gender",
            Key::AgeGroup => "age_group",
            Key::LengthOfStay => "length_of_stay",
            Key::WorkloadProduced => "workload_produced",
            Key::SkillLevelRequired => "skill_level_required",
            Key::RoomId => "room_id",
            Key::Patients => "patients",
            Key::Mandatory => "mandatory",
            Key::SurgeryReleaseDay => "surgery_release_day",
            Key::SurgeryDueDay => "surgery_due_day",
            Key::SurgeryDuration => "surgery_duration",
            Key::SurgeonId => "surgeon_id",
            Key::IncompatibleRoomIds => "incompatible_room_ids",
            Key::AdmissionDay => "admission_day",
            Key::Room => "room",
            Key::OperatingTheater => "operating_theater",
            Key::Assignments => "assignments",
        }
    }
}

impl Fault {
    ghost use Rattle.std.specs.Prelude.{◌≡◌};
    ghost use Rattle.ih_tables.specs.Places.{fault_name};

    /// The fault's printed name: its variant's.
    pub fn name(self) -> &'static str
        ensures { result.now ≡ fault_name self }
    {
        match self {
            Fault::NotJson => "NotJson",
            Fault::Missing => "Missing",
            Fault::Kind => "Kind",
            Fault::Range => "Range",
            Fault::Length => "Length",
            Fault::Duplicate => "Duplicate",
            Fault::Unknown => "Unknown",
            Fault::TwoWeights => "TwoWeights",
            Fault::TwoNurses => "TwoNurses",
        }
    }
}

impl Place {
    ghost use Rattle.std.specs.Prelude.{◌≡◌};
    ghost use Rattle.ih_tables.specs.Places.{whole, at_key, at_item};

    /// The whole file.
    pub fn whole() -> Place
        ensures { result ≡ whole }
    {
        Place {
            section: None,
            first: None,
            second: None,
            last: None,
        }
    }

    /// The place of a key, below this place.
    pub fn key(self, key: Key) -> Place
        ensures { result ≡ at_key key self }
    {
        if self.section.is_none() {
            return Place {
                section: Some(key),
                ..self
            };
        }
        let step = Some(Step { at: self.last, key });
        if self.first.is_none() {
            return Place {
                first: step,
                last: None,
                ..self
            };
        }
        Place {
            second: step,
            last: None,
            ..self
        }
    }

    /// The place of an item, below a list's.
    pub fn item(self, index: u32) -> Place
        ensures { result ≡ at_item index self }
    {
        Place {
            last: Some(index),
            ..self
        }
    }
}

impl fmt::Display for Key {
    ghost output = { λ k. Some (key_name k) };

    fn fmt<W: fmt::Write>(&self, f: &mut fmt::Formatter<W>) -> fmt::Result {
        f.write_str(self.name())
    }
}

impl fmt::Display for Step {
    ghost output = { λ s. Some (step_text (Some s)) };

    fn fmt<W: fmt::Write>(&self, f: &mut fmt::Formatter<W>) -> fmt::Result {
        let key = self.key;
        match self.at {
            Some(i) => write!(f, "[{i}].{key}"),
            None => write!(f, ".{key}"),
        }
    }
}

// The list place at the end of a place.
#[derive(Clone, Copy)]
struct Last(Option<u32>);

impl fmt::Display for Last {
    ghost output = { λ l. Some (item_text l.0) };

    fn fmt<W: fmt::Write>(&self, f: &mut fmt::Formatter<W>) -> fmt::Result {
        match self.0 {
            Some(i) => write!(f, "[{i}]"),
            None => Ok(()),
        }
    }
}

// A step, if there is one.
#[derive(Clone, Copy)]
struct Further(Option<Step>);

impl fmt::Display for Further {
    ghost output = { λ x. Some (step_text x.0) };

    fn fmt<W: fmt::Write>(&self, f: &mut fmt::Formatter<W>) -> fmt::Result {
        match self.0 {
            Some(step) => write!(f, "{step}"),
            None => Ok(()),
        }
    }
}

// The section of a place, if there is one.
#[derive(Clone, Copy)]
struct Section(Option<Key>);

impl fmt::Display for Section {
    ghost output = { λ x. Some (section_text x.0) };

    fn fmt<W: fmt::Write>(&self, f: &mut fmt::Formatter<W>) -> fmt::Result {
        match self.0 {
            Some(key) => write!(f, ".{key}"),
            None => Ok(()),
        }
    }
}

#[tactic(auto, unfolding(crate::specs::Places::place_text))]
impl fmt::Display for Place {
    ghost output = { λ p. Some (place_text p) };

    fn fmt<W: fmt::Write>(&self, f: &mut fmt::Formatter<W>) -> fmt::Result {
        let section = Section(self.section);
        let first = Further(self.first);
        let second = Further(self.second);
        let last = Last(self.last);
        write!(f, "${section}{first}{second}{last}")
    }
}

impl fmt::Display for Fault {
    ghost output = { λ f. Some (fault_name f) };

    fn fmt<W: fmt::Write>(&self, f: &mut fmt::Formatter<W>) -> fmt::Result {
        f.write_str(self.name())
    }
}

#[tactic(auto, unfolding(crate::specs::Places::refusal_text))]
impl fmt::Display for Refusal {
    ghost output = { λ r. Some (refusal_text r) };

    fn fmt<W: fmt::Write>(&self, f: &mut fmt::Formatter<W>) -> fmt::Result {
        let fault = self.fault;
        let at = self.at;
        write!(f, "{fault} at {at}")
    }
}
