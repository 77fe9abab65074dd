//! What values are to be.

ghost use Rattle.std.specs.Prelude.{◌≡◌, IfOk, string_bytes};
ghost use Rattle.ih_remedies.specs.Forms.{count_text, form_at, form_of, form_text, item_form};

use crate::owners::key_at;
use crate::values::Text;
use ih_tables::{Key, Place};
use std::alloc::Global;

/// What a value is to be.
#[derive(Clone, Copy, Debug, PartialEq, Eq)]
pub enum Form {
    /// A whole number within these limits.
    Number(u32, u32),
    /// A day of the instance.
    Day,
    /// A day of the instance, or the text `none`.
    DayOrNone,
    /// A text of 1 to 100 bytes.
    Text,
    /// A truth value.
    Truth,
    /// An object.
    Object,
    /// A list.
    List,
}

// What the value of a key is to be.
fn form_of(key: Key) -> Form
    ensures { result ≡ form_of key }
{
    match key {
        Key::Days => Form::Number(1, 56),
        Key::SkillLevels => Form::Number(1, 1000),
        Key::LengthOfStay => Form::Number(1, 100),
        Key::Capacity | Key::SkillLevel | Key::SurgeryReleaseDay | Key::SurgeryDueDay => {
            Form::Number(0, 1000)
        }
        Key::RoomMixedAge
        | Key::RoomNurseSkill
        | Key::ContinuityOfCare
        | Key::NurseEccessiveWorkload
        | Key::NurseExcessiveWorkload
        | Key::OpenOperatingTheater
        | Key::SurgeonTransfer
        | Key::PatientDelay
        | Key::UnscheduledOptional
        | Key::MaxLoad
        | Key::SurgeryDuration => Form::Number(0, 100000),
        Key::Day => Form::Day,
        Key::AdmissionDay => Form::DayOrNone,
        Key::Id
        | Key::Shift
        | Key::Gender
        | Key::AgeGroup
        | Key::RoomId
        | Key::SurgeonId
        | Key::Room
        | Key::OperatingTheater => Form::Text,
        Key::Mandatory => Form::Truth,
        Key::Weights => Form::Object,
        _ => Form::List,
    }
}

// What an item of the list under a key is to be. Rooms are objects in their section, and ids in an assignment.
fn item_form(key: Key, is_section: bool) -> Form
    ensures { result ≡ item_form key is_section }
{
    match key {
        Key::MaxSurgeryTime | Key::Availability | Key::WorkloadProduced => Form::Number(0, 100000),
        Key::SkillLevelRequired => Form::Number(0, 1000),
        Key::ShiftTypes | Key::AgeGroups | Key::IncompatibleRoomIds => Form::Text,
        Key::Rooms => { if is_section { Form::Object } else { Form::Text } }
        _ => Form::Object,
    }
}

/// What the value at a place is to be.
pub fn form_at(at: Place) -> Form
    ensures { result ≡ form_at at }
{
    match key_at(at) {
        None => Form::Object,
        Some(key) => match at.last {
            None => form_of(key),
            Some(_) => item_form(key, at.first.is_none()),
        },
    }
}

/// What is said of it.
#[tactic(auto, unfolding(crate::specs::Forms::form_text))]
pub fn form_text(alloc: Global, form: Form) -> Text
    ensures { IfOk result (λ s. string_bytes s ≡ form_text form) }
{
    match form {
        Form::Number(least, most) => { format!(in alloc; "a whole number from {least} to {most}") }
        Form::Day => format!(in alloc; "a whole number from 0, below \"days\""),
        Form::DayOrNone => format!(in alloc;
            "a whole number from 0, below \"days\", or the text \"none\""
        ),
        Form::Text => format!(in alloc; "a text between double quotes, of 1 to 100 bytes"),
        Form::Truth => format!(in alloc; "true or false"),
        Form::Object => format!(in alloc; "an object"),
        Form::List => format!(in alloc; "a list"),
    }
}

/// How many items the list under a key is to have.
pub fn count_text(key: Option<Key>) -> &'static str
    ensures { result.now ≡ count_text key }
{
    match key {
        Some(Key::ShiftTypes) => "3",
        Some(Key::AgeGroups | Key::OperatingTheaters) => "64 at most",
        Some(Key::Surgeons) => "128 at most",
        Some(Key::Rooms) => "1 to 128",
        Some(Key::Nurses | Key::Occupants) => "512 at most",
        Some(Key::Patients) => "2048 at most",
        Some(Key::IncompatibleRoomIds) => "1024 at most",
        Some(Key::MaxSurgeryTime | Key::Availability) => "at least one for each day",
        Some(Key::WorkloadProduced | Key::SkillLevelRequired) => {
            "at least three for each day of the stay, but for days from \"days\" on"
        }
        _ => "another number of them",
    }
}
