//! The whole instance file: one JSON value, whose keys are read in the order of the competition's format.
//! The first check that fails is the refusal.

ghost use Rattle.std.specs.Prelude.{IfOk};
ghost use Rattle.serde_json.specs.View.{view};
ghost use Rattle.ih_tables.specs.Valid.{IsValid};
ghost use Rattle.ih_format.specs.Gives.{Gives};
ghost use Rattle.ih_instance.specs.Instance.{draft, instance};

use crate::people::People;
use crate::rooms::Rooms;
use crate::surgery::{Surgeons, Theatres};
use crate::weights;
use crate::words::Words;
use ih_format::{FormatError, documents, json_values, keys, reads};
use ih_tables::{Draft, Instance, Key, Place};
use serde_json::Value;
use std::alloc::Global;

// The data of a value, key by key.
#[tactic(auto, unfolding(crate::specs::Instance::draft))]
fn draft(alloc: Global, value: &Value, at: Place) -> Result<Draft, FormatError>
    ensures { Gives (λ d. d) result (draft at (view value.now)) }
{
    let _ = json_values::object(value, at)?;
    let days = keys::number(value, Key::Days, 1, 56, at)?;
    let skill_levels = keys::number(value, Key::SkillLevels, 1, 1000, at)?;
    let types = reads::under(alloc, &Words, value, Key::ShiftTypes, 3, 3, at)?;
    let groups = reads::under(alloc, &Words, value, Key::AgeGroups, 0, 64, at)?;
    let weights = weights::under(value, at)?;
    let surgeons = reads::under(alloc, &Surgeons { days }, value, Key::Surgeons, 0, 128, at)?;
    let theatres = reads::items_under(
        alloc,
        &Theatres { days },
        value,
        Key::OperatingTheaters,
        64,
        at,
    )?;
    let rooms = reads::under(alloc, &Rooms, value, Key::Rooms, 1, 128, at)?;
    let people = People {
        alloc,
        object: value,
        at,
        days,
        types: &types,
        groups: &groups,
        surgeons: &surgeons,
        rooms: &rooms,
    };
    let nurses = people.nurses()?;
    let occupants = people.occupants()?;
    let patients = people.patients()?;
    Ok(Draft {
        days,
        skill_levels,
        shift_types: types.0,
        age_groups: groups.0,
        weights,
        surgeons: surgeons.0,
        operating_theaters: theatres,
        rooms: rooms.0,
        nurses,
        occupants,
        patients,
    })
}

// The data of an instance file, or its first refusal.
fn read_draft(alloc: Global, bytes: &[u8]) -> Result<Draft, FormatError>
    ensures { Gives (λ d. d) result (instance bytes.now) }
{
    let value = documents::value_of(alloc, bytes)?;
    draft(alloc, &value, Place::whole())
}

/// The instance of a file, or its first refusal: bytes that aren't one JSON value are NotJson at `$`; then the
/// keys are checked in the format's order, and of each key in this order that it is there (Missing), its kind
/// (Kind), its limits (Range or Length), that its id is new (Duplicate) and that its reference is known (Unknown).
/// Memory may run out at any time. The data of a file that isn't refused is valid.
#[tactic(auto, using(crate::proofs::DraftSound::accepted_valid))]
pub fn read_instance(alloc: Global, bytes: &[u8]) -> Result<Instance, FormatError>
    ensures gives { Gives (λ i. i.draft) result (instance bytes.now) }
    ensures valid { IfOk (instance bytes.now) IsValid }
{
    let draft = read_draft(alloc, bytes)?;
    let instance = Instance::seal(alloc, draft)?;
    Ok(instance)
}
