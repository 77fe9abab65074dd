//! Names of things, and lists of them.

ghost use Rattle.std.specs.Prelude.{◌≡◌, ◌<◌, IfOk, map, string_bytes};
ghost use Rattle.ih_tables.specs.Sizes.{person_count, room_count, nurse_count, shift_count};
ghost use Rattle.ih_tables.specs.Sizes.{surgeon_count, theatre_count};
ghost use Rattle.ih_solution.specs.Solution.{nurse_id, room_id, shift_type_of, theatre_id};
ghost use Rattle.ih_sheet.specs.Rows.{listed_names, person_id, surgeon_id, yes_or_no};

use ih_tables::{Instance, NurseNo, Patient, PatientNo, RoomNo, Shift, SurgeonNo, TheatreNo};
use std::alloc::{AllocError, Global};

pub fn room_id(inst: &Instance, room: RoomNo) -> &str
    requires { room.0 < room_count inst.now.draft }
    ensures { result.now ≡ room_id inst.now.draft room.0 }
{
    inst.room(room).id.as_str()
}

pub fn theatre_id(inst: &Instance, theatre: TheatreNo) -> &str
    requires { theatre.0 < theatre_count inst.now.draft }
    ensures { result.now ≡ theatre_id inst.now.draft theatre.0 }
{
    inst.theatre(theatre).id.as_str()
}

pub fn surgeon_id(inst: &Instance, surgeon: SurgeonNo) -> &str
    requires { surgeon.0 < surgeon_count inst.now.draft }
    ensures { result.now ≡ surgeon_id inst.now.draft surgeon.0 }
{
    inst.surgeon(surgeon).id.as_str()
}

pub fn nurse_id(inst: &Instance, nurse: NurseNo) -> &str
    requires { nurse.0 < nurse_count inst.now.draft }
    ensures { result.now ≡ nurse_id inst.now.draft nurse.0 }
{
    inst.nurse(nurse).id.as_str()
}

/// The name of a shift's type.
pub fn shift_type(inst: &Instance, shift: Shift) -> &str
    ensures { result.now ≡ shift_type_of inst.now.draft shift.0 }
{
    inst.shift_type(shift.0 % 3).as_str()
}

/// The id of a person: patients first, then occupants.
#[tactic(auto, unfolding(crate::specs::Rows::person_id))]
pub fn person_id(inst: &Instance, person: u32) -> &str
    requires { person < person_count inst.now.draft }
    ensures { result.now ≡ person_id inst.now.draft person }
{
    let patients = inst.patients();
    if person < patients {
        inst.patient(PatientNo(person)).id.as_str()
    } else {
        inst.occupant(person - patients).id.as_str()
    }
}

/// The names with semicolons between them.
#[tactic(auto, using(crate::proofs::RowSteps::joined_steps))]
pub fn listed_names(alloc: Global, names: &[&str]) -> Result<String, AllocError>
    ensures { IfOk result (λ text. string_bytes text ≡ listed_names (map (λ name. name.now) names.now)) }
{
    names.join(alloc, ";")
}

/// Whether a patient must be admitted.
pub fn mandatory_text(patient: &Patient) -> &str
    ensures { result.now ≡ yes_or_no patient.now.mandatory }
{
    if patient.mandatory { "yes" } else { "no" }
}
