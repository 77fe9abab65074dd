//! The ids of an instance's things, each read as its number. An id that the instance hasn't is Unknown.

ghost use Rattle.std.specs.Prelude.{◌≡◌, ◌<◌, IfOk};
ghost use Rattle.serde_json.specs.View.{view};
ghost use Rattle.ih_tables.specs.Sizes.{patient_count, room_count, nurse_count, theatre_count};
ghost use Rattle.ih_tables.specs.declared.refusals.Fault.TheVariants.{Unknown};
ghost use Rattle.ih_format.specs.{Gives.seen, Checks.or_else};
ghost use Rattle.ih_solution.specs.Reading.{patient_named, room_named, nurse_named, theatre_named, shift_type_named};

use ih_format::json_values;
use ih_tables::{Fault, Instance, NurseNo, PatientNo, Place, Refusal, RoomNo, TheatreNo};
use serde_json::Value;

// What was found; else Unknown.
fn known<T>(found: Option<T>, at: Place) -> Result<T, Refusal>
    ensures { result ≡ or_else Unknown at found }
{
    match found {
        Some(number) => Ok(number),
        None => Err(json_values::refusal(Fault::Unknown, at)),
    }
}

/// The number of the patient with this id.
///
/// # Errors
/// `Kind` if the value is no text, `Range` if the text is empty or longer than 100 bytes, `Unknown` if there is none.
#[tactic(auto, using(crate::proofs::References::finding))]
pub fn patient(inst: &Instance, value: &Value, at: Place) -> Result<PatientNo, Refusal>
    ensures inside { IfOk result (λ p. p.0 < patient_count inst.now.draft) }
    ensures gives { seen (λ p. p.0) result ≡ patient_named inst.now.draft at (view value.now) }
{
    let id = json_values::text(value, at)?;
    known(inst.find_patient(id), at)
}

/// The number of the nurse with this id.
///
/// # Errors
/// `Kind` if the value is no text, `Range` if the text is empty or longer than 100 bytes, `Unknown` if there is none.
#[tactic(auto, using(crate::proofs::References::finding))]
pub fn nurse(inst: &Instance, value: &Value, at: Place) -> Result<NurseNo, Refusal>
    ensures inside { IfOk result (λ n. n.0 < nurse_count inst.now.draft) }
    ensures gives { seen (λ n. n.0) result ≡ nurse_named inst.now.draft at (view value.now) }
{
    let id = json_values::text(value, at)?;
    known(inst.find_nurse(id), at)
}

/// The number of the room with this id.
///
/// # Errors
/// `Kind` if the value is no text, `Range` if the text is empty or longer than 100 bytes, `Unknown` if there is none.
#[tactic(auto, using(crate::proofs::References::finding))]
pub fn room(inst: &Instance, value: &Value, at: Place) -> Result<RoomNo, Refusal>
    ensures inside { IfOk result (λ r. r.0 < room_count inst.now.draft) }
    ensures gives { seen (λ r. r.0) result ≡ room_named inst.now.draft at (view value.now) }
{
    let id = json_values::text(value, at)?;
    known(inst.find_room(id), at)
}

/// The number of the theatre with this id.
///
/// # Errors
/// `Kind` if the value is no text, `Range` if the text is empty or longer than 100 bytes, `Unknown` if there is none.
#[tactic(auto, using(crate::proofs::References::finding))]
pub fn theatre(inst: &Instance, value: &Value, at: Place) -> Result<TheatreNo, Refusal>
    ensures inside { IfOk result (λ t. t.0 < theatre_count inst.now.draft) }
    ensures gives { seen (λ t. t.0) result ≡ theatre_named inst.now.draft at (view value.now) }
{
    let id = json_values::text(value, at)?;
    known(inst.find_theatre(id), at)
}

/// The number of the shift type with this name: 0, 1 or 2, in the instance's order.
///
/// # Errors
/// `Kind` if the value is no text, `Range` if the text is empty or longer than 100 bytes, `Unknown` if there is none.
#[tactic(auto, using(crate::proofs::References::finding))]
pub fn shift_type(inst: &Instance, value: &Value, at: Place) -> Result<u32, Refusal>
    ensures inside { IfOk result (λ n. n < 3) }
    ensures gives { result ≡ shift_type_named inst.now.draft at (view value.now) }
{
    let id = json_values::text(value, at)?;
    known(inst.find_shift_type(id), at)
}
