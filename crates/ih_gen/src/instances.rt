//! The text of a generated instance.

ghost use Rattle.std.specs.Prelude.{◌≡◌, IfOk, Ok};
ghost use Rattle.ih_tables.specs.declared.drafts.Draft.{Draft};
ghost use Rattle.ih_instance.specs.Instance.{instance};
ghost use Rattle.ih_gen.specs.{Generated.generated_data, Generated.generated, Members.IsMade};

use crate::fixed::fixed_value;
use crate::members::with_member;
use crate::names::Made;
use crate::nurses::Nurses;
use crate::occupants::Occupants;
use crate::patients::Patients;
use crate::picks::Picks;
use crate::rooms::Rooms;
use crate::rows::rows;
use serde_json::Value;
use std::alloc::{AllocError, Global};

const DAYS: u32 = 28;

// The whole instance as a JSON value.
fn generated_value(alloc: Global, seed: u64) -> Made
    ensures { IsMade (generated_data seed) result }
{
    let mut picks = Picks::of(seed);
    let fixed = fixed_value(alloc, DAYS)?;
    let rooms = rows(alloc, &Rooms, &mut picks, 25)?;
    let housed = with_member(alloc, fixed, "rooms", Value::Array(rooms))?;
    let nurses = rows(alloc, &Nurses { days: DAYS }, &mut picks, 50)?;
    let staffed = with_member(alloc, housed, "nurses", Value::Array(nurses))?;
    let occupants = rows(alloc, &Occupants, &mut picks, 3)?;
    let occupied = with_member(alloc, staffed, "occupants", Value::Array(occupants))?;
    let patients = rows(alloc, &Patients { days: DAYS }, &mut picks, 400)?;
    with_member(alloc, occupied, "patients", Value::Array(patients))
}

/// The instance that a seed generates, as compact JSON with sorted keys and no line feed at its end: 28 days, 25
/// rooms, 50 nurses, 3 occupants, 400 patients, 10 surgeons and 5 operating theatres. All else is picked by the words
/// of one stream that begins by the seed. The reader of instance files takes it, whatever the seed.
#[tactic(auto, using(crate::proofs::WholeNumbers::whole_numbers))]
pub fn generate(alloc: Global, seed: u64) -> Result<Vec<u8>, AllocError>
    ensures written { IfOk result (λ text. text.items ≡ generated seed) }
    ensures read { IfOk result (λ text. (I : Draft) × (instance text.items ≡ Ok I)) }
{
    generated_value(alloc, seed)?.to_vec(alloc)
}
