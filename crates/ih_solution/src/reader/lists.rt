//! Lists whose items have places, and flags for the numbers that were met.

ghost use Rattle.std.specs.Prelude.{◌≡◌, ◌<◌, ◌^◌, false, map, length, replicate, IfOk};
ghost use Rattle.serde_json.specs.View.{view};
ghost use Rattle.ih_format.specs.{Gives.Gives, Checks.list};

use ih_format::{FormatError, json_values};
use ih_tables::Place;
use serde_json::Value;
use std::alloc::{AllocError, Global};

/// The items of a list. Places count them in 32 bits: of a longer list there is no memory for the places.
pub fn items(value: &Value, at: Place) -> Result<&[Value], FormatError>
    ensures few { IfOk result (λ s. length s.now < 2 ^ 32) }
    ensures gives { Gives (λ s. map view s.now) result (list at (view value.now)) }
{
    let values = json_values::list(value, at)?;
    if values.len() > u32::MAX as usize {
        return Err(FormatError::OutOfMemory);
    }
    Ok(values)
}

/// A flag for each number below `number`, none of them set.
pub fn no_flags(alloc: Global, number: u32) -> Result<Vec<bool>, AllocError>
    ensures { IfOk result (λ v. v.items ≡ replicate number false) }
{
    vec![in alloc; false; number as usize]
}
