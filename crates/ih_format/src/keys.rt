//! The keys of an object, each read with its kind. A key that isn't there is Missing at the key.

ghost use Rattle.std.specs.Prelude.{◌≡◌, ◌≤◌, IfOk};
ghost use Rattle.serde_json.specs.View.{view};
ghost use Rattle.ih_tables.specs.Lookups.{finds};
ghost use Rattle.ih_format.specs.Gives.{Gives};
ghost use Rattle.ih_format.specs.Checks.{number, text, truth, reference, under};

use crate::errors::FormatError;
use crate::json_values;
use ih_tables::{Key, Name, Names, Place, Refusal};
use serde_json::Value;
use std::alloc::Global;

/// A whole number from low to high.
pub fn number(object: &Value, key: Key, low: u32, high: u32, at: Place) -> Result<u32, Refusal>
    ensures least { IfOk result (λ n. low ≤ n) }
    ensures most { IfOk result (λ n. n ≤ high) }
    ensures gives { result ≡ under at (view object.now) key (number low high) }
{
    let value = json_values::value_of(object, key, at)?;
    json_values::number(value, low, high, at.key(key))
}

/// A truth value.
pub fn truth(object: &Value, key: Key, at: Place) -> Result<bool, Refusal>
    ensures { result ≡ under at (view object.now) key truth }
{
    let value = json_values::value_of(object, key, at)?;
    json_values::truth(value, at.key(key))
}

/// The number of the listed name that a key gives.
pub fn reference(object: &Value, key: Key, numbers: &Names, at: Place) -> Result<u32, Refusal>
    ensures { result ≡ under at (view object.now) key (reference (finds numbers.now)) }
{
    let value = json_values::value_of(object, key, at)?;
    json_values::reference(value, numbers, at.key(key))
}

/// A text of 1 to 100 bytes.
pub fn text(alloc: Global, object: &Value, key: Key, at: Place) -> Result<Name, FormatError>
    ensures { Gives (λ s. s) result (under at (view object.now) key text) }
{
    let value = json_values::value_of(object, key, at)?;
    let text = json_values::text(value, at.key(key))?;
    Ok(Name::new(String::from_str(alloc, text)?))
}
