//! A file as one JSON value.

ghost use Rattle.serde_json.specs.View.{view};
ghost use Rattle.ih_tables.specs.{Places.whole, declared.refusals.Fault.TheVariants.NotJson};
ghost use Rattle.ih_format.specs.{Checks.or_else, Documents.value_of, Gives.Gives};

use crate::errors::FormatError;
use crate::json_values;
use ih_tables::{Fault, Place};
use serde_json::Value;
use std::alloc::Global;

/// The one JSON value that the bytes are; else NotJson at the whole.
#[tactic(auto, using(std::proofs::lemmas::Grind::common_steps))]
pub fn value_of(alloc: Global, bytes: &[u8]) -> Result<Value, FormatError>
    ensures { Gives view result (or_else NotJson whole (value_of bytes.now)) }
{
    match Value::from_slice(alloc, bytes) {
        Ok(value) => Ok(value),
        Err(e) => {
            if e.is_memory() {
                return Err(FormatError::OutOfMemory);
            }
            Err(FormatError::Refused(json_values::refusal(Fault::NotJson, Place::whole())))
        }
    }
}
