//! Objects that are made member by member.

ghost use Rattle.serde_json.specs.View.{view};
ghost use Rattle.ih_gen.specs.Members.{IsMade, with_member};

use crate::names::Made;
use serde_json::{Value, put};
use std::alloc::Global;

/// The object with one member more. Any other value stays as it is.
pub fn with_member(alloc: Global, value: Value, key: &str, member: Value) -> Made
    ensures { IsMade (with_member key.now (view member) (view value)) result }
{
    match value {
        Value::Object(mut members) => {
            put(&mut members, alloc, key, member)?;
            Ok(Value::Object(members))
        }
        other => Ok(other),
    }
}
