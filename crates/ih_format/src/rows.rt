//! An item of a list, and what is read of it.

ghost use Rattle.std.specs.Prelude.{◌≡◌, ◌<◌, ◌^◌, IfOk, None};
ghost use Rattle.serde_json.specs.View.{view};
ghost use Rattle.ih_tables.specs.Lookups.{finds};
ghost use Rattle.ih_format.specs.Gives.{Gives};
ghost use Rattle.ih_format.specs.Checks.{new_id, under, vector};

use crate::errors::FormatError;
use crate::{json_values, vectors};
use ih_tables::{Key, List, Name, Names, Place};
use serde_json::Value;
use std::alloc::Global;

/// An item of a list, with the ids of the items before it, and its place.
#[derive(Clone, Copy)]
pub struct Row<'a> {
    pub value: &'a Value,
    pub earlier: &'a Names,
    pub at: Place,
}

impl<'a> Row<'a> {
    /// The id of an object, which no earlier one has.
    pub fn id(&self, alloc: Global) -> Result<Name, FormatError>
        ensures new { IfOk result (λ s. finds self.now.earlier.now s ≡ None) }
        ensures gives { Gives (λ s. s) result
            (new_id (finds self.now.earlier.now) self.now.at (view self.now.value.now)) }
    {
        let _ = json_values::object(self.value, self.at)?;
        let value = json_values::value_of(self.value, Key::Id, self.at)?;
        let text = json_values::new_name(value, self.earlier, self.at.key(Key::Id))?;
        Ok(Name::new(String::from_str(alloc, text)?))
    }

    /// The first numbers of a list under a key.
    pub fn vector(
        &self,
        alloc: Global,
        key: Key,
        length: usize,
        high: u32,
    ) -> Result<List<u32>, FormatError>
        requires { length < 2 ^ 32 }
        ensures { Gives (λ xs. xs) result (under self.now.at (view self.now.value.now) key (vector length high)) }
    {
        let value = json_values::value_of(self.value, key, self.at)?;
        vectors::vector(alloc, value, length, high, self.at.key(key))
    }
}
