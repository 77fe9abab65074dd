//! JSON objects and arrays, built one after the other of what they hold.

use crate::values::{Made, Shown, list_value};
use serde_json::{Map, Value, put};
use std::alloc::Global;

/// A JSON object under way. Each member that is added gives the object anew, so nothing is held where memory runs out,
/// which keeps proofs short.
#[derive(Drop)]
pub struct Object {
    alloc: Global,
    map: Map<String, Value>,
}

impl Object {
    ghost use Rattle.std.specs.Prelude.{◌≡◌, IfOk, Ok, map as mapped};
    ghost use Rattle.serde_json.specs.Data.{no_members, object, put as with_member};
    ghost use Rattle.serde_json.specs.View.{view};
    ghost use Rattle.serde_json.specs.declared.value.Value.{Value};
    ghost use Rattle.ih_solution.specs.Solution.{list_data};
    ghost use Rattle.ih_values.specs.Objects.{members};

    /// Without members.
    pub fn new(alloc: Global) -> Object
        ensures { members result ≡ no_members }
    {
        Object {
            alloc,
            map: Map::new(alloc),
        }
    }

    /// Adds a value, if it could be made.
    pub fn put(self, key: &str, value: Made) -> Made<Object>
        ensures { IfOk result (λ o. (v : Value) × (value ≡ Ok v)
            × (members o ≡ with_member key.now (view v) (members self))) }
    {
        let Object { alloc, mut map } = self;
        put(&mut map, alloc, key, value?)?;
        Ok(Object { alloc, map })
    }

    /// Adds what is shown.
    pub fn show<T: Shown>(self, key: &str, item: &T) -> Made<Object>
        ensures { IfOk result (λ o. members o ≡ with_member key.now (T.json item.now) (members self)) }
    {
        let value = item.value(self.alloc);
        self.put(key, value)
    }

    /// Adds a list of what is shown.
    pub fn show_all<T: Shown>(self, key: &str, items: &[T]) -> Made<Object>
        ensures { IfOk result
            (λ o. members o ≡ with_member key.now (list_data (mapped T.json items.now)) (members self)) }
    {
        let value = list_value(self.alloc, items);
        self.put(key, value)
    }

    /// The whole.
    pub fn value(self) -> Made
        ensures { IfOk result (λ v. view v ≡ object (members self)) }
    {
        Ok(Value::Object(self.map))
    }
}

/// A JSON array under way, likewise.
#[derive(Drop)]
pub struct Array {
    values: Vec<Value>,
}

impl Array {
    ghost use Rattle.std.specs.Prelude.{◌≡◌, ◌++◌, [], ◌∷◌, IfOk, Ok};
    ghost use Rattle.serde_json.specs.View.{view};
    ghost use Rattle.serde_json.specs.declared.value.Value.{Value};
    ghost use Rattle.ih_solution.specs.Solution.{list_data};
    ghost use Rattle.ih_values.specs.Objects.{elements};

    /// Without elements.
    pub fn new(alloc: Global) -> Array
        ensures { elements result ≡ [] }
    {
        Array {
            values: Vec::new(alloc),
        }
    }

    /// Adds a value behind the others, if it could be made.
    pub fn add(self, value: Made) -> Made<Array>
        ensures { IfOk result (λ a. (v : Value) × (value ≡ Ok v) × (elements a ≡ elements self ++ view v ∷ [])) }
    {
        let Array { mut values } = self;
        values.push(value?)?;
        Ok(Array { values })
    }

    /// The whole.
    pub fn value(self) -> Made
        ensures { IfOk result (λ v. view v ≡ list_data (elements self)) }
    {
        Ok(Value::Array(self.values))
    }
}
