//! Things as JSON values, and lists of them.

ghost use Rattle.std.specs.Prelude.{◌≡◌, ◌<◌, IfOk, List as Items, Ok, ℕ, map, unsigned_abs};
ghost use Rattle.serde_json.specs.{Data.Data, Data.boolean, Data.string, View.view};
ghost use Rattle.serde_json.specs.declared.value.Value.{Value};
ghost use Rattle.ih_tables.specs.Listed.{listed};
ghost use Rattle.ih_solution.specs.Solution.{list_data, number_data};
ghost use Rattle.ih_values.specs.Values.{amount_data, numbered_data, option_data};

use crate::objects::Array;
use ih_solution::listed_values;
use ih_tables::Name;
use serde_json::Value;
use std::alloc::{AllocError, Global};

/// What is made, a JSON value if nothing else is said: it is missing only where memory ran out.
pub type Made<T = Value> = Result<T, AllocError>;

/// What stands in a page's data as a JSON value.
pub trait Shown {
    ghost json: { Self → Data };

    fn value(&self, alloc: Global) -> Made
        ensures { IfOk result (λ v. view v ≡ json self.now) };
}

impl Shown for u32 {
    ghost json = { number_data };

    fn value(&self, _alloc: Global) -> Made {
        Ok(Value::from(*self))
    }
}

impl Shown for u64 {
    ghost json = { number_data };

    fn value(&self, _alloc: Global) -> Made {
        Ok(Value::from(*self))
    }
}

impl Shown for bool {
    ghost json = { boolean };

    fn value(&self, _alloc: Global) -> Made {
        Ok(Value::from(*self))
    }
}

/// A number without its sign.
impl Shown for i64 {
    ghost json = { amount_data };

    fn value(&self, _alloc: Global) -> Made {
        Ok(Value::from(self.unsigned_abs()))
    }
}

impl Shown for Name {
    ghost json = { string };

    fn value(&self, alloc: Global) -> Made {
        Value::try_from_str(alloc, self.as_str())
    }
}

/// Null stands for nothing.
impl<T: Shown> Shown for Option<T> {
    ghost json = { option_data T.json };

    fn value(&self, alloc: Global) -> Made {
        match self {
            None => Ok(Value::Null),
            Some(item) => item.value(alloc),
        }
    }
}

/// The list of what is shown.
pub fn list_value<T: Shown>(alloc: Global, items: &[T]) -> Made
    ensures { IfOk result (λ v. view v ≡ list_data (map T.json items.now)) }
{
    let mut values = Array::new(alloc);
    for item in items {
        values = values.add(item.value(alloc))?;
    }
    values.value()
}

/// The list of what each number below a count has.
pub fn listed_value<F: Fn(u32) -> Made>(alloc: Global, count: u32, value: F) -> Made
    requires { (n : ℕ) → n < count → F.pre value n }
    ensures { (f : ℕ → Data) → ((n : ℕ) (r : _) → n < count → F.post value n r → IfOk r (λ v. view v ≡ f n))
        → IfOk result (λ v. view v ≡ list_data (listed count f)) }
{
    Ok(Value::Array(listed_values(alloc, count, value)?))
}

/// A number and a value, if that could be made.
pub fn numbered_value(alloc: Global, number: u32, value: Made) -> Made
    ensures { IfOk result (λ v. (d : Value) × (value ≡ Ok d) × (view v ≡ numbered_data number (view d))) }
{
    Array::new(alloc)
        .add(Ok(Value::from(number)))?
        .add(value)?
        .value()
}
