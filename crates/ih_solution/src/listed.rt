//! Lists of JSON values.

ghost use Rattle.std.specs.Prelude.{◌≡◌, ◌<◌, ℕ, IfOk, map};
ghost use Rattle.serde_json.specs.{Data.Data, View.view};
ghost use Rattle.ih_tables.specs.Listed.{listed};

use serde_json::Value;
use std::alloc::{AllocError, Global};

/// The values of the numbers below a count, in order.
#[tactic(auto, using(crate::proofs::ListedValues::listed_steps))]
pub fn listed_values<F: Fn(u32) -> Result<Value, AllocError>>(
    alloc: Global,
    count: u32,
    value: F,
) -> Result<Vec<Value>, AllocError>
    requires { (n : ℕ) → n < count → F.pre value n }
    ensures { (f : ℕ → Data) → ((n : ℕ) (r : _) → n < count → F.post value n r → IfOk r (λ v. view v ≡ f n))
        → IfOk result (λ vs. map view vs.items ≡ listed count f) }
{
    let mut values = Vec::new(alloc);
    for n in 0..count {
        values.push(value(n)?)?;
    }
    Ok(values)
}
