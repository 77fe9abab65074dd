//! A table from names to their numbers.

ghost use Rattle.std.specs.Prelude.{◌≡◌, ◌≢◌, ◌<◌, ◌^◌, ℕ, List as Items, IfOk, AllPairs, map, length};
ghost use Rattle.ih_tables.specs.Lookups.{IsIndexOf};

use std::alloc::{AllocError, Global};
use std::collections::BTreeMap;

/// Names, each with a number. A look-up takes time logarithmic in how many there are.
#[derive(Drop)]
pub struct Names {
    numbers: BTreeMap<String, u32>,
}

impl Names {
    ghost use Rattle.std.specs.Prelude.{◌≡◌, None, OnOk, OnErr, List, ℕ};
    ghost use Rattle.ih_tables.specs.Lookups.{finds, Adds};

    /// A table that finds no name.
    pub fn new(alloc: Global) -> Names
        ensures { (s : List ℕ) → finds result s ≡ None }
    {
        Names {
            numbers: BTreeMap::new(alloc),
        }
    }

    /// The number of a name, if the table has it.
    pub fn find(&self, name: &str) -> Option<u32>
        ensures { result ≡ finds self.now name.now }
    {
        self.numbers.get(name).copied()
    }

    /// Gives a name a number, in place of one that it had. Without memory the table finds what it found.
    pub fn add(&mut self, alloc: Global, name: &str, number: u32) -> Result<(), AllocError>
        ensures added { OnOk result (Adds self.old self.new name.now number) }
        ensures unchanged { OnErr result ((s : List ℕ) → finds self.new s ≡ finds self.old s) }
    {
        self.numbers.insert(String::from_str(alloc, name)?, number)?;
        Ok(())
    }
}

/// What has an id.
pub trait HasId {
    ghost id: { Self → Items ℕ };

    fn id(&self) -> &str
        ensures { result.now ≡ id self.now };
}

/// The numbers of items whose ids are distinct.
pub fn numbers_of<T: HasId>(alloc: Global, items: &[T]) -> Result<Names, AllocError>
    requires few { length items.now < 2 ^ 32 }
    requires distinct { AllPairs (λ x y. T.id x ≢ T.id y) items.now }
    ensures { IfOk result (λ n. IsIndexOf n (map T.id items.now)) }
{
    let mut numbers = Names::new(alloc);
    let mut i = 0;
    for item in items {
        numbers.add(alloc, item.id(), i)?;
        i += 1;
    }
    Ok(numbers)
}
