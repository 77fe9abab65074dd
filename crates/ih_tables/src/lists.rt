//! A list that contracts see as the list of its items.

use std::marker::Model;

/// A `Vec` that contracts see as the list of its items.
#[derive(Drop)]
pub struct List<T> {
    inner: Vec<T>,
}

impl<T> Model for List<T> {
    ghost use Rattle.std.specs.Prelude.{List as Items};

    ghost Value = { Items T };

    ghost view = { λ l. l.inner.items };
}

impl<T> List<T> {
    ghost use Rattle.std.specs.Prelude.{◌≡◌};

    /// The list of these items; takes no memory.
    pub fn new(items: Vec<T>) -> List<T>
        ensures { result ≡ items.items }
    {
        List { inner: items }
    }

    /// The items.
    pub fn as_slice(&self) -> &[T]
        ensures { result.now ≡ self.now }
    {
        self.inner.as_slice()
    }

    /// The items, given back; takes no memory.
    pub fn into_vec(self) -> Vec<T>
        ensures { result.items ≡ self }
    {
        let List { inner } = self;
        inner
    }
}
