//! Whether a name is there, without reading it.

use crate::memory::MemShelf;
use crate::outside::Shelf;
use crate::real::FileShelf;
use crate::stored::NeverFails;
use std::fs;
use std::rt::Files;

/// A shelf that can be asked for a name.
pub trait Finds: Shelf {
    ghost use Rattle.std.specs.Prelude.{◌≡◌, IfSome};
    ghost use Rattle.ih_shelf.specs.Outside.{is_there};

    /// Whether the name is there. It is taken to be there where that can't be told. A shelf stays as
    /// it is, and counts no fault.
    fn finds<R: Files>(&self, rt: &R, name: &str) -> bool
        ensures { IfSome (Self.names self.now) (λ held. result ≡ is_there held name.now) };
}

impl Finds for MemShelf {
    ghost use Rattle.std.specs.Prelude.{◌≡◌};
    ghost use Rattle.ih_shelf.specs.{Outside.is_there, Stored.names_of};

    fn finds<R: Files>(&self, _rt: &R, name: &str) -> bool
        ensures { result ≡ is_there (names_of self.now.files) name.now }
    {
        self.get(name).is_some()
    }
}

impl Finds for NeverFails {
    ghost use Rattle.std.specs.Prelude.{◌≡◌};
    ghost use Rattle.ih_shelf.specs.{Outside.is_there, Stored.names_of};

    fn finds<R: Files>(&self, _rt: &R, name: &str) -> bool
        ensures { result ≡ is_there (names_of self.now) name.now }
    {
        self.get(name).is_some()
    }
}

impl Finds for FileShelf {
    fn finds<R: Files>(&self, rt: &R, name: &str) -> bool {
        fs::exists(rt, name).unwrap_or(true)
    }
}
