//! What the shelf that never fails does as a shelf.

use crate::outside::{ReadError, Shelf, WriteError};
use crate::stored::{NeverFails, copy_within};
use std::alloc::Global;
use std::rt::Files;

impl Shelf for NeverFails {
    ghost use Rattle.std.specs.Prelude.{◌≡◌, ◌≢◌, ◌<◌, ◌≤◌, Some, IfOk, OnOk, OnErr, vec_len, length};
    ghost use Rattle.ih_shelf.specs.{Outside.bytes_at, Stored.names_of, Stored.stored};

    ghost names = { λ s. Some (names_of s) };

    ghost read_faults = { λ s. 0 };

    ghost write_faults = { λ s. 0 };

    ghost read_failed = { λ s name t. ⊥ };

    /// A name that isn't there has no bytes.
    fn read<R: Files>(
        &mut self,
        _rt: &R,
        alloc: Global,
        name: &str,
        limit: u64,
    ) -> Result<Vec<u8>, ReadError>
        ensures bytes { IfOk result (λ v. v.items ≡ bytes_at (names_of self.old) name.now) }
        ensures limit { IfOk result (λ v. vec_len v ≤ limit) }
        ensures too_long { result ≡ Err ReadError.TooLong →
            limit < length (bytes_at (names_of self.old) name.now) }
        ensures never_faults { result ≢ Err ReadError.Fault }
        ensures kept { self.new ≡ self.old }
    {
        match self.get(name) {
            None => Ok(Vec::new(alloc)),
            Some(bytes) => copy_within(alloc, bytes, limit),
        }
    }

    fn write<R: Files>(&mut self, _rt: &R, name: &str, bytes: &[u8]) -> Result<(), WriteError>
        ensures ok { OnOk result (self.new ≡ stored self.old name.now bytes.now) }
        ensures err { OnErr result (self.new ≡ self.old) }
        ensures never_faults { result ≢ Err WriteError.Fault }
    {
        self.store(name, bytes).map_err(|_| WriteError::OutOfMemory)
    }
}
