//! Named files in memory.

ghost use Rattle.std.specs.Prelude.{◌≡◌, ◌≢◌, ◌<◌, ◌≤◌, ◌↔◌, IfOk, OnOk, length, vec_len, option_copied};
ghost use Rattle.ih_shelf.specs.Stored.{names_of};

use crate::outside::ReadError;
use std::alloc::{AllocError, Global};
use std::marker::Model;

/// A copy of the bytes of a file, of which there may be at most `limit`.
pub fn copy_within(alloc: Global, bytes: &[u8], limit: u64) -> Result<Vec<u8>, ReadError>
    ensures bytes { IfOk result (λ v. v.items ≡ bytes.now) }
    ensures limit { IfOk result (λ v. vec_len v ≤ limit) }
    ensures too_long { (result ≡ Err ReadError.TooLong) ↔ (limit < length bytes.now) }
    ensures never_faults { result ≢ Err ReadError.Fault }
{
    if bytes.len() as u64 > limit {
        return Err(ReadError::TooLong);
    }
    Vec::from_slice(alloc, bytes).map_err(|_| ReadError::OutOfMemory)
}

#[derive(Drop)]
struct StoredFile {
    name: String,
    bytes: Vec<u8>,
}

impl Model for StoredFile {
    ghost use Rattle.std.specs.Prelude.{string_bytes};
    ghost use Rattle.ih_shelf.specs.Stored.{NamedFile};

    ghost Value = { NamedFile };

    ghost view = { λ f. record { name = string_bytes f.name; bytes = f.bytes.items } };
}

fn find<'a>(files: &'a [StoredFile], name: &str) -> Option<&'a [u8]>
    ensures { option_copied result ≡ names_of files.now name.now }
{
    for file in files {
        if file.name.as_str() == name {
            return Some(file.bytes.as_slice());
        }
    }
    None
}

/// A shelf in memory whose reads and writes never fail, for tests: the files that were stored, the
/// newest first, of which the first of a name counts.
#[derive(Drop)]
pub struct NeverFails {
    alloc: Global,
    files: Vec<StoredFile>,
}

impl Model for NeverFails {
    ghost use Rattle.std.specs.Prelude.{List};
    ghost use Rattle.ih_shelf.specs.Stored.{NamedFile};

    ghost Value = { List NamedFile };

    ghost view = { λ s. s.files.items };
}

impl NeverFails {
    ghost use Rattle.std.specs.Prelude.{◌≡◌, [], OnOk, OnErr, option_copied};
    ghost use Rattle.ih_shelf.specs.Stored.{names_of, stored};

    /// No files. It takes no memory.
    pub fn new(alloc: Global) -> NeverFails
        ensures { result ≡ [] }
    {
        NeverFails {
            alloc,
            files: Vec::new(alloc),
        }
    }

    /// The bytes of a name, if it is there.
    pub fn get(&self, name: &str) -> Option<&[u8]>
        ensures { option_copied result ≡ names_of self.now name.now }
    {
        find(self.files.as_slice(), name)
    }

    /// Sets a name. The file goes before those of the same name that were there.
    pub fn store(&mut self, name: &str, bytes: &[u8]) -> Result<(), AllocError>
        ensures ok { OnOk result (self.new ≡ stored self.old name.now bytes.now) }
        ensures err { OnErr result (self.new ≡ self.old) }
    {
        let bytes = Vec::from_slice(self.alloc, bytes)?;
        let name = String::from_str(self.alloc, name)?;
        self.files.insert(0, StoredFile { name, bytes })?;
        Ok(())
    }
}
