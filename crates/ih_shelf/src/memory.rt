//! A shelf in memory, for tests.

ghost use Rattle.std.specs.Prelude.{◌≡◌, take};

use crate::faults::FaultPlan;
use crate::outside::{ReadError, Shelf, WriteError};
use crate::stored::{NeverFails, copy_within};
use std::alloc::{AllocError, Global};
use std::marker::Model;
use std::rt::Files;

/// Files in memory, some of whose reads and writes fail on demand.
#[derive(Drop)]
pub struct MemShelf {
    files: NeverFails,
    reads: FaultPlan,
    writes: FaultPlan,
}

impl Model for MemShelf {
    ghost use Rattle.ih_shelf.specs.Memory.{MemShelfState};

    ghost Value = { MemShelfState };

    ghost view = { λ s. record { files = s.files; reads = s.reads; writes = s.writes } };
}

impl MemShelf {
    ghost use Rattle.std.specs.Prelude.{◌≡◌, ◌+◌, ◌-◌, ◌^◌, min, OnOk, OnErr, option_copied};
    ghost use Rattle.ih_shelf.specs.{Stored.names_of, Stored.stored, Faults.planned, Memory.empty_shelf};

    /// No files, and no call that is to fail. It takes no memory.
    pub fn new(alloc: Global) -> MemShelf
        ensures { result ≡ empty_shelf }
    {
        MemShelf {
            files: NeverFails::new(alloc),
            reads: FaultPlan::new(alloc),
            writes: FaultPlan::new(alloc),
        }
    }

    /// Sets a name.
    pub fn store(&mut self, name: &str, bytes: &[u8]) -> Result<(), AllocError>
        ensures ok { OnOk result
            (self.new ≡ record self.old { files = stored self.old.files name.now bytes.now }) }
        ensures err { OnErr result (self.new ≡ self.old) }
    {
        self.files.store(name, bytes)
    }

    /// The bytes of a name, if it is there.
    pub fn get(&self, name: &str) -> Option<&[u8]>
        ensures { option_copied result ≡ names_of self.now.files name.now }
    {
        self.files.get(name)
    }

    /// The read of this number is to fail. Reads are counted from 1, since the shelf was made.
    pub fn fail_read(&mut self, nth: u64) -> Result<(), AllocError>
        ensures ok { OnOk result
            (self.new ≡ record self.old { reads = planned self.old.reads nth 0 }) }
        ensures err { OnErr result (self.new ≡ self.old) }
    {
        self.reads.plan(nth, 0)
    }

    /// The write of this number is to fail, and the name then has the first `kept` of its bytes, or
    /// all where there are fewer. Writes are counted from 1, since the shelf was made.
    pub fn fail_write(&mut self, nth: u64, kept: u64) -> Result<(), AllocError>
        ensures ok { OnOk result
            (self.new ≡ record self.old { writes = planned self.old.writes nth kept }) }
        ensures err { OnErr result (self.new ≡ self.old) }
    {
        self.writes.plan(nth, kept)
    }

    /// How many reads and writes failed, at most 2^64 - 1.
    pub fn faults(&self) -> u64
        ensures { result ≡ min (self.now.reads.count + self.now.writes.count) (2 ^ 64 - 1) }
    {
        self.reads.count().saturating_add(self.writes.count())
    }
}

// The first `kept` bytes, or all where there are fewer.
fn first_of(bytes: &[u8], kept: u64) -> &[u8]
    ensures { result.now ≡ take kept bytes.now }
{
    if kept < bytes.len() as u64 {
        &bytes[..kept as usize]
    } else {
        bytes
    }
}

impl Shelf for MemShelf {
    ghost use Rattle.std.specs.Prelude.{◌≡◌, ◌<◌, ◌≤◌, ◌↔◌, Some, None, IsTrue, IsSomeAnd, IfOk, OnOk, vec_len, length};
    ghost use Rattle.ih_shelf.specs.Memory.{read_fails, after_read, after_write, after_failed_write};
    ghost use Rattle.ih_shelf.specs.{Stored.names_of, Outside.bytes_at, Faults.due, Faults.called};

    ghost names = { λ s. Some (names_of s.files) };

    ghost read_faults = { λ s. s.reads.count };

    ghost write_faults = { λ s. s.writes.count };

    ghost read_failed = { λ s name t. IsTrue (read_fails s name) × (t ≡ after_read s name) };

    /// A read of a name that isn't there is a fault.
    fn read<R: Files>(
        &mut self,
        _rt: &R,
        alloc: Global,
        name: &str,
        limit: u64,
    ) -> Result<Vec<u8>, ReadError>
        ensures fails { (result ≡ Err ReadError.Fault) ↔ IsTrue (read_fails self.old name.now) }
        ensures after { self.new ≡ after_read self.old name.now }

        // What every shelf promises.
        ensures bytes { IfOk result (λ v. v.items ≡ bytes_at (names_of self.old.files) name.now) }
        ensures limit { IfOk result (λ v. vec_len v ≤ limit) }
        ensures too_long { result ≡ Err ReadError.TooLong →
            limit < length (bytes_at (names_of self.old.files) name.now) }
        ensures count { self.old.reads.count ≤ self.new.reads.count }
    {
        let kept = self.reads.call();
        match (kept, self.files.get(name)) {
            (None, Some(bytes)) => copy_within(alloc, bytes, limit),
            _ => {
                self.reads.fail();
                Err(ReadError::Fault)
            }
        }
    }

    /// A write that fails as planned leaves the bytes that it keeps.
    fn write<R: Files>(&mut self, _rt: &R, name: &str, bytes: &[u8]) -> Result<(), WriteError>
        ensures ok { OnOk result (due self.old.writes ≡ None) }
        ensures written { OnOk result (self.new ≡ after_write self.old name.now bytes.now) }
        ensures fails { result ≡ Err WriteError.Fault → IsSomeAnd (due self.old.writes)
            (λ kept. self.new ≡ after_failed_write self.old name.now bytes.now kept) }
        ensures out_of_memory { result ≡ Err WriteError.OutOfMemory →
            self.new ≡ record self.old { writes = called self.old.writes } }

        // What every shelf promises.
        ensures count { self.old.writes.count ≤ self.new.writes.count }
    {
        match self.writes.call() {
            None => self
                .files
                .store(name, bytes)
                .map_err(|_| WriteError::OutOfMemory),
            Some(kept) => {
                if self.files.store(name, first_of(bytes, kept)).is_err() {
                    return Err(WriteError::OutOfMemory);
                }
                self.writes.fail();
                Err(WriteError::Fault)
            }
        }
    }
}
