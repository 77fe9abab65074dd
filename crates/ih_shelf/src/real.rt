//! Real files and standard output: the edges that are trusted.

ghost use Rattle.std.specs.Prelude.{◌≤◌, IfOk, vec_len};

use crate::outside::{ReadError, Shelf, Sink, WriteError};
use crate::replace::write_file;
use crate::transfer::{read_within, write_whole};
use std::alloc::Global;
use std::marker::Model;
use std::rt::Files;
use std::{fs, io};

fn read_file<R: Files>(rt: &R, alloc: Global, name: &str, limit: u64) -> Result<Vec<u8>, ReadError>
    ensures { IfOk result (λ v. vec_len v ≤ limit) }
{
    let mut file = fs::open(rt, name).map_err(|_| ReadError::Fault)?;
    read_within(&mut file, alloc, limit)
}

/// Real files. It tells nothing of what they hold, and counts each failure of the file system. A regular file is
/// replaced as one step: where a write fails it has what it had.
#[derive(Drop)]
pub struct FileShelf {
    // Where the last read took its memory. Links are followed with it.
    memory: Option<Global>,
    read_faults: u64,
    write_faults: u64,
}

impl Model for FileShelf {
    ghost use Rattle.ih_shelf.specs.Real.{FaultCounts};

    ghost Value = { FaultCounts };

    ghost view = { λ s. record { reads = s.read_faults; writes = s.write_faults } };
}

impl FileShelf {
    ghost use Rattle.std.specs.Prelude.{◌≡◌};

    /// The shelf of the real files. No failure is counted yet. It takes no memory.
    pub fn new() -> FileShelf
        ensures { result ≡ record { reads = 0; writes = 0 } }
    {
        FileShelf {
            memory: None,
            read_faults: 0,
            write_faults: 0,
        }
    }
}

impl Shelf for FileShelf {
    ghost use Rattle.std.specs.Prelude.{◌≡◌, ◌≢◌, ◌≤◌, None, IfOk, OnErr, OnOk, vec_len};
    ghost use Rattle.ih_shelf.specs.Outside.{raised};

    ghost names = { λ s. None };

    ghost read_faults = { λ s. s.reads };

    ghost write_faults = { λ s. s.writes };

    ghost read_failed = { λ s name t. t ≡ record s { reads = raised s.reads } };

    fn read<R: Files>(
        &mut self,
        rt: &R,
        alloc: Global,
        name: &str,
        limit: u64,
    ) -> Result<Vec<u8>, ReadError>
        ensures fault { result ≡ Err ReadError.Fault →
            self.new ≡ record self.old { reads = raised self.old.reads } }
        ensures other { result ≢ Err ReadError.Fault → self.new ≡ self.old }

        // What every shelf promises.
        ensures limit { IfOk result (λ v. vec_len v ≤ limit) }
        ensures count { self.old.reads ≤ self.new.reads }
    {
        self.memory = Some(alloc);
        let result = read_file(rt, alloc, name, limit);
        if let Err(ReadError::Fault) = result {
            self.read_faults = self.read_faults.saturating_add(1);
        }
        result
    }

    fn write<R: Files>(&mut self, rt: &R, name: &str, bytes: &[u8]) -> Result<(), WriteError>
        ensures ok { OnOk result (self.new ≡ self.old) }
        ensures err { OnErr result
            (self.new ≡ record self.old { writes = raised self.old.writes }) }

        // What every shelf promises.
        ensures count { self.old.writes ≤ self.new.writes }
    {
        let result = write_file(rt, self.memory, name, bytes);
        if result.is_err() {
            self.write_faults = self.write_faults.saturating_add(1);
        }
        result
    }
}

/// Standard output. It tells nothing of what it was given, and counts each failure. It wants no memory.
#[derive(Drop)]
pub struct OutSink {
    faults: u64,
}

impl Model for OutSink {
    ghost use Rattle.std.specs.Prelude.{ℕ};

    ghost Value = { ℕ };

    ghost view = { λ s. s.faults };
}

impl OutSink {
    ghost use Rattle.std.specs.Prelude.{◌≡◌};

    /// The real standard output. No failure is counted yet.
    pub fn new() -> OutSink
        ensures { result ≡ 0 }
    {
        OutSink { faults: 0 }
    }
}

impl Sink for OutSink {
    ghost use Rattle.std.specs.Prelude.{◌≡◌, ◌≢◌, ◌≤◌, None, OnErr, OnOk};
    ghost use Rattle.ih_shelf.specs.Outside.{raised};

    ghost text = { λ s. None };

    ghost puts = { λ s. None };

    ghost faults = { λ s. s };

    ghost lacks = { λ s. 0 };

    fn put<R: Print>(&mut self, rt: &R, bytes: &[u8]) -> Result<(), WriteError>
        ensures ok { OnOk result (self.new ≡ self.old) }
        ensures err { OnErr result (self.new ≡ raised self.old) }
        ensures never_wants { result ≢ Err WriteError.OutOfMemory }

        // What every sink promises.
        ensures count { self.old ≤ self.new }
    {
        let result = write_whole(&mut io::writer(rt), bytes);
        if result.is_err() {
            self.faults = self.faults.saturating_add(1);
        }
        result
    }
}
