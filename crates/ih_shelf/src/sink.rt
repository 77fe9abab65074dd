//! A sink in memory, for tests.

use crate::faults::FaultPlan;
use crate::outside::{Sink, WriteError};
use std::alloc::{AllocError, Global};
use std::marker::Model;

/// Text in memory, some of whose puts fail on demand.
#[derive(Drop)]
pub struct MemSink {
    text: Vec<u8>,
    puts: FaultPlan,
    // How often a put wanted memory. It stands still at 2^64 - 1.
    lacks: u64,
}

impl Model for MemSink {
    ghost use Rattle.ih_shelf.specs.Memory.{MemSinkState};

    ghost Value = { MemSinkState };

    ghost view = { λ s. record { text = s.text.items; puts = s.puts; lacks = s.lacks } };
}

impl MemSink {
    ghost use Rattle.std.specs.Prelude.{◌≡◌, OnOk, OnErr, []};
    ghost use Rattle.ih_shelf.specs.Faults.{no_faults, planned};

    /// No text, and no put that is to fail. It takes no memory.
    pub fn new(alloc: Global) -> MemSink
        ensures { result ≡ record { text = []; puts = no_faults; lacks = 0 } }
    {
        MemSink {
            text: Vec::new(alloc),
            puts: FaultPlan::new(alloc),
            lacks: 0,
        }
    }

    /// The text so far.
    pub fn bytes(&self) -> &[u8]
        ensures { result.now ≡ self.now.text }
    {
        self.text.as_slice()
    }

    /// The put of this number is to fail, and then puts nothing. Puts are counted from 1, since the
    /// sink was made.
    pub fn fail_put(&mut self, nth: u64) -> Result<(), AllocError>
        ensures ok { OnOk result
            (self.new ≡ record self.old { puts = planned self.old.puts nth 0 }) }
        ensures err { OnErr result (self.new ≡ self.old) }
    {
        self.puts.plan(nth, 0)
    }
}

impl Sink for MemSink {
    ghost use Rattle.std.specs.Prelude.{◌≡◌, ◌≤◌, ◌↔◌, ◌++◌, Some, IsSome, OnOk};
    ghost use Rattle.ih_shelf.specs.Faults.{due, called, failed};
    ghost use Rattle.ih_shelf.specs.Outside.{raised};

    ghost text = { λ s. Some s.text };

    ghost faults = { λ s. s.puts.count };

    ghost puts = { λ s. Some s.puts.calls };

    ghost lacks = { λ s. s.lacks };

    /// A put that fails as planned puts nothing.
    fn put<R: Print>(&mut self, _rt: &R, bytes: &[u8]) -> Result<(), WriteError>
        ensures fails { (result ≡ Err WriteError.Fault) ↔ IsSome (due self.old.puts) }
        ensures ok { OnOk result
            (self.new ≡ record self.old { text = self.old.text ++ bytes.now; puts = called self.old.puts }) }
        ensures after_fault { result ≡ Err WriteError.Fault →
            self.new ≡ record self.old { puts = failed (called self.old.puts) } }
        ensures out_of_memory { result ≡ Err WriteError.OutOfMemory → self.new ≡
            record self.old { puts = called self.old.puts; lacks = raised self.old.lacks } }

        // What every sink promises.
        ensures one { self.new.puts.calls ≡ raised self.old.puts.calls }
        ensures count { self.old.puts.count ≤ self.new.puts.count }
        ensures lack_count { self.old.lacks ≤ self.new.lacks }
    {
        if self.puts.call().is_some() {
            self.puts.fail();
            return Err(WriteError::Fault);
        }
        if self.text.extend_from_slice(bytes).is_err() {
            self.lacks = self.lacks.saturating_add(1);
            return Err(WriteError::OutOfMemory);
        }
        Ok(())
    }
}
