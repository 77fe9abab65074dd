//! The gates past which calls are made.

use crate::counting::CountingGate;
use crate::meeting::MeetingGate;
use ih_shelf::{Gate, HoldGate};
use std::sync::Wait;

/// A gate that does nothing, one that holds worker 0, one at which all workers meet, or one that counts how often each
/// of two workers passes, which is to be this number.
#[derive(Drop)]
pub enum TestGate {
    Open,
    Hold(HoldGate),
    Meeting(MeetingGate),
    Counting(CountingGate, u64),
}

impl TestGate {
    /// Whether no wait at it has ended in vain, and each worker passed as often as it was to, in turn.
    pub(crate) fn is_well(&self) -> bool {
        match self {
            TestGate::Open => true,
            TestGate::Hold(gate) => !gate.ran_out(),
            TestGate::Meeting(gate) => !gate.ran_out(),
            TestGate::Counting(gate, passes) => gate.counted(*passes, *passes),
        }
    }
}

impl Gate for TestGate {
    fn before<R: Wait>(&self, rt: &R, worker: u32, number: u32) {
        match self {
            TestGate::Open => (),
            TestGate::Hold(gate) => gate.before(rt, worker, number),
            TestGate::Meeting(gate) => gate.before(rt, worker, number),
            TestGate::Counting(gate, _) => gate.before(rt, worker, number),
        }
    }

    fn after<R: Wait>(&self, rt: &R, worker: u32, number: u32) {
        match self {
            TestGate::Open => (),
            TestGate::Hold(gate) => gate.after(rt, worker, number),
            TestGate::Meeting(gate) => gate.after(rt, worker, number),
            TestGate::Counting(gate, _) => gate.after(rt, worker, number),
        }
    }
}
