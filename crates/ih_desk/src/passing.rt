//! What one worker calls of a gate. `Gate` is `Sync`, since threads share it; `PassesGate` has its two methods and no
//! such bound, since the search of one worker needs no threads.

use ih_shelf::Gate;
use std::sync::Wait;

/// What a worker calls before and after each offer.
pub(crate) trait PassesGate {
    fn before<R: Wait>(&self, rt: &R, worker: u32, attempt_no: u32);

    fn after<R: Wait>(&self, rt: &R, worker: u32, attempt_no: u32);
}

/// A gate that workers share, as each of them calls it.
pub(crate) struct SharedGate<'g, G> {
    pub(crate) gate: &'g G,
}

impl<'g, G: Gate> PassesGate for SharedGate<'g, G> {
    fn before<R: Wait>(&self, rt: &R, worker: u32, attempt_no: u32) {
        self.gate.before(rt, worker, attempt_no);
    }

    fn after<R: Wait>(&self, rt: &R, worker: u32, attempt_no: u32) {
        self.gate.after(rt, worker, attempt_no);
    }
}
