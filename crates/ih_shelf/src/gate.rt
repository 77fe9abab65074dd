//! The gate that the program uses.

use crate::outside::Gate;
use std::sync::Wait;

/// A gate that does nothing.
#[derive(Clone, Copy, Debug)]
pub struct OpenGate;

impl Gate for OpenGate {
    fn before<R: Wait>(&self, _rt: &R, _worker: u32, _number: u32) {}

    fn after<R: Wait>(&self, _rt: &R, _worker: u32, _number: u32) {}
}
