//! The outside: files by name, a sink of bytes, and a gate that workers pass.
#![tactic(auto)]

mod faults;
mod finding;
mod gate;
mod hold;
mod memory;
mod never_fails;
mod outside;
mod real;
mod replace;
mod sink;
mod stored;
mod transfer;

pub use finding::Finds;
pub use gate::OpenGate;
pub use hold::HoldGate;
pub use memory::MemShelf;
pub use outside::{Gate, ReadError, Shelf, Sink, WriteError};
pub use real::{FileShelf, OutSink};
pub use sink::MemSink;
pub use stored::NeverFails;
