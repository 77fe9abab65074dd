//! What a move writes, and the moves that a worker draws.
#![tactic(auto)]

mod chains;
mod draws;
mod writes;

pub use chains::Chain;
pub use draws::{Stream, window_len};
pub use writes::{Writes, expand};
