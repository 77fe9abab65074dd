//! How a call ends, below each program that does calls: its status, the text that says so, and how that is put out.
#![tactic(auto)]

mod answer;
mod inputs;
mod status;
mod texts;

pub use answer::{Answer, conclude, conclude_memory};
pub use inputs::read_or_answer;
pub use status::{Role, Status};
pub use texts::{none_found, out_of_memory, said, unwritten};
