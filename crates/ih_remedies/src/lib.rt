//! What a person needs to mend a file that was refused: one line.
#![tactic(auto)]

mod broken;
mod choices;
mod forms;
mod owners;
mod remedies;
mod sentences;
mod values;

pub use forms::Form;
pub use remedies::remedy;
