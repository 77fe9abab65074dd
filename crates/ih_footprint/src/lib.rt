//! The numbers of cells, the footprints of writes and moves, and the laws that tie contents, footprints and bills.
#![tactic(auto)]

mod bits;
mod cell_lists;
mod cell_sets;
mod footprints;
mod laws;
mod numbering;

pub use cell_lists::CellList;
pub use cell_sets::CellSet;
pub use footprints::{foot, gather, looks};
pub use laws::{footprints_are_local, footprints_keep_the_rest};
pub use numbering::Numbering;
