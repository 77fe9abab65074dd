//! Room that the calls for moves take, in place of memory of their own.

use ih_footprint::CellSet;
use ih_moves::Writes;

/// Room for one move after the other.
#[derive(Drop)]
pub struct Scratch {
    // The writes of a move.
    pub writes: Writes,
    // Where the cells of moves are gathered.
    pub set: CellSet,
}
