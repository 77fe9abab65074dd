//! What a price was read from.

use std::alloc::{AllocError, Global};
use std::marker::Model;

/// Cells, each with the version that it had when a price was read from it.
#[derive(Drop)]
pub struct Reads {
    pairs: Vec<(u32, u32)>,
    room: u32,
}

impl Model for Reads {
    ghost use Rattle.std.specs.Prelude.{◌≤◌, vec_capacity};
    ghost use Rattle.ih_cellbook.specs.ReadsState.{ReadsState};

    ghost Value = { ReadsState };

    ghost view = { λ r. record { pairs = r.pairs.items; room = r.room } };

    ghost invariant = { λ r. r.room ≤ vec_capacity r.pairs };
}

impl Reads {
    ghost use Rattle.std.specs.Prelude.{◌≡◌, ◌<◌, ◌≤◌, ◌++◌, ◌∷◌, [], length, slice_index, All, IfOk};
    ghost use Rattle.ih_plan.specs.Sums.{tagged};

    /// No cells yet, and room for `cells` of them.
    pub fn new(alloc: Global, cells: u32) -> Result<Reads, AllocError>
        ensures { IfOk result (λ r. r ≡ record { pairs = []; room = cells }) }
    {
        let pairs = Vec::with_capacity(alloc, cells as usize)?;
        Ok(Reads { pairs, room: cells })
    }

    /// Puts a cell by number, with its version, behind the others. It takes no memory.
    pub fn push(&mut self, cell: u32, version: u32)
        requires { length self.old.pairs < self.old.room }
        ensures { self.new ≡ record self.old { pairs = self.old.pairs ++ (cell, version) ∷ [] } }
    {
        self.pairs.push_reserved((cell, version));
    }

    /// Notes cells with their versions, in place of what was noted. It takes no memory.
    pub fn note(&mut self, cells: &[u32], versions: &[u32])
        requires cells { All (λ n. n < length versions.now) cells.now }
        requires room { length cells.now ≤ self.old.room }
        ensures { self.new ≡ record self.old { pairs = tagged (slice_index versions.now) cells.now } }
    {
        self.clear();
        for &cell in cells {
            self.push(cell, versions[cell as usize]);
        }
    }

    /// Takes all cells out, and keeps the room.
    pub fn clear(&mut self)
        ensures { self.new ≡ record self.old { pairs = [] } }
    {
        self.pairs.clear();
    }

    /// The cells with their versions, in the order in which they came.
    pub fn as_slice(&self) -> &[(u32, u32)]
        ensures { result.now ≡ self.now.pairs }
    {
        self.pairs.as_slice()
    }
}
